//! The words of the machine's plain types.
ghost use Rattle.std.specs.Prelude.{◌≡◌};
ghost use Rattle.zy_listing.specs.Texts.{kind_text, link_word, mode_word, outcome_text, place_text, why_text};

use std::alloc::AllocError;
use zy_io::{Decimal, Line, LineBuffer, Piece, joined};
use zy_isa::Node;
use zy_model::{Kind, NodeMode};
use zy_table::{Outcome, Place, Why};
use zy_text::Canonical;

/// Why a transaction was aborted.
#[derive(Clone, Copy)]
pub(crate) struct WhyText(pub Why);

impl Piece for WhyText {
    ghost text = { λ w. why_text w.0 };

    ghost most = { 27 };

    #[inline(always)]
    fn put_behind(self, bytes: Vec<u8>) -> Vec<u8> {
        match self.0 {
            Why::Own => b"own".put_behind(bytes),
            Why::Killed => b"killed".put_behind(bytes),
            Why::BadKey => b"badkey".put_behind(bytes),
            Why::Missing => b"missing".put_behind(bytes),
            Why::Duplicate => b"duplicate".put_behind(bytes),
            Why::Frozen(page) => joined!(b"frozen ", Decimal(page)).put_behind(bytes),
            Why::NoPage => b"nopage".put_behind(bytes),
            Why::Gone(page) => joined!(b"gone ", Decimal(page)).put_behind(bytes),
        }
    }
}

impl Line for WhyText {
    ghost text = { λ w. why_text w.0 };

    fn append(&self, line: &mut LineBuffer) -> Result<(), AllocError> {
        line.push_piece(*self)
    }
}

/// What came of a step, behind other bytes.
#[derive(Clone, Copy)]
pub(crate) struct OutcomePiece<'a>(pub &'a Outcome);

impl Piece for OutcomePiece<'_> {
    ghost text = { λ o. outcome_text o.0.now };

    ghost most = { 68 };

    #[inline(always)]
    fn put_behind(self, bytes: Vec<u8>) -> Vec<u8> {
        match self.0 {
            Outcome::Started => b"started".put_behind(bytes),
            Outcome::BadMode => b"badmode".put_behind(bytes),
            Outcome::Began(node) => joined!(b"began ", Canonical(*node)).put_behind(bytes),
            Outcome::Idle => b"idle".put_behind(bytes),
            Outcome::Elsewhere => b"elsewhere".put_behind(bytes),
            Outcome::NotYet => b"notyet".put_behind(bytes),
            Outcome::Did => b"did".put_behind(bytes),
            Outcome::Split {
                page,
                new_page,
                boundary,
            } => joined!(
                b"split ",
                Decimal(*page),
                b" ",
                Decimal(*new_page),
                b" ",
                Decimal(*boundary),
            )
            .put_behind(bytes),
            Outcome::Aborted(why) => joined!(b"aborted ", WhyText(*why)).put_behind(bytes),
            Outcome::Committed(place) => joined!(b"committed ", Decimal(*place)).put_behind(bytes),
            Outcome::Waits(page) => joined!(b"waits ", Decimal(*page)).put_behind(bytes),
            Outcome::Pulls(page) => joined!(b"pulls ", Decimal(*page)).put_behind(bytes),
            Outcome::Awaits(page) => joined!(b"awaits ", Decimal(*page)).put_behind(bytes),
            Outcome::NoMessage => b"nomessage".put_behind(bytes),
            Outcome::GotWire => b"got wire".put_behind(bytes),
            Outcome::GotReady => b"got ready".put_behind(bytes),
            Outcome::GotDual => b"got dual".put_behind(bytes),
            Outcome::Stale(page) => joined!(b"stale ", Decimal(*page)).put_behind(bytes),
            Outcome::Held(page) => joined!(b"held ", Decimal(*page)).put_behind(bytes),
            Outcome::GotPull(page) => joined!(b"got pull ", Decimal(*page)).put_behind(bytes),
            Outcome::GotPage(page) => joined!(b"got page ", Decimal(*page)).put_behind(bytes),
            Outcome::GotFinish => b"got finish".put_behind(bytes),
            Outcome::GotDone => b"got done".put_behind(bytes),
            Outcome::Stray => b"stray".put_behind(bytes),
            Outcome::Finishing => b"finishing".put_behind(bytes),
            Outcome::Active(t) => joined!(b"active ", Decimal(*t)).put_behind(bytes),
            Outcome::Pushed(page) => joined!(b"pushed ", Decimal(*page)).put_behind(bytes),
            Outcome::NoPush => b"nopush".put_behind(bytes),
        }
    }
}

/// What came of a step.
#[derive(Clone, Copy)]
pub struct OutcomeText(pub Outcome);

impl Line for OutcomeText {
    ghost text = { λ o. outcome_text o.0 };

    fn append(&self, line: &mut LineBuffer) -> Result<(), AllocError> {
        line.push_piece(OutcomePiece(&self.0))
    }
}

/// A kind of message.
#[derive(Clone, Copy)]
pub struct KindText(pub Kind);

impl Piece for KindText {
    ghost text = { λ k. kind_text k.0 };

    ghost most = { 6 };

    #[inline(always)]
    fn put_behind(self, bytes: Vec<u8>) -> Vec<u8> {
        match self.0 {
            Kind::Wire => b"wire".put_behind(bytes),
            Kind::Ready => b"ready".put_behind(bytes),
            Kind::Dual => b"dual".put_behind(bytes),
            Kind::Pull => b"pull".put_behind(bytes),
            Kind::Page => b"page".put_behind(bytes),
            Kind::Finish => b"finish".put_behind(bytes),
            Kind::Done => b"done".put_behind(bytes),
        }
    }
}

impl Line for KindText {
    ghost text = { λ k. kind_text k.0 };

    fn append(&self, line: &mut LineBuffer) -> Result<(), AllocError> {
        line.push_piece(*self)
    }
}

/// A node's mode.
#[derive(Clone, Copy)]
pub struct ModeText(pub NodeMode);

impl Line for ModeText {
    ghost text = { λ m. mode_word m.0 };

    fn append(&self, line: &mut LineBuffer) -> Result<(), AllocError> {
        mode_name(self.0).append(line)
    }
}

/// The word of a mode.
fn mode_name(mode: NodeMode) -> &'static str
    ensures { result.now ≡ mode_word mode }
{
    match mode {
        NodeMode::Empty => "empty",
        NodeMode::Normal => "normal",
        NodeMode::SInit => "sinit",
        NodeMode::SDual => "sdual",
        NodeMode::SFinish => "sfinish",
        NodeMode::DInit => "dinit",
        NodeMode::DDual => "ddual",
        NodeMode::DFinish => "dfinish",
    }
}

/// The name of the link from a node.
#[derive(Clone, Copy)]
pub(crate) struct LinkText(pub Node);

impl Line for LinkText {
    ghost text = { λ l. link_word l.0 };

    fn append(&self, line: &mut LineBuffer) -> Result<(), AllocError> {
        match self.0 {
            Node::A => "AB".append(line),
            Node::B => "BA".append(line),
        }
    }
}

/// Where a page is.
#[derive(Clone, Copy)]
pub(crate) struct PlaceText(pub Place);

impl Line for PlaceText {
    ghost text = { λ p. place_text p.0 };

    fn append(&self, line: &mut LineBuffer) -> Result<(), AllocError> {
        match self.0 {
            Place::Nowhere => "nowhere".append(line),
            Place::At(node) => Canonical(node).append(line),
            Place::Moving(node) => LinkText(node).append(line),
        }
    }
}
