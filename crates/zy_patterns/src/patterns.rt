//! Outcomes as they are asked for.
ghost use Rattle.std.specs.Prelude.{◌≡◌};
ghost use Rattle.zy_patterns.specs.declared.patterns.OutcomePattern.TheVariants as pattern;
ghost use Rattle.zy_patterns.specs.Patterns as spec;

use zy_isa::Node;
use zy_table::{Outcome, Why};

/// What is asked of the reason of an abort. Each is named as its variant of `Why`; a page that is left out may be any.
#[derive(Clone, Copy)]
pub enum ReasonPattern {
    /// It came to its own `abort`.
    Own,
    /// The client killed it.
    Killed,
    /// It used a key over 65535.
    BadKey,
    /// It wrote a row that is not there.
    Missing,
    /// It inserted a row that is there.
    Duplicate,
    /// Its insert found this page full, and the node may split no page.
    Frozen(Option<u16>),
    /// Its insert found a full page, and no page can be added.
    NoPage,
    /// It needs this page, which has left its node.
    Gone(Option<u16>),
}

/// What is asked of an outcome. Each is named as its variant of `Outcome`; a node, a reason or a number that is left out may be
/// any.
#[derive(Clone, Copy)]
pub enum OutcomePattern {
    Started,
    BadMode,
    Began(Option<Node>),
    Idle,
    Elsewhere,
    NotYet,
    Did,
    Split {
        page: Option<u16>,
        new_page: Option<u16>,
        boundary: Option<u16>,
    },
    Aborted(Option<ReasonPattern>),
    Committed(Option<u8>),
    Waits(Option<u16>),
    Pulls(Option<u16>),
    Awaits(Option<u16>),
    NoMessage,
    GotWire,
    GotReady,
    GotDual,
    Stale(Option<u16>),
    Held(Option<u16>),
    GotPull(Option<u16>),
    GotPage(Option<u16>),
    GotFinish,
    GotDone,
    Stray,
    Finishing,
    Active(Option<u8>),
    Pushed(Option<u16>),
    NoPush,
}

/// Whether a number is the one that is asked for, if one is.
fn allows(asked: Option<u16>, came: u16) -> bool
    ensures { result ≡ spec.allows asked came }
{
    match asked {
        Some(number) => came == number,
        None => true,
    }
}

/// Whether a count is the one that is asked for, if one is.
fn allows_count(asked: Option<u8>, came: u8) -> bool
    ensures { result ≡ spec.allows asked came }
{
    match asked {
        Some(count) => came == count,
        None => true,
    }
}

/// Whether a node is the one that is asked for, if one is.
fn allows_node(asked: Option<Node>, came: Node) -> bool
    ensures { result ≡ spec.allows_node asked came }
{
    match (asked, came) {
        (None, _) | (Some(Node::A), Node::A) | (Some(Node::B), Node::B) => true,
        _ => false,
    }
}

/// Whether a reason is one that is asked for.
pub fn matches_reason(pattern: ReasonPattern, why: Why) -> bool
    ensures { result ≡ spec.matches_reason pattern why }
{
    match (pattern, why) {
        (ReasonPattern::Own, Why::Own)
        | (ReasonPattern::Killed, Why::Killed)
        | (ReasonPattern::BadKey, Why::BadKey)
        | (ReasonPattern::Missing, Why::Missing)
        | (ReasonPattern::Duplicate, Why::Duplicate)
        | (ReasonPattern::NoPage, Why::NoPage) => true,
        (ReasonPattern::Frozen(page), Why::Frozen(came))
        | (ReasonPattern::Gone(page), Why::Gone(came)) => allows(page, came),
        _ => false,
    }
}

/// Whether an abort for this reason is one that is asked for.
pub fn allows_reason(asked: Option<ReasonPattern>, why: Why) -> bool
    ensures { result ≡ spec.allows_reason asked why }
{
    match asked {
        Some(reason) => matches_reason(reason, why),
        None => true,
    }
}

/// Whether an outcome is a split with this page, new page and boundary, as far as they are asked for.
fn matches_split(
    page: Option<u16>,
    new_page: Option<u16>,
    boundary: Option<u16>,
    outcome: Outcome,
) -> bool
    ensures { result ≡ spec.matches (pattern.Split page new_page boundary) outcome }
{
    match outcome {
        Outcome::Split {
            page: cut,
            new_page: added,
            boundary: from,
        } => allows(page, cut) && allows(new_page, added) && allows(boundary, from),
        _ => false,
    }
}

/// Whether an outcome is one that is asked for.
pub fn matches(pattern: OutcomePattern, outcome: Outcome) -> bool
    ensures { result ≡ spec.matches pattern outcome }
{
    match (pattern, outcome) {
        (OutcomePattern::Started, Outcome::Started)
        | (OutcomePattern::BadMode, Outcome::BadMode)
        | (OutcomePattern::Idle, Outcome::Idle)
        | (OutcomePattern::Elsewhere, Outcome::Elsewhere)
        | (OutcomePattern::NotYet, Outcome::NotYet)
        | (OutcomePattern::Did, Outcome::Did)
        | (OutcomePattern::NoMessage, Outcome::NoMessage)
        | (OutcomePattern::GotWire, Outcome::GotWire)
        | (OutcomePattern::GotReady, Outcome::GotReady)
        | (OutcomePattern::GotDual, Outcome::GotDual)
        | (OutcomePattern::GotFinish, Outcome::GotFinish)
        | (OutcomePattern::GotDone, Outcome::GotDone)
        | (OutcomePattern::Stray, Outcome::Stray)
        | (OutcomePattern::Finishing, Outcome::Finishing)
        | (OutcomePattern::NoPush, Outcome::NoPush) => true,
        (OutcomePattern::Waits(page), Outcome::Waits(came))
        | (OutcomePattern::Pulls(page), Outcome::Pulls(came))
        | (OutcomePattern::Awaits(page), Outcome::Awaits(came))
        | (OutcomePattern::Stale(page), Outcome::Stale(came))
        | (OutcomePattern::Held(page), Outcome::Held(came))
        | (OutcomePattern::GotPull(page), Outcome::GotPull(came))
        | (OutcomePattern::GotPage(page), Outcome::GotPage(came))
        | (OutcomePattern::Pushed(page), Outcome::Pushed(came)) => allows(page, came),
        (OutcomePattern::Committed(count), Outcome::Committed(came))
        | (OutcomePattern::Active(count), Outcome::Active(came)) => allows_count(count, came),
        (OutcomePattern::Began(node), Outcome::Began(came)) => allows_node(node, came),
        (OutcomePattern::Aborted(reason), Outcome::Aborted(why)) => allows_reason(reason, why),
        (
            OutcomePattern::Split {
                page,
                new_page,
                boundary,
            },
            split,
        ) => matches_split(page, new_page, boundary, split),
        _ => false,
    }
}
