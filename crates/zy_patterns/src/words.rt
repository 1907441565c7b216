//! The words of outcomes and what they stand for, a line for each.
ghost use Rattle.std.specs.Prelude.{◌≡◌};
ghost use Rattle.zy_patterns.specs.Vocabulary as spec;

use crate::paged::PagedOutcome;
use crate::patterns::{OutcomePattern, ReasonPattern};
use zy_isa::Node;
pub use zy_isa::operation::is;
use zy_model::Kind;

/// What a word stands for in a table, if it is there.
#[macro_export]
macro_rules! stands_for {
    ($word:expr;) => { None };
    ($word:expr; $text:literal => $value:expr, $($more:tt)*) => {
        if $crate::words::is($word, $text) {
            Some($value)
        } else {
            $crate::stands_for!($word; $($more)*)
        }
    };
}

/// The nodes.
#[tactic(auto, unfolding(crate::specs::Vocabulary::node))]
pub fn node(word: &[u8]) -> Option<Node>
    ensures { result ≡ spec.node word.now }
{
    stands_for! { word;
        b"A" => Node::A,
        b"B" => Node::B,
    }
}

/// The kinds of messages.
#[tactic(auto, unfolding(crate::specs::Vocabulary::kind))]
pub fn kind(word: &[u8]) -> Option<Kind>
    ensures { result ≡ spec.kind word.now }
{
    stands_for! { word;
        b"wire" => Kind::Wire,
        b"ready" => Kind::Ready,
        b"dual" => Kind::Dual,
        b"pull" => Kind::Pull,
        b"page" => Kind::Page,
        b"finish" => Kind::Finish,
        b"done" => Kind::Done,
    }
}

/// The reasons of aborts that are one word.
#[tactic(auto, unfolding(crate::specs::Vocabulary::lone_reason))]
pub fn lone_reason(word: &[u8]) -> Option<ReasonPattern>
    ensures { result ≡ spec.lone_reason word.now }
{
    stands_for! { word;
        b"own" => ReasonPattern::Own,
        b"killed" => ReasonPattern::Killed,
        b"badkey" => ReasonPattern::BadKey,
        b"missing" => ReasonPattern::Missing,
        b"duplicate" => ReasonPattern::Duplicate,
        b"nopage" => ReasonPattern::NoPage,
    }
}

/// The outcomes that are one word.
#[tactic(auto, unfolding(crate::specs::Vocabulary::lone_outcome))]
pub fn lone_outcome(word: &[u8]) -> Option<OutcomePattern>
    ensures { result ≡ spec.lone_outcome word.now }
{
    stands_for! { word;
        b"started" => OutcomePattern::Started,
        b"badmode" => OutcomePattern::BadMode,
        b"idle" => OutcomePattern::Idle,
        b"elsewhere" => OutcomePattern::Elsewhere,
        b"notyet" => OutcomePattern::NotYet,
        b"did" => OutcomePattern::Did,
        b"nomessage" => OutcomePattern::NoMessage,
        b"stray" => OutcomePattern::Stray,
        b"finishing" => OutcomePattern::Finishing,
        b"nopush" => OutcomePattern::NoPush,
    }
}

/// The outcomes that are `got` and one word.
#[tactic(auto, unfolding(crate::specs::Vocabulary::lone_got))]
pub fn lone_got(word: &[u8]) -> Option<OutcomePattern>
    ensures { result ≡ spec.lone_got word.now }
{
    stands_for! { word;
        b"wire" => OutcomePattern::GotWire,
        b"ready" => OutcomePattern::GotReady,
        b"dual" => OutcomePattern::GotDual,
        b"finish" => OutcomePattern::GotFinish,
        b"done" => OutcomePattern::GotDone,
    }
}

/// The outcomes of one page, but for those after `got`.
#[tactic(auto, unfolding(crate::specs::Vocabulary::paged_outcome))]
pub fn paged_outcome(word: &[u8]) -> Option<PagedOutcome>
    ensures { result ≡ spec.paged_outcome word.now }
{
    stands_for! { word;
        b"waits" => PagedOutcome::Waits,
        b"pulls" => PagedOutcome::Pulls,
        b"awaits" => PagedOutcome::Awaits,
        b"stale" => PagedOutcome::Stale,
        b"held" => PagedOutcome::Held,
        b"pushed" => PagedOutcome::Pushed,
    }
}

/// The outcomes of one page that come after `got`.
#[tactic(auto, unfolding(crate::specs::Vocabulary::paged_got))]
pub fn paged_got(word: &[u8]) -> Option<PagedOutcome>
    ensures { result ≡ spec.paged_got word.now }
{
    stands_for! { word;
        b"pull" => PagedOutcome::GotPull,
        b"page" => PagedOutcome::GotPage,
    }
}
