//! The words of goals and what they stand for, a line for each.
ghost use Rattle.std.specs.Prelude.{◌≡◌};
ghost use Rattle.zy_queries.specs.Vocabulary as spec;

use zy_goals::goal::{Comparison, Fact, PagePlace, Selector, StateFact, TxnProperty};
use zy_isa::Node;
use zy_model::NodeMode;
use zy_patterns::{ReasonPattern, stands_for};

/// The links, each by the node that it goes from.
#[tactic(auto, unfolding(crate::specs::Vocabulary::link))]
pub fn link(word: &[u8]) -> Option<Node>
    ensures { result ≡ spec.link word.now }
{
    stands_for! { word;
        b"AB" => Node::A,
        b"BA" => Node::B,
    }
}

/// The modes.
#[tactic(auto, unfolding(crate::specs::Vocabulary::mode_of_node))]
pub fn mode(word: &[u8]) -> Option<NodeMode>
    ensures { result ≡ spec.mode_of_node word.now }
{
    stands_for! { word;
        b"normal" => NodeMode::Normal,
        b"empty" => NodeMode::Empty,
        b"sinit" => NodeMode::SInit,
        b"sdual" => NodeMode::SDual,
        b"sfinish" => NodeMode::SFinish,
        b"dinit" => NodeMode::DInit,
        b"ddual" => NodeMode::DDual,
        b"dfinish" => NodeMode::DFinish,
    }
}

/// The places after `page P at`.
#[tactic(auto, unfolding(crate::specs::Vocabulary::place_of_page))]
pub fn place(word: &[u8]) -> Option<PagePlace>
    ensures { result ≡ spec.place_of_page word.now }
{
    stands_for! { word;
        b"A" => PagePlace::At(Node::A),
        b"B" => PagePlace::At(Node::B),
        b"AB" => PagePlace::OnLinkFrom(Node::A),
        b"BA" => PagePlace::OnLinkFrom(Node::B),
    }
}

/// The registers.
#[tactic(auto, unfolding(crate::specs::Vocabulary::register))]
pub fn register(word: &[u8]) -> Option<u8>
    ensures { result ≡ spec.register word.now }
{
    stands_for! { word;
        b"r0" => 0,
        b"r1" => 1,
        b"r2" => 2,
        b"r3" => 3,
        b"r4" => 4,
        b"r5" => 5,
        b"r6" => 6,
        b"r7" => 7,
    }
}

/// The signs between two terms.
#[tactic(auto, unfolding(crate::specs::Vocabulary::sign))]
pub fn sign(word: &[u8]) -> Option<Comparison>
    ensures { result ≡ spec.sign word.now }
{
    stands_for! { word;
        b"=" => Comparison::Equal,
        b"!=" => Comparison::NotEqual,
        b"<" => Comparison::Less,
        b"<=" => Comparison::AtMost,
        b">" => Comparison::Greater,
        b">=" => Comparison::AtLeast,
    }
}

/// A transaction is aborted, for this reason if there is one.
pub fn aborted(reason: Option<ReasonPattern>) -> Fact
    ensures { result ≡ spec.aborted reason }
{
    Fact::OfState(StateFact::Txns(Selector::Any, TxnProperty::Aborted(reason)))
}

/// The facts of one word, but for reasons of aborts.
#[tactic(auto, unfolding(crate::specs::Vocabulary::lone_fact))]
pub fn lone_fact(word: &[u8]) -> Option<Fact>
    ensures { result ≡ spec.lone_fact word.now }
{
    stands_for! { word;
        b"differs" => Fact::Differs,
        b"stuck" => Fact::Stuck,
        b"deadlock" => Fact::Deadlock,
        b"over" => Fact::OfState(StateFact::Over),
        b"committed" => Fact::OfState(StateFact::Txns(Selector::All, TxnProperty::Committed)),
        b"aborted" => aborted(None),
    }
}
