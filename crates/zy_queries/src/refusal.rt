//! Why a text is no goal.

use std::alloc::AllocError;
use std::fmt;
use thiserror::Error;

/// What was expected in place of a word.
#[derive(Clone, Copy)]
pub enum ExpectedInGoal {
    Fact,
    /// What may follow a fact or a closing bracket.
    Operator,
    /// The same where no outcome may follow.
    OperatorAlone,
    /// The word is a bracket that closes none.
    OpenBracket,
    /// A bracket is open at the end.
    ClosingBracket,
    Node,
    Mode,
    Place,
    Selector,
    /// The name of a transaction that the scenario has.
    KnownName,
    TxnProperty,
    Link,
    LinkContent,
    Comparison,
    Term,
    /// `to`, between the keys of a sum.
    To,
    Register,
    /// A number of at most this.
    Number(u64),
    Outcome,
    /// The end, after the outcome.
    End,
    /// The end, in place of `then`.
    NoThen,
    /// The end, or a closing bracket: there are as many parts as there may be.
    FewerParts,
}

/// The words that `Display` writes.
impl fmt::Debug for ExpectedInGoal {
    fn fmt<W: fmt::Write>(&self, f: &mut fmt::Formatter<W>) -> fmt::Result {
        fmt::Display::fmt(self, f)
    }
}

/// What a person reads of it.
impl fmt::Display for ExpectedInGoal {
    fn fmt<W: fmt::Write>(&self, f: &mut fmt::Formatter<W>) -> fmt::Result {
        let words = match self {
            ExpectedInGoal::Fact => concat!(
                "a fact begins with mode, page, txn, link, key, sum, reg, pc, done, commits or a number, ",
                "or is one of differs, stuck, deadlock, over, committed, aborted, own, killed, badkey, missing, ",
                "duplicate, frozen, nopage and gone"
            ),
            ExpectedInGoal::Operator => "after a fact comes and, or, then, ) or the end",
            ExpectedInGoal::OperatorAlone => "after a fact comes and, or, ) or the end",
            ExpectedInGoal::OpenBracket => "this ) closes no bracket",
            ExpectedInGoal::ClosingBracket => "a ( is not closed",
            ExpectedInGoal::Node => "a node is A or B",
            ExpectedInGoal::Mode => {
                "a mode is normal, empty, sinit, sdual, sfinish, dinit, ddual or dfinish"
            }
            ExpectedInGoal::Place => "a page is at A, at B, at AB, at BA, moving, locked or absent",
            ExpectedInGoal::Selector => "after txn comes a number, a name, any or all",
            ExpectedInGoal::KnownName => "the scenario has no transaction of this name",
            ExpectedInGoal::TxnProperty => concat!(
                "after txn and a number, a name, any or all comes new, active, committed, aborted, aborted WHY, at N ",
                "or wrote K, and after one of the first two also committed before T or locks P"
            ),
            ExpectedInGoal::Link => "a link is AB or BA",
            ExpectedInGoal::LinkContent => {
                "a link is empty, or has and wire, ready, dual, pull, page, finish or done"
            }
            ExpectedInGoal::Comparison => "after a number comes =, !=, <, <=, > or >=",
            ExpectedInGoal::Term => {
                "a number is compared with a number, key K, sum K to K, reg T rN, pc T, done T or commits"
            }
            ExpectedInGoal::To => "a sum is of the keys from one to another: sum K to K",
            ExpectedInGoal::Register => "a register is r0 to r7",
            ExpectedInGoal::Number(most) => return write!(
                f,
                "a number from 0 to {most} comes here"
            ),
            ExpectedInGoal::Outcome => concat!(
                "after then comes an outcome of the listing, with its numbers or without, ",
                "such as waits, pulls 3, got page or aborted gone"
            ),
            ExpectedInGoal::End => "nothing comes after the outcome",
            ExpectedInGoal::NoThen => "what every state is to meet has no then",
            ExpectedInGoal::FewerParts => {
                "a goal has at most 64 facts, ands, ors, nots and pairs of brackets"
            }
        };
        f.write_str(words)
    }
}

/// The word at which a text is no goal.
#[derive(Clone, Copy, Debug, Error)]
#[error("bytes {from} to {to} of the goal: {expected}")]
pub struct WordFault {
    /// Where the word begins and where it ends, in bytes from the start of the text. At the end of the text the word is
    /// empty.
    pub from: usize,
    pub to: usize,
    /// What was expected in its place.
    pub expected: ExpectedInGoal,
}

/// Why no goal was read.
#[derive(Clone, Copy, Debug, Error)]
pub enum GoalFault {
    /// The text is no goal.
    #[error(transparent)]
    Refused(#[from] WordFault),
    /// A request for memory was refused.
    #[error("there is no memory for the goal")]
    Memory,
}

impl From<AllocError> for GoalFault {
    fn from(_e: AllocError) -> GoalFault {
        GoalFault::Memory
    }
}
