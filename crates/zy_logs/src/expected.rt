//! Why a line of a log is rejected.
ghost use Rattle.std.specs.Prelude.{◌≡◌};
ghost use Rattle.zy_logs.specs.Kinds.{kind_of};

use crate::possible::can_have_rows;
use std::fmt;
use zy_isa::Choice;

/// The kind of fault that a line has. Each is named as the fault of a scenario text.
#[derive(Clone, Copy, Debug)]
pub enum FaultKind {
    /// A word is not known here, or there are too few or too many.
    Word,
    /// A word is not 1 to 10 digits where a number is due.
    Number,
    /// A number is too large.
    Range,
    /// The key of a row is not above the one before it.
    Order,
    /// The scenario does not have the transaction.
    Label,
    /// No step of the choice gives the outcome, whatever the state, or it began at another node than the one in whose log the line
    /// stands.
    Outcome,
    /// There are too many choices, or too many rows of a page.
    Count,
}

/// What may stand in the place of a word.
#[derive(Clone, Copy)]
pub enum ExpectedInLog {
    Actor,
    ClientAction,
    NodeAction,
    /// The number or the name of a transaction.
    Txn,
    /// A transaction that the scenario has.
    KnownTxn,
    /// What may follow this choice.
    AfterChoice(Choice),
    Outcome,
    /// An outcome that a step of this choice can have, and a line of the log can tell.
    OutcomeOf(Choice),
    /// The kind of a message that was taken.
    Got,
    Node,
    Reason,
    /// 1 to 10 digits.
    Number,
    /// A number of at most this.
    AtMost(u64),
    /// What may follow an outcome of this choice.
    AfterOutcome(Choice),
    /// The kind of a message that was sent.
    Message,
    /// What may follow the kind of a message that a step of this choice sent.
    AfterMessage(Choice),
    /// A row K=V, or the end of the line.
    Row,
    /// A row whose key is above the one before it.
    HigherKey,
    /// The end of the line: the page has as many rows as there may be.
    FewerRows,
    /// The end of the line, after a gap.
    EndOfGap,
    /// No line that counts for as many choices as this one: there would be more of them than there may be.
    FewerLines,
}

impl ExpectedInLog {
    /// The kind of fault that any other word is.
    pub fn kind(self) -> FaultKind
        ensures { result ≡ kind_of self }
    {
        match self {
            ExpectedInLog::Number => FaultKind::Number,
            ExpectedInLog::AtMost(_) => FaultKind::Range,
            ExpectedInLog::HigherKey => FaultKind::Order,
            ExpectedInLog::FewerRows => FaultKind::Count,
            ExpectedInLog::KnownTxn => FaultKind::Label,
            ExpectedInLog::OutcomeOf(_) => FaultKind::Outcome,
            ExpectedInLog::FewerLines => FaultKind::Count,
            ExpectedInLog::Actor => FaultKind::Word,
            ExpectedInLog::ClientAction => FaultKind::Word,
            ExpectedInLog::NodeAction => FaultKind::Word,
            ExpectedInLog::Txn => FaultKind::Word,
            ExpectedInLog::AfterChoice(_) => FaultKind::Word,
            ExpectedInLog::Outcome => FaultKind::Word,
            ExpectedInLog::Got => FaultKind::Word,
            ExpectedInLog::Node => FaultKind::Word,
            ExpectedInLog::Reason => FaultKind::Word,
            ExpectedInLog::AfterOutcome(_) => FaultKind::Word,
            ExpectedInLog::Message => FaultKind::Word,
            ExpectedInLog::AfterMessage(_) => FaultKind::Word,
            ExpectedInLog::Row => FaultKind::Word,
            ExpectedInLog::EndOfGap => FaultKind::Word,
        }
    }
}

/// The outcomes of a choice, as a person reads them.
fn outcomes_of(choice: Choice) -> &'static str {
    match choice {
        Choice::Start => "start gives started or badmode",
        Choice::Begin(_) => "begin gives began (in the log of a node at that node) or idle",
        Choice::Kill(_) => "kill gives aborted killed or idle",
        Choice::Run(_, _) => concat!(
            "run gives idle, elsewhere, notyet, did, split, committed, waits, pulls, awaits ",
            "or aborted, for another reason than killed"
        ),
        Choice::Take(_) => "take gives nomessage, got, stale, held or stray",
        Choice::Finish(_) => "finish gives finishing, active or badmode",
        Choice::Push(_) => "push gives pushed, nopush or badmode",
    }
}

/// What may stand before the end of the line, beside what a line of any choice has there: rows, where the choice may have them.
fn or_rows(choice: Choice) -> &'static str {
    if can_have_rows(choice) { ", rows" } else { "" }
}

/// What may follow the kind of a message that a step of the choice sent.
fn after_message(choice: Choice) -> &'static str {
    if can_have_rows(choice) {
        "rows or the end of the line comes after the kind of the message that was sent"
    } else {
        "nothing comes after the kind of the message that was sent"
    }
}

/// The words that `Display` writes.
impl fmt::Debug for ExpectedInLog {
    fn fmt<W: fmt::Write>(&self, f: &mut fmt::Formatter<W>) -> fmt::Result {
        fmt::Display::fmt(self, f)
    }
}

/// What a person reads of it.
impl fmt::Display for ExpectedInLog {
    fn fmt<W: fmt::Write>(&self, f: &mut fmt::Formatter<W>) -> fmt::Result {
        let words = match self {
            ExpectedInLog::Actor => "a line of a log begins with C, A or B",
            ExpectedInLog::ClientAction => "after C comes start, begin T, kill T or ...",
            ExpectedInLog::NodeAction =>
                "after A or B comes run T, take, finish, push, start, begin T, kill T or ...",
            ExpectedInLog::Txn => "the number or the name of a transaction comes here",
            ExpectedInLog::KnownTxn => "the scenario does not have this transaction",
            ExpectedInLog::AfterChoice(choice) => {
                return write!(
                    f,
                    "after a choice comes -> OUTCOME, ! KIND{} or the end of the line",
                    or_rows(*choice)
                );
            }
            ExpectedInLog::Outcome => {
                "after -> comes ? or an outcome of the listing, of which node, reason and numbers may be left out"
            }
            ExpectedInLog::OutcomeOf(choice) => {
                return write!(f, "no state gives this outcome: {}", outcomes_of(*choice));
            }
            ExpectedInLog::Got => "after got comes wire, ready, dual, pull, page, finish or done",
            ExpectedInLog::Node => "after began comes A or B",
            ExpectedInLog::Reason => concat!(
                "after aborted comes own, killed, badkey, missing, duplicate, frozen, nopage ",
                "or gone"
            ),
            ExpectedInLog::Number => "a number is 1 to 10 digits",
            ExpectedInLog::AtMost(most) => return write!(f, "a number from 0 to {most} comes here"),
            ExpectedInLog::AfterOutcome(choice) => {
                return write!(
                    f,
                    "after an outcome comes ! KIND{} or the end of the line",
                    or_rows(*choice)
                );
            }
            ExpectedInLog::Message => {
                "after ! comes the kind of the message that was sent: wire, ready, dual, pull, page, finish or done"
            }
            ExpectedInLog::AfterMessage(choice) => {
                return write!(f, "{}", after_message(*choice));
            }
            ExpectedInLog::Row => "after rows comes KEY=VALUE for each row, and nothing else",
            ExpectedInLog::HigherKey => "the key of a row is above the key of the row before it",
            ExpectedInLog::FewerRows => "a page has at most 16 rows",
            ExpectedInLog::EndOfGap => "nothing comes after ..., which stands for missing steps",
            ExpectedInLog::FewerLines =>
                "there are at most 4096 choices, those of the scenario and of the gaps counted",
        };
        f.write_str(words)
    }
}

/// The word at which words are no line of a log, by how many words come before it, and what may stand in its place. Where
/// a word is missing, it is the one behind the last.
#[derive(Clone, Copy)]
pub struct Misread {
    pub word: usize,
    pub expected: ExpectedInLog,
}
