//! Goals: what a search may ask of a state.

use zy_isa::Node;
use zy_model::{Kind, NodeMode};
use zy_patterns::ReasonPattern;

/// Where a page is.
#[derive(Clone, Copy)]
pub enum PagePlace {
    /// At this node.
    At(Node),
    /// In a message of the link from this node to the other.
    OnLinkFrom(Node),
    /// In a message of either link.
    Moving,
    /// Nowhere: there is no such page yet.
    Absent,
}

/// The transactions that a fact is about.
#[derive(Clone, Copy)]
pub enum Selector {
    /// At least one of them.
    Any,
    /// Each of them, also where there are none.
    All,
    /// The one with this number, from 0. In a scenario that does not have it no such fact holds.
    One(u8),
}

/// A property of a transaction.
#[derive(Clone, Copy)]
pub enum TxnProperty {
    /// It has not begun.
    New,
    /// It has begun, and has not ended.
    Active,
    /// It is committed.
    Committed,
    /// It is aborted, for this reason if there is one here.
    Aborted(Option<ReasonPattern>),
    /// It has begun, and at this node.
    At(Node),
    /// It has a private row at this key. A transaction that has ended has none.
    Wrote(u16),
}

/// What a message may be.
#[derive(Clone, Copy)]
pub enum MessagePattern {
    /// Any message of this kind.
    OfKind(Kind),
    /// The request for the page with this number.
    Pull(u16),
    /// The page with this number.
    Page(u16),
}

/// What may be in a link.
#[derive(Clone, Copy)]
pub enum LinkContent {
    /// No message.
    Empty,
    /// At least one message like this.
    Has(MessagePattern),
}

/// A number that is read in a state. Keys are 0 to 65535, transactions are named by their numbers, from 0.
#[derive(Clone, Copy)]
pub enum Term {
    /// This number.
    Number(u64),
    /// The committed value at this key, 0 where there is no row.
    Key(u16),
    /// The sum of the committed values from one key to another, both included; 0 where `first` is above `last`. It does
    /// not wrap.
    Sum { first: u16, last: u16 },
    /// The value of a register, r0 to r7, of a transaction; 0 where there is no such transaction.
    Register { txn: u8, register: u8 },
    /// The program counter of this transaction, 0 where there is no such transaction.
    Pc(u8),
    /// How many instructions this transaction has done, 0 where there is no such transaction.
    Done(u8),
    /// How many transactions are committed.
    Commits,
}

/// How one number compares with another.
#[derive(Clone, Copy)]
pub enum Comparison {
    /// `=`
    Equal,
    /// `!=`
    NotEqual,
    /// `<`
    Less,
    /// `<=`
    AtMost,
    /// `>`
    Greater,
    /// `>=`
    AtLeast,
}

/// A fact that the state decides by itself. Pages, keys and transactions are named by their numbers, from 0; none of
/// them needs to be there.
#[derive(Clone, Copy)]
pub enum StateFact {
    /// This node is in this mode.
    Mode(Node, NodeMode),
    /// This page is at this place.
    Page(u16, PagePlace),
    /// A transaction has a lock on this page, at either node.
    Locked(u16),
    /// This transaction has a lock on this page, at either node.
    LockedBy { txn: u8, page: u16 },
    /// These transactions have this property.
    Txns(Selector, TxnProperty),
    /// Both transactions are committed, one earlier than the other.
    CommittedBefore { earlier: u8, later: u8 },
    /// There is no committed row at this key.
    NoRow(u16),
    /// The link from this node has this content.
    Link(Node, LinkContent),
    /// No migration goes on, and no transaction is active: one node is in `normal`, the other in `empty`, and no message is
    /// on a link.
    Over,
    /// One number compares so with another.
    Compare(Term, Comparison, Term),
}

/// A fact, which holds in a state or does not.
#[derive(Clone, Copy)]
pub enum Fact {
    /// The pages have other rows than the committed transactions leave, run one by one in the order of their commits.
    Differs,
    /// A transaction is active, and nothing comes of any considered choice. The caller says which choices those are.
    Stuck,
    /// Some transactions wait in a cycle, each for a page that another one of them has locked.
    Deadlock,
    /// What the state decides by itself.
    OfState(StateFact),
}

/// What a state is asked for. A walk over a goal calls itself once for each level of the tree.
#[derive(Drop)]
pub enum Goal {
    /// This fact holds.
    Is(Fact),
    /// This goal is not met.
    Not(Box<Goal>),
    /// Both goals are met.
    And(Box<Goal>, Box<Goal>),
    /// At least one of both goals is met.
    Or(Box<Goal>, Box<Goal>),
}
