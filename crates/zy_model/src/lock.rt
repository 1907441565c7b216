//! One lock.

/// How a transaction holds a page.
#[derive(Clone, Copy, PartialEq, Eq)]
pub enum LockKind {
    /// To read: others may read too.
    Shared,
    /// To write or insert: nobody else holds the page.
    Exclusive,
}

/// A transaction's lock on a page.
#[derive(Clone, Copy, PartialEq, Eq)]
pub struct Lock {
    /// The number of the page.
    pub page: u16,
    /// The number of the transaction.
    pub txn: u8,
    /// Whether it is shared or exclusive.
    pub kind: LockKind,
}
