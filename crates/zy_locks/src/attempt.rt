//! An attempt to lock a page.

/// What came of an attempt to lock a page.
#[derive(Clone, Copy, PartialEq, Eq)]
pub enum Attempt {
    /// The transaction has the lock.
    Granted,
    /// Another transaction's lock is in the way.
    Conflict,
    /// The lock needs a new place, and there is no memory for one.
    Memory,
}
