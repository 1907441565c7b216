//! The kinds of message between the nodes.

/// The kind of a message.
#[derive(Clone, Copy, PartialEq, Eq)]
pub enum Kind {
    /// This is the wireframe: the low keys of all pages.
    Wire,
    /// The wireframe was taken.
    Ready,
    /// Transactions may run at the destination.
    Dual,
    /// A page is asked for.
    Pull,
    /// A page is handed over.
    Page,
    /// The source runs no transaction any more.
    Finish,
    /// The destination has all pages.
    Done,
}
