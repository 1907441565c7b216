//! Whether a locked page may be pulled.

/// The rule for pages that are locked at the source of a migration.
#[derive(Clone, Copy, PartialEq, Eq)]
pub enum Rule {
    /// A locked page is not pulled: the request waits at the front of its link.
    Held,
    /// A locked page is pulled like any other; its locks stay where they are.
    Loose,
}
