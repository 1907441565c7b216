//! Gaps: where steps may be missing from the logs.

/// How many steps may be missing from the log of each actor: before each of its lines, and behind the last. There is
/// one number more than the actor has lines.
#[derive(Drop)]
pub struct Gaps {
    /// From the client's log.
    pub c: Vec<u16>,
    /// From that of A.
    pub a: Vec<u16>,
    /// From that of B.
    pub b: Vec<u16>,
}
