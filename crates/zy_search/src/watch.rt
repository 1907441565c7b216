//! Who looks on while a search goes on.

/// Learns now and then how far a search is. The answer does not depend on it.
pub trait Watch {
    /// This number of states was reached, and the search goes on from one that this number of choices leads to.
    fn look(&mut self, states: usize, depth: usize);
}
