//! The names by which goals speak of transactions.
ghost use Rattle.std.specs.Prelude.{◌≡◌};
ghost use Rattle.zy_queries.specs.Vocabulary as spec;

use zy_text::names::place_among;

/// The greatest number of a transaction: one below `zy_isa::MAX_TXNS`.
pub(crate) const MAX_TXN: u8 = 63;

/// What is known of the names of transactions.
#[derive(Clone, Copy)]
pub enum Names<'a> {
    /// Nothing so far: each name is taken for that of transaction 0.
    Unknown,
    /// The name of each transaction, at its number; empty where it has none.
    Known(&'a [&'a [u8]]),
}

impl Names<'_> {
    /// The number of the transaction that has this name, which is not empty.
    #[tactic(auto, unfolding(crate::specs::Vocabulary::named))]
    pub(crate) fn number_of(self, name: &[u8]) -> Option<u8>
        ensures { result ≡ spec.named self.entry name.now }
    {
        match self {
            Names::Unknown => Some(0),
            Names::Known(names) => match place_among(names, name) {
                Some(number) if number <= usize::from(MAX_TXN) => Some(number as u8),
                _ => None,
            },
        }
    }
}
