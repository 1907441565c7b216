//! The transactions that lines of logs may name.
ghost use Rattle.std.specs.Prelude.{◌≡◌, ◌≤◌};
ghost use Rattle.zy_isa.specs.Limits.{max_txns};
ghost use Rattle.zy_logs.specs.Txns as spec;

use zy_text::names::place_among;

/// The transactions of a scenario: how many there are, and the name of each, at its number; empty where it has none.
#[derive(Clone, Copy)]
pub struct Txns<'a> {
    pub count: usize,
    pub names: &'a [&'a [u8]],
}

impl Txns<'_> {
    /// The number of the transaction that has this name, which is not empty.
    pub(crate) fn named(self, name: &[u8]) -> Option<u8>
        requires { self.count ≤ max_txns }
        ensures { result ≡ spec.named self.entry name.now }
    {
        match place_among(self.names, name) {
            Some(number) if number < self.count => Some(number as u8),
            _ => None,
        }
    }
}
