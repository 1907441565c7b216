//! How much of a state counts where two are compared.

/// How much of a state counts where two are compared.
#[derive(Clone, Copy)]
pub enum StatePart {
    /// All of it.
    Whole,
    /// All but what no later step reads: of transactions that are not active, registers, program counter, node and
    /// number of instructions done.
    Live,
}
