//! How an order is to end.
ghost use Rattle.std.specs.Bool.{Decides};
ghost use Rattle.zy_order.specs.Answers.{HasEnd};

use zy_goals::StateFact;
use zy_goals::facts::holds_in;
use zy_machine::Machine;

/// What is asked of the last state of an order.
#[derive(Clone, Copy)]
pub enum End {
    /// Nothing.
    Any,
    /// No migration goes on, no message is on a link, and no transaction is active.
    Settled,
}

/// Whether a machine's state is such a last state.
pub(crate) fn has_end(end: End, machine: &Machine) -> bool
    ensures { Decides result (HasEnd end machine.now.state) }
{
    match end {
        End::Any => true,
        End::Settled => holds_in(StateFact::Over, machine),
    }
}
