//! Whose logs tell a step, and by which lines.
ghost use Rattle.std.specs.Prelude.{IfSome};
ghost use Rattle.std.specs.Bool.{Decides};
ghost use Rattle.zy_logs.specs.Agrees.{Agrees};
ghost use Rattle.zy_order.specs.Orders.{Agree};

use zy_isa::{Actor, Node};
use zy_logs::LogLine;
use zy_table::Observation;

/// Whose logs tell a step.
#[derive(Clone, Copy)]
pub(crate) enum Tellers {
    /// That of one actor.
    One(Actor),
    /// The client's, and that of the node where the step took place.
    Both(Node),
}

/// The lines of the logs that tell a step.
#[derive(Clone, Copy)]
pub(crate) struct StepLines {
    /// Whose logs these are.
    pub by: Tellers,
    /// The line, or the client's of two.
    pub line: LogLine,
    /// The other line, if there are two.
    pub other: Option<LogLine>,
}

/// Whether a line agrees with what a step shows, if there is one.
fn agrees_if_any(line: &Option<LogLine>, shown: &Observation) -> bool
    ensures { Decides result (IfSome line.now (λ m. Agrees m shown.now)) }
{
    match line {
        Some(line) => line.agrees(shown),
        None => true,
    }
}

impl StepLines {
    /// Whether the lines agree with what a step shows.
    pub(crate) fn agree(&self, shown: &Observation) -> bool
        ensures { Decides result (Agree self.now.line self.now.other shown.now) }
    {
        self.line.agrees(shown) && agrees_if_any(&self.other, shown)
    }
}
