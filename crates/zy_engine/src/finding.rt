//! The engine that finds the positions of a scenario's run at which a goal is met.
ghost use Rattle.std.specs.Prelude.{◌<◌, map};
ghost use Rattle.std.specs.Fmt.{decimal};
ghost use Rattle.zy_engine.specs.Finding.{positions_text};
ghost use Rattle.zy_listing.specs.Run.{WroteOutput};

use crate::accepted::AcceptedInput;
use std::alloc::{AllocError, Global};
use zy_io::{AllLines, Decimal, Line, LineBuffer, Lines, Section, Sink, TextFault};
use zy_search::Sought;
use zy_search::along::along;

/// Each number as a line.
#[derive(Clone, Copy)]
struct Numbers<'a>(&'a [usize]);

impl Lines for Numbers<'_> {
    ghost texts = { λ n. map decimal n.0.now };

    fn len(&self) -> usize {
        self.0.len()
    }

    fn append(&self, place: usize, line: &mut LineBuffer) -> Result<(), AllocError> {
        Decimal(self.0[place]).append(line)
    }
}

/// Makes the choices of the scenario of an input, and writes the positions at which its state shows what is looked for, one a
/// line: how many choices are made there. It gives how many there are.
pub fn find_input<K: Sink>(
    alloc: Global,
    input: &AcceptedInput<'_>,
    sought: &Sought,
    sink: &mut K,
) -> Result<usize, TextFault>
    requires { (K.sent sink.old).failures < u64.MAX }
    ensures { WroteOutput (positions_text sought.now) input.now.scenario (K.sent sink.old) (K.sent sink.new) result }
{
    let scenario = input.scenario.copy(alloc)?;
    let positions = along(alloc, scenario, sought)?;
    let mut line = LineBuffer::new(alloc);
    AllLines(Numbers(&positions)).write(sink, &mut line)?;
    Ok(positions.len())
}
