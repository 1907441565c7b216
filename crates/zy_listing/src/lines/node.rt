//! What a node has besides its pages and locks: its wireframe, and the pages that it has asked for.
ghost use Rattle.zy_table.specs.State.{facing};
ghost use Rattle.zy_listing.specs.Nodes.{node_reply, number_text, numbers_text};
ghost use Rattle.zy_io.specs.Writing.{Appended};

use crate::lines::words::ModeText;
use std::alloc::AllocError;
use zy_io::{Decimal, Line, LineBuffer, joined};
use zy_isa::Node;
use zy_machine::Machine;
use zy_text::Canonical;

/// A low key, or the number of a page.
#[derive(Clone, Copy)]
struct Number(u16);

impl Line for Number {
    ghost text = { λ n. number_text n.0 };

    fn append(&self, line: &mut LineBuffer) -> Result<(), AllocError> {
        joined!(b' ', Decimal(self.0)).append(line)
    }
}

/// Low keys, or the numbers of pages.
#[derive(Clone, Copy)]
struct Numbers<'a>(&'a [u16]);

impl Line for Numbers<'_> {
    ghost text = { λ n. numbers_text n.0.now };

    fn append(&self, line: &mut LineBuffer) -> Result<(), AllocError> {
        for number in self.0 {
            Number(*number).append(line)?;
        }
        Ok(())
    }
}

/// Appends the line of a node, without its end. At an error a prefix of it may be there.
pub fn node_reply(machine: &Machine, n: Node, line: &mut LineBuffer) -> Result<(), AllocError>
    ensures { Appended result line.old line.new (node_reply n (facing n machine.now.state).me) }
{
    joined!(
        "node ",
        Canonical(n),
        b' ',
        ModeText(machine.mode(n)),
        " lows",
        Numbers(machine.lows(n)),
        " asked",
        Numbers(machine.asked(n)),
    )
    .append(line)
}
