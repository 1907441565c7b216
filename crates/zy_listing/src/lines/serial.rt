//! What the serial run says.
ghost use Rattle.zy_listing.specs.Texts.{serial_text};

use std::alloc::AllocError;
use zy_io::{Line, LineBuffer};

/// Whether the serial run gives the same.
#[derive(Clone, Copy)]
pub struct SerialLine(pub bool);

impl Line for SerialLine {
    ghost text = { λ l. serial_text l.0 };

    fn append(&self, line: &mut LineBuffer) -> Result<(), AllocError> {
        if self.0 {
            "serial same".append(line)
        } else {
            "serial differs".append(line)
        }
    }
}
