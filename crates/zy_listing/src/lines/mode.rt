//! The mode of a node.
ghost use Rattle.zy_listing.specs.Texts.{mode_text};

use crate::lines::words::ModeText;
use std::alloc::AllocError;
use zy_io::{Line, LineBuffer, joined};
use zy_isa::Node;
use zy_model::NodeMode;
use zy_text::Canonical;

/// A node and its mode.
#[derive(Clone, Copy)]
pub struct ModeLine {
    pub node: Node,
    pub mode: NodeMode,
}

impl Line for ModeLine {
    ghost text = { λ l. mode_text l.node l.mode };

    fn append(&self, line: &mut LineBuffer) -> Result<(), AllocError> {
        joined!("mode ", Canonical(self.node), b' ', ModeText(self.mode)).append(line)
    }
}
