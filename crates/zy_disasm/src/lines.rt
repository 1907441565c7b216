//! The lines of the version and of the rule.
ghost use Rattle.zy_disasm.specs.Lines.{version_line, rule_line};

use std::alloc::AllocError;
use zy_io::{Line, LineBuffer, joined};
use zy_isa::{Rule, Version};
use zy_text::Canonical;

/// The first line.
#[derive(Clone, Copy)]
pub(crate) struct VersionLine(pub Version);

impl Line for VersionLine {
    ghost text = { λ l. version_line l.0 };

    fn append(&self, line: &mut LineBuffer) -> Result<(), AllocError> {
        line.push_piece(joined!(b"zephyr ", Canonical(self.0)))
    }
}

/// The line of the rule.
#[derive(Clone, Copy)]
pub(crate) struct RuleLine(pub Rule);

impl Line for RuleLine {
    ghost text = { λ l. rule_line l.0 };

    fn append(&self, line: &mut LineBuffer) -> Result<(), AllocError> {
        line.push_piece(joined!(b"rule ", Canonical(self.0)))
    }
}
