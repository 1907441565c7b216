//! What the lines so far gave.
ghost use Rattle.std.specs.Prelude.{◌≡◌, ◌≤◌, ◌+◌, length};
ghost use Rattle.zy_isa.specs.Limits.{max_txns, max_instrs, max_choices};
ghost use Rattle.zy_asm.specs.Stages.{open_programs};

use crate::faults::LineFault;
use crate::name_table::NameTable;
use crate::pending::Unresolved;
use crate::word_fault::WordFault;
use std::alloc::Global;
use zy_isa::{Choice, Program, Row, Rule, Version};

/// What may come next.
#[derive(Clone, Copy, PartialEq, Eq)]
pub enum Stage {
    /// The first line of the header.
    Zephyr,
    /// The second line of the header.
    Cap,
    /// The third line of the header.
    Pages,
    /// The last line of the header.
    Rule,
    /// Rows, and what follows them.
    Rows,
    /// An instruction of the open program, or what closes it.
    Program,
    /// Choices and the end.
    Choices,
    /// No statement.
    Done,
}

/// What the lines above a rejected one say.
#[derive(Clone, Copy)]
pub struct LinesAbove {
    pub stage: Stage,
    pub version: Version,
    pub cap: u8,
    /// How many programs begin.
    pub programs: usize,
}

impl LinesAbove {
    /// Nothing.
    pub fn none() -> LinesAbove {
        LinesAbove {
            stage: Stage::Zephyr,
            version: Version::One,
            cap: 2,
            programs: 0,
        }
    }
}

/// What the lines so far gave: until the header gives them, version and pages 1, cap 2 and rule `held`.
/// The names are those of the programs, also of the open one; labels and instructions are those of the open program.
#[derive(Drop)]
pub struct Reader {
    pub alloc: Global,
    pub stage: Stage,
    pub version: Version,
    pub cap: u8,
    pub pages: u16,
    pub rule: Rule,
    pub rows: Vec<Row>,
    pub names: NameTable,
    pub programs: Vec<Program>,
    pub labels: NameTable,
    pub instrs: Vec<Unresolved>,
    pub choices: Vec<Choice>,
    pub ghost some_cap: { 2 ≤ cap },
    pub ghost few_programs: { open_programs stage + length programs.items ≤ max_txns },
    pub ghost few_instrs: { length instrs.items ≤ max_instrs },
    pub ghost few_choices: { length choices.items ≤ max_choices },
}

impl Reader {
    /// What the lines so far say.
    pub fn lines_above(&self) -> LinesAbove {
        let open = match self.stage {
            Stage::Program => 1,
            _ => 0,
        };
        LinesAbove {
            stage: self.stage,
            version: self.version,
            cap: self.cap,
            programs: self.programs.len() + open,
        }
    }

    /// The fault of the line of this number, which is below what was read.
    pub fn rejected(&self, line: usize, fault: WordFault) -> LineFault
        ensures line { result.line ≡ line }
        ensures reason { result.reason ≡ fault.reason }
    {
        LineFault {
            line,
            at: fault.at,
            reason: fault.reason,
            above: self.lines_above(),
        }
    }
}
