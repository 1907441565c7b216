//! Values: rows, registers, instructions and their words, programs, choices and scenarios.
#![tactic(auto)]

pub mod choice;
pub mod instr;
pub mod node;
pub mod operation;
pub mod program;
pub mod row;
pub mod rule;
pub mod scenario;
pub mod version;
pub mod word;

pub use crate::choice::Choice;
pub use crate::instr::{Instr, REGISTERS, Reg};
pub use crate::node::{Actor, Node};
pub use crate::operation::{
    JumpOperation, LoneOperation, NumberOperation, Operation, PairOperation, Parts,
};
pub use crate::program::{MAX_INSTRS, Program, ProgramFault};
pub use crate::row::Row;
pub use crate::rule::Rule;
pub use crate::scenario::{
    MAX_CAP, MAX_CHOICES, MAX_PAGES, MAX_ROWS, MAX_TXNS, MIN_CAP, Scenario, ScenarioFault,
};
pub use crate::version::Version;
pub use crate::word::{WORD_BYTES, Word};
