//! Registers and instructions.
ghost use Rattle.std.specs.Prelude.{◌≡◌, ◌<◌};
ghost use Rattle.zy_isa.specs.Registers.{number_of, register_count};
ghost use Rattle.zy_isa.specs.Operations.{has};
ghost use Rattle.zy_isa.specs.Programs as spec;

use crate::operation::Parts;
use crate::version::Version;

/// How many registers a transaction has.
pub const REGISTERS: usize = 8;

/// A register of a transaction. All are 0 when it begins.
#[derive(Clone, Copy)]
pub enum Reg {
    R0,
    R1,
    R2,
    R3,
    R4,
    R5,
    R6,
    R7,
}

/// An instruction of a transaction's program.
#[derive(Clone, Copy)]
pub enum Instr {
    /// The register gets this number.
    Set(Reg, u32),
    /// The first register gets the value at the key in the second, 0 where there is none.
    Read(Reg, Reg),
    /// The value at the key in the first register becomes that in the second.
    Write(Reg, Reg),
    /// A new row: its key in the first register, its value in the second.
    Insert(Reg, Reg),
    /// The first register becomes the sum of both, modulo 2^32.
    Add(Reg, Reg),
    /// The first register becomes the sum of the values at the keys from that in the first to that in the second, both
    /// included, modulo 2^32.
    Sum(Reg, Reg),
    /// Goes to the instruction of this number, from 0, where the registers are equal.
    Beq(Reg, Reg, u32),
    /// The transaction's rows are installed, and it ends.
    Commit,
    /// The transaction's rows are dropped, and it ends.
    Abort,
}

impl Reg {
    /// The register's number, for an index into all of them.
    pub fn index(self) -> usize
        ensures value { result ≡ number_of self }
        ensures bound { result < register_count }
    {
        match self {
            Reg::R0 => 0,
            Reg::R1 => 1,
            Reg::R2 => 2,
            Reg::R3 => 3,
            Reg::R4 => 4,
            Reg::R5 => 5,
            Reg::R6 => 6,
            Reg::R7 => 7,
        }
    }
}

impl Instr {
    /// Whether a program may end with it.
    pub fn ends(self) -> bool
        ensures { result ≡ spec.ends self }
    {
        match self {
            Instr::Commit => true,
            Instr::Abort => true,
            Instr::Set(_, _) => false,
            Instr::Read(_, _) => false,
            Instr::Write(_, _) => false,
            Instr::Insert(_, _) => false,
            Instr::Add(_, _) => false,
            Instr::Sum(_, _) => false,
            Instr::Beq(_, _, _) => false,
        }
    }
}

impl Instr {
    /// Whether its target, if it has one, is below `count`.
    pub fn targets_below(self, count: usize) -> bool
        ensures { result ≡ spec.targets_below count self }
    {
        match self.parts() {
            Parts::Jump(_, _, _, target) => u64::from(target) < count as u64,
            Parts::Number(_, _, _) => true,
            Parts::Pair(_, _, _) => true,
            Parts::Lone(_) => true,
        }
    }

    /// Whether a version has it.
    pub fn is_of(self, version: Version) -> bool
        ensures { result ≡ has version self }
    {
        self.parts().operation().is_of(version)
    }
}
