//! The operations: what each is in an image and in a text, which operands it takes, and the instruction that it makes
//! with them.
ghost use Rattle.std.specs.Prelude.{◌≡◌};
ghost use Rattle.std.specs.Str.{bytes_eq};
ghost use Rattle.zy_isa.specs.Operations.{operation_of, parts_of, instr_with};
ghost use Rattle.zy_isa.specs.Operations as spec;

use crate::instr::{Instr, Reg};
use crate::version::Version;

/// An operation on a register and a number.
#[derive(Clone, Copy)]
pub enum NumberOperation {
    Set,
}

/// An operation on two registers.
#[derive(Clone, Copy)]
pub enum PairOperation {
    Read,
    Write,
    Insert,
    Add,
    Sum,
}

/// An operation on two registers, with a target that it may go to.
#[derive(Clone, Copy)]
pub enum JumpOperation {
    Beq,
}

/// An operation on nothing.
#[derive(Clone, Copy)]
pub enum LoneOperation {
    Commit,
    Abort,
}

/// What an instruction does, by the operands that it takes.
#[derive(Clone, Copy)]
pub enum Operation {
    Number(NumberOperation),
    Pair(PairOperation),
    Jump(JumpOperation),
    Lone(LoneOperation),
}

/// An instruction, taken apart into its operation and its operands.
#[derive(Clone, Copy)]
pub enum Parts {
    Number(NumberOperation, Reg, u32),
    Pair(PairOperation, Reg, Reg),
    Jump(JumpOperation, Reg, Reg, u32),
    Lone(LoneOperation),
}

/// Whether a word is this text.
#[inline(always)]
pub fn is(word: &[u8], text: &[u8]) -> bool
    ensures { result ≡ bytes_eq word.now text.now }
{
    word == text
}

impl Operation {
    /// Its number in an image.
    #[inline(always)]
    pub fn opcode(self) -> u8
        ensures { result ≡ spec.opcode self }
    {
        match self {
            Operation::Number(NumberOperation::Set) => 0,
            Operation::Pair(PairOperation::Read) => 1,
            Operation::Pair(PairOperation::Write) => 2,
            Operation::Pair(PairOperation::Insert) => 3,
            Operation::Pair(PairOperation::Add) => 4,
            Operation::Jump(JumpOperation::Beq) => 5,
            Operation::Lone(LoneOperation::Commit) => 6,
            Operation::Lone(LoneOperation::Abort) => 7,
            Operation::Pair(PairOperation::Sum) => 8,
        }
    }

    /// The operation with this number in an image.
    #[inline(always)]
    pub fn coded(opcode: u8) -> Option<Operation>
        ensures { result ≡ spec.coded opcode }
    {
        match opcode {
            0 => Some(Operation::Number(NumberOperation::Set)),
            1 => Some(Operation::Pair(PairOperation::Read)),
            2 => Some(Operation::Pair(PairOperation::Write)),
            3 => Some(Operation::Pair(PairOperation::Insert)),
            4 => Some(Operation::Pair(PairOperation::Add)),
            5 => Some(Operation::Jump(JumpOperation::Beq)),
            6 => Some(Operation::Lone(LoneOperation::Commit)),
            7 => Some(Operation::Lone(LoneOperation::Abort)),
            8 => Some(Operation::Pair(PairOperation::Sum)),
            _ => None,
        }
    }

    /// The operation with this word in a text.
    #[inline(always)]
    pub fn named(word: &[u8]) -> Option<Operation>
        ensures { result ≡ spec.named word.now }
    {
        if is(word, b"set") {
            Some(Operation::Number(NumberOperation::Set))
        } else if is(word, b"read") {
            Some(Operation::Pair(PairOperation::Read))
        } else if is(word, b"write") {
            Some(Operation::Pair(PairOperation::Write))
        } else if is(word, b"insert") {
            Some(Operation::Pair(PairOperation::Insert))
        } else if is(word, b"add") {
            Some(Operation::Pair(PairOperation::Add))
        } else if is(word, b"beq") {
            Some(Operation::Jump(JumpOperation::Beq))
        } else if is(word, b"commit") {
            Some(Operation::Lone(LoneOperation::Commit))
        } else if is(word, b"abort") {
            Some(Operation::Lone(LoneOperation::Abort))
        } else if is(word, b"sum") {
            Some(Operation::Pair(PairOperation::Sum))
        } else {
            None
        }
    }
}

impl Operation {
    /// The version that it came with.
    #[inline(always)]
    fn since(self) -> Version
        ensures { result ≡ spec.since self }
    {
        match self {
            Operation::Pair(PairOperation::Sum) => Version::Two,
            _ => Version::One,
        }
    }

    /// Whether a version has it.
    #[inline(always)]
    pub fn is_of(self, version: Version) -> bool
        ensures { result ≡ spec.is_of version self }
    {
        version.has_since(self.since())
    }

    /// The operation with this word in a text of a version.
    #[inline(always)]
    pub fn named_in(version: Version, word: &[u8]) -> Option<Operation>
        ensures { result ≡ spec.named_in version word.now }
    {
        let operation = Operation::named(word)?;
        if operation.is_of(version) {
            Some(operation)
        } else {
            None
        }
    }
}

impl Instr {
    /// Its operation and its operands, which make it again.
    #[inline(always)]
    pub fn parts(self) -> Parts
        ensures value { result ≡ parts_of self }
        ensures again { instr_with result ≡ self }
    {
        match self {
            Instr::Set(a, number) => Parts::Number(NumberOperation::Set, a, number),
            Instr::Read(a, b) => Parts::Pair(PairOperation::Read, a, b),
            Instr::Write(a, b) => Parts::Pair(PairOperation::Write, a, b),
            Instr::Insert(a, b) => Parts::Pair(PairOperation::Insert, a, b),
            Instr::Add(a, b) => Parts::Pair(PairOperation::Add, a, b),
            Instr::Sum(a, b) => Parts::Pair(PairOperation::Sum, a, b),
            Instr::Beq(a, b, target) => Parts::Jump(JumpOperation::Beq, a, b, target),
            Instr::Commit => Parts::Lone(LoneOperation::Commit),
            Instr::Abort => Parts::Lone(LoneOperation::Abort),
        }
    }
}

impl Parts {
    /// The instruction that has these parts; no other has.
    #[inline(always)]
    pub fn instr(self) -> Instr
        ensures value { result ≡ instr_with self }
        ensures again { parts_of result ≡ self }
    {
        match self {
            Parts::Number(NumberOperation::Set, a, number) => Instr::Set(a, number),
            Parts::Pair(PairOperation::Read, a, b) => Instr::Read(a, b),
            Parts::Pair(PairOperation::Write, a, b) => Instr::Write(a, b),
            Parts::Pair(PairOperation::Insert, a, b) => Instr::Insert(a, b),
            Parts::Pair(PairOperation::Add, a, b) => Instr::Add(a, b),
            Parts::Pair(PairOperation::Sum, a, b) => Instr::Sum(a, b),
            Parts::Jump(JumpOperation::Beq, a, b, target) => Instr::Beq(a, b, target),
            Parts::Lone(LoneOperation::Commit) => Instr::Commit,
            Parts::Lone(LoneOperation::Abort) => Instr::Abort,
        }
    }

    /// The operation that has these operands.
    #[inline(always)]
    pub fn operation(self) -> Operation
        ensures { result ≡ operation_of self }
    {
        match self {
            Parts::Number(operation, _, _) => Operation::Number(operation),
            Parts::Pair(operation, _, _) => Operation::Pair(operation),
            Parts::Jump(operation, _, _, _) => Operation::Jump(operation),
            Parts::Lone(operation) => Operation::Lone(operation),
        }
    }
}
