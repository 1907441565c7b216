//! The words of instructions, as an image has them.
ghost use Rattle.std.specs.Prelude.{◌≡◌, IfSome, Some};
ghost use Rattle.zy_isa.specs.Registers.{number_of};
ghost use Rattle.zy_isa.specs.InstrWords.{IsWordOf, word, word_of};
ghost use Rattle.zy_isa.specs.Programs.{HasValue};
ghost use Rattle.zy_isa.specs.WordFields.{register_at, registers_at, decoded};
ghost use Rattle.zy_isa.specs.WordFields as spec;
ghost use Rattle.zy_isa.specs.Operations.{opcode, coded};
ghost use Rattle.zy_isa.specs.declared.instr.Instr.{Instr};

use crate::instr::{Instr, Reg};
use crate::operation::{LoneOperation, Operation, Parts};
use std::marker::Model;

/// How many bytes a word has.
pub const WORD_BYTES: usize = 8;

/// The word of an instruction. Whoever holds one need not test its bytes again.
#[derive(Drop)]
pub struct Word {
    bytes: [u8; WORD_BYTES],
}

impl Model for Word {
    ghost use Rattle.zy_isa.specs.declared.instr.Instr.{Instr};

    ghost Value = { Instr };

    ghost use Rattle.zy_isa.specs.InstrWords.{IsWordOf};
    ghost use Rattle.zy_isa.specs.WordFields.{instr_in};

    ghost view = { λ w. instr_in w.bytes };

    ghost invariant = { λ w. IsWordOf w.bytes (instr_in w.bytes) };
}

/// The byte of a register.
fn byte_of(register: Reg) -> u8
    ensures { result ≡ number_of register }
{
    register.index() as u8
}

/// The word of an operation with these fields behind it.
fn with_fields(operation: Operation, a: u8, b: u8, number: u32) -> [u8; WORD_BYTES]
    ensures { result ≡ word (opcode operation) a b number }
{
    let [n0, n1, n2, n3] = number.to_be_bytes();
    [operation.opcode(), a, b, 0, n0, n1, n2, n3]
}

/// The word of an instruction; no other instruction has it.
pub fn encode(instr: Instr) -> [u8; WORD_BYTES]
    ensures value { result ≡ word_of instr }
    ensures fits { HasValue instr }
{
    match instr.parts() {
        Parts::Number(operation, a, number) => {
            with_fields(Operation::Number(operation), byte_of(a), 0, number)
        }
        Parts::Pair(operation, a, b) => with_fields(
            Operation::Pair(operation),
            byte_of(a),
            byte_of(b),
            0,
        ),
        Parts::Jump(operation, a, b, target) => {
            with_fields(Operation::Jump(operation), byte_of(a), byte_of(b), target)
        }
        Parts::Lone(operation) => with_fields(Operation::Lone(operation), 0, 0, 0),
    }
}

/// The register that a byte names.
#[inline(always)]
fn register(byte: u8) -> Option<Reg>
    ensures { result ≡ register_at byte }
{
    match byte {
        0 => Some(Reg::R0),
        1 => Some(Reg::R1),
        2 => Some(Reg::R2),
        3 => Some(Reg::R3),
        4 => Some(Reg::R4),
        5 => Some(Reg::R5),
        6 => Some(Reg::R6),
        7 => Some(Reg::R7),
        _ => None,
    }
}

/// The two registers that two bytes name.
fn registers(a: u8, b: u8) -> Option<(Reg, Reg)>
    ensures { result ≡ registers_at a b }
{
    Some((register(a)?, register(b)?))
}

/// The operation with the operands in these fields, if they hold such operands and no more.
fn parts_at(operation: Operation, a: u8, b: u8, number: u32) -> Option<Parts>
    ensures { result ≡ spec.parts_at operation a b number }
{
    match (operation, a, b, number) {
        (Operation::Number(operation), a, 0, number) => {
            register(a).map(|a| Parts::Number(operation, a, number))
        }
        (Operation::Pair(operation), a, b, 0) => {
            registers(a, b).map(|(a, b)| Parts::Pair(operation, a, b))
        }
        (Operation::Jump(operation), a, b, target) => {
            registers(a, b).map(|(a, b)| Parts::Jump(operation, a, b, target))
        }
        (Operation::Lone(operation), 0, 0, 0) => Some(Parts::Lone(operation)),
        _ => None,
    }
}

/// The instruction of these fields, if there is one.
fn instr_at(opcode: u8, a: u8, b: u8, number: u32) -> Option<Instr>
    ensures { result ≡ spec.instr_at (coded opcode) a b number }
{
    let operation = Operation::coded(opcode)?;
    let parts = parts_at(operation, a, b, number)?;
    Some(parts.instr())
}

/// The instruction whose word these bytes are: at most one has it, and most bytes are no word.
pub fn decode(word: [u8; WORD_BYTES]) -> Option<Instr>
    ensures value { result ≡ decoded word }
    ensures found { IfSome result (IsWordOf word) }
    ensures only { (i : Instr) → IsWordOf word i → result ≡ Some i }
{
    let [opcode, a, b, 0, n0, n1, n2, n3] = word else {
        return None;
    };
    instr_at(opcode, a, b, u32::from_be_bytes([n0, n1, n2, n3]))
}

/// The register of a byte that names one: its three lowest bits.
#[inline(always)]
fn register_in(byte: u8) -> Reg
    ensures { result ≡ spec.register_in byte }
{
    register(byte % 8).unwrap_or(Reg::R7)
}

/// The operation of a number that is one's.
#[inline(always)]
fn operation_in(opcode: u8) -> Operation
    ensures { result ≡ spec.operation_in opcode }
{
    Operation::coded(opcode).unwrap_or(Operation::Lone(LoneOperation::Abort))
}

/// The operation with the operands in the fields of its word.
#[inline(always)]
fn parts_in(operation: Operation, a: u8, b: u8, number: u32) -> Parts
    ensures { result ≡ spec.parts_in operation a b number }
{
    match operation {
        Operation::Number(operation) => Parts::Number(operation, register_in(a), number),
        Operation::Pair(operation) => Parts::Pair(operation, register_in(a), register_in(b)),
        Operation::Jump(operation) => {
            Parts::Jump(operation, register_in(a), register_in(b), number)
        }
        Operation::Lone(operation) => Parts::Lone(operation),
    }
}

impl Word {
    /// The word of an instruction.
    pub fn of(instr: Instr) -> Word
        ensures { result ≡ instr }
    {
        Word {
            bytes: encode(instr),
        }
    }

    /// The word that these bytes are: most bytes are none.
    pub fn read(bytes: [u8; WORD_BYTES]) -> Option<Word>
        ensures { result ≡ decoded bytes }
    {
        decode(bytes)?;
        Some(Word { bytes })
    }

    /// A copy of the word.
    pub fn copy(&self) -> Word
        ensures { result ≡ self.now }
    {
        Word { bytes: self.bytes }
    }

    /// Its bytes.
    pub fn bytes(&self) -> [u8; WORD_BYTES]
        ensures { result ≡ word_of self.now }
    {
        self.bytes
    }

    /// The instruction whose word it is. Its fields are known to be those of an instruction, so none is tested.
    #[inline(always)]
    pub fn instr(&self) -> Instr
        ensures value { result ≡ self.now }
        ensures fits { HasValue self.now }
    {
        let [opcode, a, b, _, n0, n1, n2, n3] = self.bytes;
        let number = u32::from_be_bytes([n0, n1, n2, n3]);
        parts_in(operation_in(opcode), a, b, number).instr()
    }
}
