//! The instruction of a line.
ghost use Rattle.std.specs.Prelude.{◌≡◌, ◌∷◌, [], Ok, IfSome, ok_or};
ghost use Rattle.zy_asm.specs.Reasons.{by_kind, by_reason, kind_of, Gives};
ghost use Rattle.zy_text.specs.Lines.{texts};
ghost use Rattle.zy_asm.specs.Pending.{pending_of, whole};
ghost use Rattle.zy_asm.specs.Instructions as spec;

use crate::faults::{AsmKind, Reason};
use crate::numbers::{number_in, within};
use crate::pending::Unresolved;
use crate::shown::WordStart;
use crate::word_fault::{WordFault, miscounted};
use std::alloc::Global;
use zy_isa::{Instr, JumpOperation, NumberOperation, Operation, Parts, Reg};
use zy_text::names::is_name;

/// The register that a word names.
#[inline(always)]
fn register_of(word: &[u8]) -> Option<Reg>
    ensures { ok_or result AsmKind.Word ≡ spec.register_of word.now }
{
    match word {
        [b'r', b'0'] => Some(Reg::R0),
        [b'r', b'1'] => Some(Reg::R1),
        [b'r', b'2'] => Some(Reg::R2),
        [b'r', b'3'] => Some(Reg::R3),
        [b'r', b'4'] => Some(Reg::R4),
        [b'r', b'5'] => Some(Reg::R5),
        [b'r', b'6'] => Some(Reg::R6),
        [b'r', b'7'] => Some(Reg::R7),
        _ => None,
    }
}

#[inline(always)]
fn two(a: &[u8], b: &[u8]) -> Option<(Reg, Reg)>
    ensures { ok_or result AsmKind.Word ≡ spec.two a.now b.now }
{
    let first = register_of(a)?;
    let second = register_of(b)?;
    Some((first, second))
}

/// Why the two words behind an operation do not name two registers.
fn not_two(a: &[u8], b: &[u8]) -> WordFault
    ensures { kind_of result.reason ≡ AsmKind.Word }
{
    match register_of(a) {
        Some(_) => Reason::NotKnown(WordStart::of(b)).at(2),
        None => Reason::NotKnown(WordStart::of(a)).at(1),
    }
}

/// Two registers and no more.
fn pair_of(words: &[&[u8]]) -> Option<(Reg, Reg)>
    ensures { ok_or result AsmKind.Word ≡ spec.pair_of (texts words.now) }
{
    match words {
        [a, b] => two(a, b),
        _ => None,
    }
}

/// Why words are not two registers.
fn not_pair(words: &[&[u8]]) -> WordFault
    ensures { kind_of result.reason ≡ AsmKind.Word }
{
    match words {
        [a, b] => not_two(a, b),
        _ => miscounted(words, 2),
    }
}

/// An operation with two registers, and with the target `@N` or a label.
fn jump_to(
    alloc: Global,
    operation: JumpOperation,
    a: Reg,
    b: Reg,
    target: &[u8],
) -> Result<Unresolved, Reason>
    ensures { Gives pending_of result (spec.jump_to operation a b target.now) }
{
    match target {
        [] => Err(Reason::NotAName(WordStart::of(target))),
        [b'@', number @ ..] => {
            let number = number_in(number, 0, u64::from(u32::MAX))?;
            Ok(Unresolved::Whole(Parts::Jump(operation, a, b, number as u32).instr()))
        }
        _ => {
            if !is_name(target) {
                return Err(Reason::NotAName(WordStart::of(target)));
            }
            match target.to_vec(alloc) {
                Ok(label) => Ok(Unresolved::Jump(operation, a, b, label)),
                Err(_) => Err(Reason::NoMemory),
            }
        }
    }
}

/// An operation with the register and the number that two words name.
fn number_to(operation: NumberOperation, a: &[u8], number: &[u8]) -> Result<Instr, WordFault>
    ensures { by_kind (by_reason result) ≡ spec.number_to operation a.now number.now }
{
    let Some(register) = register_of(a) else {
        return Err(Reason::NotKnown(WordStart::of(a)).at(1));
    };
    let number = number_in(number, 0, u64::from(u32::MAX)).map_err(|reason| reason.at(2))? as u32;
    Ok(Parts::Number(operation, register, number).instr())
}

/// An operation with the register and the number that the words behind it name.
fn with_number(operation: NumberOperation, words: &[&[u8]]) -> Result<Instr, WordFault>
    ensures { by_kind (by_reason result) ≡ spec.with_number operation (texts words.now) }
{
    match words {
        [a, number] => number_to(operation, a, number),
        _ => Err(miscounted(words, 2)),
    }
}

/// An operation with the registers and the target that three words name.
fn jump_where(
    alloc: Global,
    operation: JumpOperation,
    a: &[u8],
    b: &[u8],
    target: &[u8],
) -> Result<Unresolved, WordFault>
    ensures { Gives pending_of (by_reason result) (spec.jump_where operation a.now b.now target.now) }
{
    match two(a, b) {
        Some((a, b)) => { jump_to(alloc, operation, a, b, target).map_err(|reason| reason.at(3)) }
        None => Err(not_two(a, b)),
    }
}

/// An operation with the registers and the target that the words behind it name.
fn with_target(
    alloc: Global,
    operation: JumpOperation,
    words: &[&[u8]],
) -> Result<Unresolved, WordFault>
    ensures { Gives pending_of (by_reason result) (spec.with_target operation (texts words.now)) }
{
    match words {
        [a, b, target] => jump_where(alloc, operation, a, b, target),
        _ => Err(miscounted(words, 3)),
    }
}

/// An instruction of one word, where none follows.
fn alone(words: &[&[u8]], instr: Instr) -> Result<Instr, WordFault>
    ensures { by_kind (by_reason result) ≡ spec.alone (texts words.now) instr }
{
    if words.is_empty() {
        Ok(instr)
    } else {
        Err(Reason::WordCount.at(1))
    }
}

/// The instruction of an operation with two words behind it, where it is one and names no label.
#[inline(always)]
pub fn whole_of(operation: Operation, a: &[u8], b: &[u8]) -> Option<Instr>
    ensures { IfSome result (λ i. spec.instr_of operation (a.now ∷ b.now ∷ []) ≡ Ok (whole i)) }
{
    match operation {
        Operation::Number(operation) => {
            let register = register_of(a)?;
            let number = within(b, 0, u64::from(u32::MAX))? as u32;
            Some(Parts::Number(operation, register, number).instr())
        }
        Operation::Pair(operation) => {
            let (a, b) = two(a, b)?;
            Some(Parts::Pair(operation, a, b).instr())
        }
        Operation::Jump(_) => None,
        Operation::Lone(_) => None,
    }
}

/// The instruction of an operation with the words behind it. A label takes memory. A fault counts words from the operation.
pub fn instr_of(
    alloc: Global,
    operation: Operation,
    words: &[&[u8]],
) -> Result<Unresolved, WordFault>
    ensures { Gives pending_of (by_reason result) (spec.instr_of operation (texts words.now)) }
{
    let instr = match operation {
        Operation::Number(operation) => with_number(operation, words)?,
        Operation::Pair(operation) => match pair_of(words) {
            Some((a, b)) => Parts::Pair(operation, a, b).instr(),
            None => return Err(not_pair(words)),
        },
        Operation::Jump(operation) => return with_target(alloc, operation, words),
        Operation::Lone(operation) => alone(words, Parts::Lone(operation).instr())?,
    };
    Ok(Unresolved::Whole(instr))
}
