//! The instructions of a program that is still open, and the program once its labels are known.
ghost use Rattle.std.specs.Prelude.{◌≡◌, map};
ghost use Rattle.zy_asm.specs.Reasons.{by_kind, Gives};
ghost use Rattle.zy_asm.specs.Pending.{pending_of};
ghost use Rattle.zy_asm.specs.Pending as spec;
ghost use Rattle.zy_isa.specs.Programs.{program_fault};

use crate::faults::Reason;
use crate::name_table::NameTable;
use crate::shown::WordStart;
use std::alloc::Global;
use zy_isa::{Instr, JumpOperation, Parts, Program, Reg, Word};

/// An instruction whose label, if it has one, is still to be found.
#[derive(Drop)]
pub enum Unresolved {
    /// An instruction that names no label.
    Whole(Instr),
    /// An operation with two registers and this label.
    Jump(JumpOperation, Reg, Reg, Vec<u8>),
}

/// The word of the instruction, where the labels of its program are these.
fn resolved(labels: &NameTable, instr: &Unresolved) -> Result<Word, Reason>
    ensures { by_kind result ≡ spec.resolved labels.now (pending_of instr.now) }
{
    match instr {
        Unresolved::Whole(instr) => Ok(Word::of(*instr)),
        Unresolved::Jump(operation, a, b, label) => {
            let Some(target) = labels.find(label.as_slice()) else {
                return Err(Reason::NoLabel(WordStart::of(label.as_slice())));
            };
            let jump = Parts::Jump(*operation, *a, *b, u32::from(target));
            Ok(Word::of(jump.instr()))
        }
    }
}

/// The words of the instructions, where the labels of their program are these.
fn all_resolved(
    alloc: Global,
    labels: &NameTable,
    instrs: &[Unresolved],
) -> Result<Vec<Word>, Reason>
    ensures { Gives (λ v. v.items) result (spec.all_resolved labels.now (map pending_of instrs.now)) }
{
    let mut all = Vec::new(alloc);
    for instr in instrs {
        let word = resolved(labels, instr)?;
        if all.push(word).is_err() {
            return Err(Reason::NoMemory);
        }
    }
    Ok(all)
}

/// The program of these words, which has this number.
fn checked_instrs(number: usize, words: Vec<Word>) -> Result<Program, Reason>
    ensures { by_kind result ≡ spec.checked_instrs (program_fault words.items) words.items }
{
    match Program::of_words(words) {
        Ok(program) => Ok(program),
        Err(fault) => Err(Reason::NoProgram { number, fault }),
    }
}

/// The program of this number, which has these labels and instructions.
pub fn program_of(
    alloc: Global,
    number: usize,
    labels: &NameTable,
    instrs: &[Unresolved],
) -> Result<Program, Reason>
    ensures { Gives (λ p. p) result (spec.program_of labels.now (map pending_of instrs.now)) }
{
    let words = all_resolved(alloc, labels, instrs)?;
    checked_instrs(number, words)
}
