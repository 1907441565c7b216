//! Programs that are verified.
ghost use Rattle.std.specs.Prelude.{◌≡◌, ◌<◌, None, IfOk, IfSome, List, length, slice_index_or};
ghost use Rattle.zy_isa.specs.Limits.{max_instrs};
ghost use Rattle.zy_isa.specs.declared.instr.Instr.{Instr as AnInstr};
ghost use Rattle.zy_isa.specs.Programs.{program_fault, IsKept, IsProgram, IsVerified, Values};
ghost use Rattle.zy_isa.specs.Programs as spec;

use crate::instr::Instr;
use crate::version::Version;
use crate::word::Word;
use std::alloc::{AllocError, Global};
use std::marker::Model;
use thiserror::Error;

/// The most instructions of a program.
pub const MAX_INSTRS: usize = 64;

/// Why a list of instructions is no program. The first that holds is reported.
#[derive(Clone, Copy, Debug, Error)]
pub enum ProgramFault {
    /// There is no instruction.
    #[error("a program needs an instruction")]
    Empty,
    /// There are over 64 instructions.
    #[error("a program has at most 64 instructions")]
    TooLong,
    /// The target of this instruction, from 0, is not below the number of instructions.
    #[error("the target of instruction {0} is the number of an instruction")]
    Target(u8),
    /// The last instruction does not end the transaction.
    #[error("a program ends with commit or abort")]
    NoEnd,
    /// Out of memory for the program.
    #[error("there is no memory for the program")]
    Memory,
}

/// A program of 1 to 64 instructions that ends with `commit` or `abort` and whose targets are in it: whoever holds one
/// need not test it again. It is kept as the words of its instructions.
#[derive(Drop)]
pub struct Program {
    words: Vec<Word>,
}

impl Model for Program {
    ghost use Rattle.std.specs.Prelude.{List};
    ghost use Rattle.zy_isa.specs.declared.instr.Instr.{Instr};

    ghost Value = { List Instr };

    ghost use Rattle.zy_isa.specs.Programs.{IsProgram};

    ghost view = { λ p. p.words.items };

    ghost invariant = { λ p. IsProgram p.words.items };
}

/// The first instruction whose target is not below the number of instructions.
fn stray_target(instrs: &[Instr]) -> Option<usize>
    ensures value { result ≡ spec.stray_target instrs.now }
    ensures bound { IfSome result (λ i. i < length instrs.now) }
{
    let count = instrs.len();
    instrs.iter().position(|instr| !instr.targets_below(count))
}

/// The first word whose target is not below the number of words.
fn stray_word(words: &[Word]) -> Option<usize>
    ensures value { result ≡ spec.stray_target words.now }
    ensures bound { IfSome result (λ i. i < length words.now) }
{
    let count = words.len();
    words
        .iter()
        .position(|word| !word.instr().targets_below(count))
}

/// Whether the last instruction ends the program.
fn ends_well(instrs: &[Instr]) -> bool
    ensures { result ≡ spec.ends_well instrs.now }
{
    match instrs.last() {
        Some(last) => last.ends(),
        None => false,
    }
}

/// Whether the last word ends the program.
fn word_ends_well(words: &[Word]) -> bool
    ensures { result ≡ spec.ends_well words.now }
{
    match words.last() {
        Some(last) => last.instr().ends(),
        None => false,
    }
}

/// Why instructions are no program, by their number and by what the tests of them say.
fn fault_of(count: usize, stray: Option<usize>, ends: bool) -> Option<ProgramFault>
    requires { IfSome stray (λ i. i < count) }
    ensures { (is : List AnInstr) → count ≡ length is → stray ≡ spec.stray_target is → ends ≡ spec.ends_well is
        → result ≡ program_fault is }
{
    if count == 0 {
        return Some(ProgramFault::Empty);
    }
    if count > MAX_INSTRS {
        return Some(ProgramFault::TooLong);
    }
    if let Some(i) = stray {
        return Some(ProgramFault::Target(i as u8));
    }
    if !ends {
        return Some(ProgramFault::NoEnd);
    }
    None
}

/// Asks each word its instruction, which shows that its value fits its field.
fn have_values(words: &[Word])
    ensures { Values words.now }
{
    for word in words {
        // Proof: the value of an instruction fits its field.
        let _instr = word.instr();
    }
}

/// The words of instructions.
fn words_of(alloc: Global, instrs: &[Instr]) -> Result<Vec<Word>, AllocError>
    ensures { IfOk result (λ words. words.items ≡ instrs.now) }
{
    let mut words = Vec::with_capacity(alloc, instrs.len())?;
    for instr in instrs {
        words.push(Word::of(*instr))?;
    }
    Ok(words)
}

/// The index of the first of these words whose instruction a version does not have.
fn unknown(version: Version, words: &[Word]) -> Option<usize>
    ensures value { result ≡ spec.unknown version words.now }
    ensures bound { IfSome result (λ i. i < length words.now) }
{
    for (i, word) in words.iter().enumerate() {
        if !word.instr().is_of(version) {
            return Some(i);
        }
    }
    None
}

impl Program {
    /// Tests a list of instructions, and keeps their words.
    pub fn verify(alloc: Global, instrs: &[Instr]) -> Result<Program, ProgramFault>
        ensures { IsVerified result instrs.now }
    {
        let fault = fault_of(instrs.len(), stray_target(instrs), ends_well(instrs));
        if let Some(fault) = fault {
            return Err(fault);
        }
        match words_of(alloc, instrs) {
            Ok(words) => Ok(Program::kept(words)),
            Err(_) => Err(ProgramFault::Memory),
        }
    }

    /// Tests the words of instructions, and keeps them. Those that are no program are dropped.
    pub fn of_words(words: Vec<Word>) -> Result<Program, ProgramFault>
        ensures { IsKept result words.items }
    {
        let tested = words.as_slice();
        match fault_of(tested.len(), stray_word(tested), word_ends_well(tested)) {
            Some(fault) => Err(fault),
            None => Ok(Program::kept(words)),
        }
    }

    /// The program of words that were tested.
    fn kept(words: Vec<Word>) -> Program
        requires { program_fault words.items ≡ None }
        ensures { result ≡ words.items }
    {
        // Proof: the values of all instructions fit.
        have_values(words.as_slice());
        Program { words }
    }

    /// The number of instructions, 1 to 64.
    pub fn len(&self) -> usize
        ensures value { result ≡ length self.now }
        ensures verified { IsProgram self.now }
    {
        self.words.len()
    }

    /// The instruction at an index.
    #[inline(always)]
    pub fn instr(&self, i: usize) -> Instr
        requires { i < length self.now }
        ensures value { result ≡ slice_index_or self.now i result }
        ensures verified { IsProgram self.now }
    {
        self.words[i].instr()
    }

    /// The words of the instructions in order.
    pub fn words(&self) -> &[Word]
        ensures value { result.now ≡ self.entry.now }
        ensures verified { IsProgram self.entry.now }
    {
        self.words.as_slice()
    }

    /// The index of the first instruction that a version does not have.
    pub fn unknown(&self, version: Version) -> Option<usize>
        ensures value { result ≡ spec.unknown version self.now }
        ensures few { IfSome result (λ i. i < max_instrs) }
    {
        unknown(version, self.words.as_slice())
    }

    /// A copy of the program.
    pub fn copy(&self, alloc: Global) -> Result<Program, AllocError>
        ensures { IfOk result (λ p. p ≡ self.now) }
    {
        let mut words = Vec::with_capacity(alloc, self.words.len())?;
        for word in self.words.as_slice() {
            words.push(word.copy())?;
        }
        Ok(Program { words })
    }
}
