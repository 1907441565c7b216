//! The programs of an image.
ghost use Rattle.std.specs.Prelude.{◌≡◌, ◌⊎◌, Ok, Err, MatchResult};
ghost use Rattle.zy_isa.specs.Programs.{program_fault};
ghost use Rattle.zy_isa.specs.WordFields.{decoded};
ghost use Rattle.zy_image.specs.declared.faults.LoadFault.TheVariants.{Memory};
ghost use Rattle.zy_image.specs.Reading.{Gives, if_known, checked_program, next_instr, next_program};
ghost use Rattle.zy_image.specs.Reading as spec;

use crate::faults::LoadFault;
use crate::fields::{byte, field};
use crate::lists::{Items, read_items};
use std::alloc::Global;
use zy_isa::{MAX_INSTRS, MAX_TXNS, Program, ProgramFault, Version, WORD_BYTES, Word};

/// The word that these bytes are, where the version has its instruction.
fn word_in(version: Version, bytes: [u8; WORD_BYTES]) -> Option<Word>
    ensures { result ≡ if_known version (decoded bytes) }
{
    let word = Word::read(bytes)?;
    if word.instr().is_of(version) {
        Some(word)
    } else {
        None
    }
}

/// How the instructions of a transaction are read.
#[derive(Clone, Copy)]
struct InstrItems {
    version: Version,
    txn: usize,
    size: usize,
}

impl Items for InstrItems {
    type Item = Word;

    ghost next = { λ s. next_instr s.version s.txn s.size };

    fn next<'a>(&self, before: &[Word], bytes: &'a [u8]) -> Result<(Word, &'a [u8]), LoadFault> {
        let (bytes, left) = field::<8>(self.size, bytes)?;
        match word_in(self.version, bytes) {
            Some(word) => Ok((word, left)),
            None => Err(LoadFault::Word(self.txn, before.len())),
        }
    }
}

/// How many instructions a transaction has.
fn instr_count(txn: usize, size: usize, bytes: &[u8]) -> Result<(usize, &[u8]), LoadFault>
    ensures { Gives result (spec.instr_count txn size bytes.entry.now) }
{
    let (count, left) = byte(size, bytes)?;
    if count == 0 {
        return Err(LoadFault::Program(txn, ProgramFault::Empty));
    }
    if usize::from(count) > MAX_INSTRS {
        return Err(LoadFault::Program(txn, ProgramFault::TooLong));
    }
    Ok((usize::from(count), left))
}

/// The words of a transaction's instructions, by their number.
fn instrs(
    alloc: Global,
    version: Version,
    txn: usize,
    size: usize,
    bytes: &[u8],
) -> Result<(Vec<Word>, &[u8]), LoadFault>
    ensures { let read = spec.instrs version txn size bytes.entry.now in
        MatchResult result (λ x. read ≡ Ok (x.0.items, x.1.now)) (λ e. (e ≡ Memory) ⊎ (read ≡ Err e)) }
{
    let (count, left) = instr_count(txn, size, bytes)?;
    let kind = InstrItems { version, txn, size };
    read_items(alloc, &kind, count, left)
}

/// The program of a transaction with these words.
fn verified(txn: usize, words: Vec<Word>) -> Result<Program, LoadFault>
    ensures { let program = checked_program txn (program_fault words.items) words.items in
        MatchResult result (λ p. program ≡ Ok p) (λ e. program ≡ Err e) }
{
    match Program::of_words(words) {
        Ok(program) => Ok(program),
        Err(fault) => Err(LoadFault::Program(txn, fault)),
    }
}

/// How programs are read.
#[derive(Clone, Copy)]
struct ProgramItems {
    alloc: Global,
    version: Version,
    size: usize,
}

impl Items for ProgramItems {
    type Item = Program;

    ghost next = { λ s. next_program s.version s.size };

    fn next<'a>(
        &self,
        before: &[Program],
        bytes: &'a [u8],
    ) -> Result<(Program, &'a [u8]), LoadFault> {
        let txn = before.len();
        let (words, left) = instrs(self.alloc, self.version, txn, self.size, bytes)?;
        let program = verified(txn, words)?;
        Ok((program, left))
    }
}

/// How many transactions there are.
fn program_count(size: usize, bytes: &[u8]) -> Result<(usize, &[u8]), LoadFault>
    ensures { Gives result (spec.program_count size bytes.entry.now) }
{
    let (count, left) = byte(size, bytes)?;
    if usize::from(count) > MAX_TXNS {
        return Err(LoadFault::TxnCount);
    }
    Ok((usize::from(count), left))
}

/// The programs, by their number.
pub fn programs(
    alloc: Global,
    version: Version,
    size: usize,
    bytes: &[u8],
) -> Result<(Vec<Program>, &[u8]), LoadFault>
    ensures { let read = spec.programs version size bytes.entry.now in
        MatchResult result (λ x. read ≡ Ok (x.0.items, x.1.now)) (λ e. (e ≡ Memory) ⊎ (read ≡ Err e)) }
{
    let (count, left) = program_count(size, bytes)?;
    let kind = ProgramItems {
        alloc,
        version,
        size,
    };
    read_items(alloc, &kind, count, left)
}
