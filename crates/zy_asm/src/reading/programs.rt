//! The programs: their heads, instructions and labels.
ghost use Rattle.std.specs.Prelude.{◌≡◌, ◌≤◌, length};
ghost use Rattle.zy_isa.specs.Limits.{max_txns};
ghost use Rattle.zy_asm.specs.Reasons.{by_kind};
ghost use Rattle.zy_text.specs.Lines.{texts};
ghost use Rattle.zy_asm.specs.Reading.ProgramLines.{instr_line, instr_at, note_label, behind_label, label_line};
ghost use Rattle.zy_asm.specs.Reading.ProgramLines.{closed, note_name, head_line, open_line, txn_at};
ghost use Rattle.zy_asm.specs.Reading.ProgramLines as spec;
ghost use Rattle.zy_asm.specs.Reading.Progress.{Steps, progress_of};

use crate::faults::Reason;
use crate::instructions::instr_of;
use crate::pending::program_of;
use crate::reading::keyword::{Keyword, keyword_of};
use crate::shown::WordStart;
use crate::state::{Reader, Stage};
use crate::word_fault::{WordFault, miscounted};
use zy_isa::{MAX_INSTRS, MAX_TXNS, Operation};
use zy_text::names::{is_name, is_numeral};
use zy_text::numbers::number_of;

/// The number of a program, of which this number is above.
fn own_number(count: usize, word: &[u8]) -> Result<usize, Reason>
    ensures { by_kind result ≡ spec.own_number count word.now }
{
    let Some(number) = number_of(word) else {
        return Err(Reason::NotDigits(WordStart::of(word)));
    };
    if number != count as u64 {
        return Err(Reason::NotOwnNumber { number, own: count });
    }
    Ok(count)
}

impl Reader {
    /// Adds an instruction with this operation to the open program, by the words behind the operation, which is the word
    /// of this number.
    fn instr_line(
        &mut self,
        at: usize,
        operation: Operation,
        words: &[&[u8]],
    ) -> Result<(), WordFault>
        ensures { Steps result (progress_of self.new) (instr_line (progress_of self.old) operation (texts words.now)) }
    {
        let instr = instr_of(self.alloc, operation, words).map_err(|fault| fault.behind(at))?;
        if self.instrs.len() >= MAX_INSTRS {
            return Err(Reason::InstrCount.at(0));
        }
        self.instrs.push(instr).map_err(|_| Reason::NoMemory)?;
        Ok(())
    }

    /// Takes an instruction with this operation, where a program is open.
    pub fn program_line(&mut self, operation: Operation, words: &[&[u8]]) -> Result<(), WordFault>
        ensures { Steps result (progress_of self.new) (instr_at self.old.stage (progress_of self.old) operation
            (texts words.now)) }
    {
        if self.stage != Stage::Program {
            return Err(Reason::Misplaced.at(0));
        }
        self.instr_line(0, operation, words)
    }

    /// Notes a label of the open program, which names its next instruction.
    fn note_label(&mut self, name: &[u8]) -> Result<(), WordFault>
        ensures { Steps result (progress_of self.new) (note_label (progress_of self.old) name.now) }
    {
        if self.labels.find(name).is_some() {
            return Err(Reason::LabelTwice(WordStart::of(name)).at(0));
        }
        let at = self.instrs.len() as u8;
        if self.labels.add(self.alloc, name, at).is_err() {
            return Err(Reason::NoMemory.at(0));
        }
        Ok(())
    }

    /// Takes what is behind a label: an instruction, or nothing.
    fn behind_label(&mut self, words: &[&[u8]]) -> Result<(), WordFault>
        ensures { Steps result (progress_of self.new) (behind_label (progress_of self.old) (texts words.now)) }
    {
        let Some((first, rest)) = words.split_first() else {
            return Ok(());
        };
        match keyword_of(self.version, first) {
            Some(Keyword::Instr(operation)) => self.instr_line(1, operation, rest),
            _ => Err(Reason::NotAnInstr(WordStart::of(first)).at(1)),
        }
    }

    /// Takes a line that this label begins.
    pub fn label_line(&mut self, name: &[u8], words: &[&[u8]]) -> Result<(), WordFault>
        ensures { Steps result (progress_of self.new) (label_line (progress_of self.old) name.now (texts words.now)) }
    {
        if !is_name(name) {
            return Err(Reason::NotAName(WordStart::of(name)).at(0));
        }
        if self.stage != Stage::Program {
            return Err(Reason::Misplaced.at(0));
        }
        self.note_label(name)?;
        self.behind_label(words)
    }

    /// Closes the program that is open.
    #[inline(always)]
    pub fn close(&mut self) -> Result<(), WordFault>
        ensures { Steps result (progress_of self.new) (closed (progress_of self.old)) }
    {
        if self.stage == Stage::Program {
            let number = self.programs.len();
            let program = program_of(self.alloc, number, &self.labels, self.instrs.as_slice())?;
            self.stage = Stage::Choices;
            if self.programs.push(program).is_err() {
                return Err(Reason::NoMemory.at(0));
            }
            self.labels.clear();
            self.instrs.clear();
        }
        Ok(())
    }

    /// Notes the name of the next program.
    fn note_name(&mut self, name: &[u8]) -> Result<(), WordFault>
        requires { length self.old.programs.items ≤ max_txns }
        ensures { Steps result (progress_of self.new) (note_name (progress_of self.old) name.now) }
    {
        if self.names.find(name).is_some() {
            return Err(Reason::NameTwice(WordStart::of(name)).at(1));
        }
        let number = self.programs.len() as u8;
        if self.names.add(self.alloc, name, number).is_err() {
            return Err(Reason::NoMemory.at(0));
        }
        Ok(())
    }

    /// Takes the word that names the next program: its own number, or a new name.
    fn head_line(&mut self, word: &[u8]) -> Result<(), WordFault>
        ensures { Steps result (progress_of self.new) (head_line (progress_of self.old) word.now) }
    {
        if is_numeral(word) {
            own_number(self.programs.len(), word).map_err(|reason| reason.at(1))?;
            Ok(())
        } else if is_name(word) {
            self.note_name(word)
        } else {
            Err(Reason::NotAName(WordStart::of(word)).at(1))
        }
    }

    /// Opens a program, by the words behind `txn`.
    fn open_line(&mut self, words: &[&[u8]]) -> Result<(), WordFault>
        ensures { Steps result (progress_of self.new) (open_line (progress_of self.old) (texts words.now)) }
    {
        match words {
            [t] => {
                self.head_line(t)?;
                if self.programs.len() >= MAX_TXNS {
                    return Err(Reason::ProgramCount.at(0));
                }
                self.stage = Stage::Program;
                Ok(())
            }
            _ => Err(miscounted(words, 1)),
        }
    }

    /// Takes the beginning of a program, by the words behind `txn`, above the choices.
    pub fn txn_line(&mut self, words: &[&[u8]]) -> Result<(), WordFault>
        ensures { Steps result (progress_of self.new) (txn_at self.old.stage (progress_of self.old) (texts words.now)) }
    {
        if self.stage == Stage::Choices {
            return Err(Reason::Misplaced.at(0));
        }
        self.close()?;
        self.open_line(words)
    }
}
