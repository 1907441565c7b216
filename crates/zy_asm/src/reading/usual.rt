//! The lines that most texts have most of, which are tried first.
ghost use Rattle.std.specs.Prelude.{◌≡◌, ◌<◌, ◌∷◌, ◌++◌, [], length, map, IfSome, None, Ok, true};
ghost use Rattle.zy_isa.specs.Limits.{max_instrs, max_choices};
ghost use Rattle.zy_asm.specs.Pending.{pending_of, whole};
ghost use Rattle.zy_asm.specs.Reading.{line_step};
ghost use Rattle.zy_asm.specs.Reading.Progress.{progress_of};
ghost use Rattle.zy_text.specs.Words.{words_of};
ghost use Rattle.zy_text.specs.Lines.{first_line, first_words};
ghost use Rattle.zy_text.specs.Usual.{IsBelow};

use crate::instructions::whole_of;
use crate::state::{Reader, Stage};
use zy_isa::{Choice, Instr, MAX_CHOICES, MAX_INSTRS, Operation};
use zy_text::usual::usual_line;

impl Reader {
    /// Takes a text's first line, if it is one of those that most schedules have most of, and gives what is below it. Such a
    /// line is cut without a search for the ends of its words. Where there is no memory, nothing is taken.
    #[inline(always)]
    pub fn take_usual<'a>(&mut self, text: &'a [u8]) -> Option<&'a [u8]>
        ensures step { IfSome result (λ below. line_step (progress_of self.old) (first_words (words_of (first_line text.entry.now)))
            ≡ Ok (progress_of self.new)) }
        ensures below { IfSome result (λ below. IsBelow text.entry.now below.now) }
        ensures other { result ≡ None → progress_of self.new ≡ progress_of self.old }
    {
        if self.stage != Stage::Choices {
            return None;
        }
        let line = usual_line(self.programs.len(), text)?;
        if self.choices.len() >= MAX_CHOICES {
            return None;
        }
        if self.choices.push(line.choice).is_err() {
            return None;
        }
        Some(line.below)
    }

    /// The instruction of a line, where it has two words behind its operation and names no label, as most do, and there
    /// is place for it.
    #[inline(always)]
    pub fn usual_instr(&self, operation: &[u8], a: &[u8], b: &[u8]) -> Option<Instr>
        ensures { IfSome result (λ i. (line_step (progress_of self.now) (operation.now ∷ a.now ∷ b.now ∷ [])
            ≡ Ok (record (progress_of self.now) { instrs = map pending_of self.now.instrs.items ++ whole i ∷ [] }))
            × (length self.now.instrs.items < max_instrs)) }
    {
        if self.stage != Stage::Program {
            return None;
        }
        if self.instrs.len() >= MAX_INSTRS {
            return None;
        }
        let operation = Operation::named_in(self.version, operation)?;
        let instr = whole_of(operation, a, b)?;
        Some(instr)
    }
}
