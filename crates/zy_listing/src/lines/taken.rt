//! The choices that were made.
ghost use Rattle.std.specs.Prelude.{map};
ghost use Rattle.zy_text.specs.Canon.{choice_text};
ghost use Rattle.zy_machine.specs.Histories.{choices_of};

use zy_io::PieceLines;
use zy_isa::Choice;
use zy_table::Entry;
use zy_text::Canonical;

/// The choices of these steps, in order.
#[derive(Clone, Copy)]
pub(crate) struct Taken<'a>(pub &'a [Entry]);

impl PieceLines for Taken<'_> {
    type Text = Canonical<Choice>;

    ghost texts = { λ s. map choice_text (choices_of s.0.now) };

    fn len(&self) -> usize {
        self.0.len()
    }

    #[inline(always)]
    fn line(&self, place: usize) -> Canonical<Choice> {
        Canonical(self.0[place].choice)
    }
}
