//! The choices, and the end behind them.
ghost use Rattle.std.specs.Prelude.{◌≤◌};
ghost use Rattle.zy_isa.specs.Limits.{max_choices};
ghost use Rattle.zy_text.specs.Lines.{texts};
ghost use Rattle.zy_asm.specs.Reading.ChoiceLines.{repeat_choice, plain_line, txn_action_line};
ghost use Rattle.zy_asm.specs.Reading.ChoiceLines.{choice_line, end_line};
ghost use Rattle.zy_asm.specs.Reading.Progress.{Steps, progress_of};

use crate::choices::{
    Action, TxnAction, action_of, are_times, chosen, not_times, times_of, transaction,
};
use crate::faults::Reason;
use crate::shown::WordStart;
use crate::state::{Reader, Stage};
use crate::word_fault::WordFault;
use zy_isa::{Actor, Choice, MAX_CHOICES};

impl Reader {
    /// Adds a choice this many times.
    #[inline(always)]
    fn repeat_choice(&mut self, choice: Choice, times: u64) -> Result<(), WordFault>
        requires { times ≤ max_choices }
        ensures { Steps result (progress_of self.new) (repeat_choice (progress_of self.old) choice times) }
    {
        let all = self.choices.len() + times as usize;
        if all > MAX_CHOICES {
            return Err(Reason::ChoiceCount.at(0));
        }
        self.stage = Stage::Choices;
        // Most choices are made once.
        let added = if times == 1 {
            self.choices.push(choice).is_ok()
        } else {
            self.choices.resize(all, choice).is_ok()
        };
        if !added {
            return Err(Reason::NoMemory.at(0));
        }
        Ok(())
    }

    /// Takes a choice that names no transaction, with the words behind it.
    fn plain_line(&mut self, choice: Choice, times: &[&[u8]]) -> Result<(), WordFault>
        ensures { Steps result (progress_of self.new) (plain_line (progress_of self.old) choice (texts times.now)) }
    {
        if !are_times(times) {
            return Err(not_times(2, times));
        }
        let times = times_of(times).map_err(|reason| reason.at(3))?;
        self.repeat_choice(choice, times)
    }

    /// Takes a choice of this action, by the words behind it: a transaction, and how often.
    fn txn_action_line(&mut self, action: TxnAction, words: &[&[u8]]) -> Result<(), WordFault>
        ensures { Steps result (progress_of self.new)
            (txn_action_line (progress_of self.old) action (texts words.now)) }
    {
        match words {
            [t, times @ ..] => {
                if !are_times(times) {
                    return Err(not_times(3, times));
                }
                let count = self.programs.len();
                let t = transaction(count, &self.names, t).map_err(|reason| reason.at(2))?;
                let times = times_of(times).map_err(|reason| reason.at(4))?;
                self.repeat_choice(chosen(action, t), times)
            }
            [] => Err(Reason::WordCount.at(1)),
        }
    }

    /// Takes a choice of this actor, by the words behind the actor.
    pub fn choice_line(&mut self, actor: Actor, words: &[&[u8]]) -> Result<(), WordFault>
        ensures { Steps result (progress_of self.new) (choice_line (progress_of self.old) actor (texts words.now)) }
    {
        let Some((action, rest)) = words.split_first() else {
            return Err(Reason::WordCount.at(0));
        };
        match action_of(actor, action) {
            Some(Action::Txn(action)) => self.txn_action_line(action, rest),
            Some(Action::Plain(choice)) => self.plain_line(choice, rest),
            None => Err(Reason::NotKnown(WordStart::of(action)).at(1)),
        }
    }

    /// Takes the end of the text, behind which nothing is.
    pub fn end_line(&mut self, words: &[&[u8]]) -> Result<(), WordFault>
        ensures { Steps result (progress_of self.new) (end_line (progress_of self.old) (texts words.now)) }
    {
        if !words.is_empty() {
            return Err(Reason::WordCount.at(1));
        }
        self.stage = Stage::Done;
        Ok(())
    }
}
