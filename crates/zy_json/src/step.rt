//! What a line tells of a step.
ghost use Rattle.std.specs.Prelude.{◌≡◌, option_map};
ghost use Rattle.zy_json.specs.Steps.{actor_text, behind, log_text, step_of};

use std::alloc::AllocError;
use zy_io::{Decimal, Line, LineBuffer, joined};
use zy_isa::Actor;

/// What a line of a log tells of a step, part by part, in the words of the text format.
#[derive(Clone, Copy)]
pub struct JsonStep<'a> {
    /// Who made the step.
    pub actor: Actor,
    /// What the actor did, as `run 0`.
    pub action: &'a str,
    /// What came of it, as `committed 1`; none, if the line says nothing of it.
    pub came: Option<&'a str>,
    /// The value that the step shows, as 7; none, if the line says nothing of it.
    pub value: Option<u32>,
    /// The kind of the message that was sent, as `pull`; none, if the line names none.
    pub sent: Option<&'a str>,
    /// The rows of the page that the step moved, as `10=1 20=2`; none, if the line says nothing of them.
    pub rows: Option<&'a str>,
}

/// A step as the line of a log that tells it, as `A run 0 -> did 7`.
#[derive(Clone, Copy)]
pub struct LogText<'a>(pub JsonStep<'a>);

/// The letter of an actor.
pub(crate) fn letter(actor: Actor) -> &'static str
    ensures { result.now ≡ actor_text actor }
{
    match actor {
        Actor::C => "C",
        Actor::A => "A",
        Actor::B => "B",
    }
}

/// A text behind others; nothing, where there is no text.
#[derive(Clone, Copy)]
pub(crate) struct Behind<'a, T>(pub(crate) &'a str, pub(crate) Option<T>);

impl<T: Line + Copy> Line for Behind<'_, T> {
    ghost use Rattle.std.specs.Prelude.{option_map};

    ghost text = { λ b. behind b.0.now (option_map T.text b.1) };

    fn append(&self, line: &mut LineBuffer) -> Result<(), AllocError> {
        match self.1 {
            Some(text) => joined!(self.0, text).append(line),
            None => Ok(()),
        }
    }
}

impl Line for LogText<'_> {
    ghost text = { λ t. log_text (step_of t.0) };

    fn append(&self, line: &mut LineBuffer) -> Result<(), AllocError> {
        let step = self.0;
        joined!(
            letter(step.actor),
            b' ',
            step.action,
            Behind(" -> ", step.came),
            Behind(" ", step.value.map(Decimal)),
            Behind(" ! ", step.sent),
            Behind(" rows ", step.rows),
        )
        .append(line)
    }
}
