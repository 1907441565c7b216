//! Steps whose texts are made as they are written.
ghost use Rattle.std.specs.Prelude.{option_map};
ghost use Rattle.zy_json.specs.Plain.{plain_field, plain_fields, plain_text};

use crate::step::{Behind, letter};
use std::alloc::AllocError;
use zy_io::{Decimal, Line, LineBuffer, joined};
use zy_isa::Actor;

/// A step as a line of JSON, whose texts are made as they are written, without memory of their own. They stand there as they are:
/// where no text has a control character, a `"` or a `\`, the line is the step's line of JSON, and else it may be no JSON.
#[derive(Clone, Copy)]
pub struct PlainStep<D, C, S, R> {
    /// Who made the step.
    pub actor: Actor,
    /// What the actor did.
    pub action: D,
    /// What came of it; none, if the line says nothing of it.
    pub came: Option<C>,
    /// The value that the step shows; none, if the line says nothing of it.
    pub value: Option<u32>,
    /// The kind of the message that was sent; none, if the line names none.
    pub sent: Option<S>,
    /// The rows of the page that the step moved; none, if the line says nothing of them.
    pub rows: Option<R>,
}

impl<D: Line + Copy, C: Line + Copy, S: Line + Copy, R: Line + Copy> Line
    for PlainStep<D, C, S, R> {
    ghost text = { λ s. plain_text (record {
      actor = s.actor;
      action = D.text s.action;
      came = option_map C.text s.came;
      value = s.value;
      sent = option_map S.text s.sent;
      rows = option_map R.text s.rows;
    }) };

    fn append(&self, line: &mut LineBuffer) -> Result<(), AllocError> {
        joined!(PlainFields(*self), "}").append(line)
    }
}

/// A name, and a text as it is in quotation marks; nothing, where there is no text.
#[derive(Clone, Copy)]
struct PlainField<T>(&'static str, Option<T>);

impl<T: Line + Copy> Line for PlainField<T> {
    ghost text = { λ f. plain_field f.0.now (option_map T.text f.1) };

    fn append(&self, line: &mut LineBuffer) -> Result<(), AllocError> {
        match self.1 {
            Some(text) => joined!(self.0, b'"', text, b'"').append(line),
            None => Ok(()),
        }
    }
}

/// The line of a `PlainStep` without the brace at its end: fields of other names may follow.
#[derive(Clone, Copy)]
pub struct PlainFields<D, C, S, R>(pub PlainStep<D, C, S, R>);

impl<D: Line + Copy, C: Line + Copy, S: Line + Copy, R: Line + Copy> Line
    for PlainFields<D, C, S, R> {
    ghost text = { λ f. plain_fields (record {
      actor = f.0.actor;
      action = D.text f.0.action;
      came = option_map C.text f.0.came;
      value = f.0.value;
      sent = option_map S.text f.0.sent;
      rows = option_map R.text f.0.rows;
    }) };

    fn append(&self, line: &mut LineBuffer) -> Result<(), AllocError> {
        let step = self.0;
        joined!(
            "{\"actor\":\"",
            letter(step.actor),
            "\",\"do\":\"",
            step.action,
            b'"',
            PlainField(",\"came\":", step.came),
            Behind(",\"value\":", step.value.map(Decimal)),
            PlainField(",\"sent\":", step.sent),
            PlainField(",\"rows\":", step.rows),
        )
        .append(line)
    }
}
