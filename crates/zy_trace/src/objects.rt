//! What a step of a run shows as an object of JSON, which is a line of a log.
ghost use Rattle.std.specs.Prelude.{◌≡◌, drop, option_map};
ghost use Rattle.zy_json.specs.Plain.{plain_fields};
ghost use Rattle.zy_listing.specs.Texts.{kind_text, row_words};
ghost use Rattle.zy_trace.specs.Objects.{action_text, listed_text, moved_words, object_text, told_of};

use std::alloc::AllocError;
use zy_io::{Decimal, Line, LineBuffer, joined};
use zy_isa::Choice;
use zy_json::{PlainFields, PlainStep};
use zy_listing::{KindText, OutcomeText, RowWords};
use zy_table::Observation;

/// What is done of a choice, without who does it.
#[derive(Clone, Copy)]
struct ActionText(Choice);

impl Line for ActionText {
    ghost text = { λ a. action_text a.0 };

    fn append(&self, line: &mut LineBuffer) -> Result<(), AllocError> {
        match self.0 {
            Choice::Start => "start".append(line),
            Choice::Begin(t) => joined!("begin ", Decimal(t)).append(line),
            Choice::Kill(t) => joined!("kill ", Decimal(t)).append(line),
            Choice::Run(_, t) => joined!("run ", Decimal(t)).append(line),
            Choice::Take(_) => "take".append(line),
            Choice::Finish(_) => "finish".append(line),
            Choice::Push(_) => "push".append(line),
        }
    }
}

/// The kind of the message that a step sent.
fn sent_kind(step: &Observation) -> Option<KindText>
    ensures { option_map (λ k. kind_text k.0) result ≡ option_map kind_text step.now.entry.sent }
{
    step.entry.sent.map(KindText)
}

/// The rows of the page that a step moved.
fn moved_rows(step: &Observation) -> Option<RowWords<'_>>
    ensures { option_map (λ r. row_words r.0.now) result ≡ option_map moved_words step.entry.now.rows }
{
    match &step.rows {
        Some(rows) => Some(RowWords(rows.as_slice())),
        None => None,
    }
}

/// The fields of a step's object: all that a log can tell of the step.
#[derive(Clone, Copy)]
struct StepFields<'a>(&'a Observation);

impl Line for StepFields<'_> {
    ghost text = { λ s. plain_fields (told_of s.0.now) };

    fn append(&self, line: &mut LineBuffer) -> Result<(), AllocError> {
        let entry = self.0.entry;
        let object = PlainStep {
            actor: entry.choice.actor(),
            action: ActionText(entry.choice),
            came: Some(OutcomeText(entry.outcome)),
            value: self.0.value,
            sent: sent_kind(self.0),
            rows: moved_rows(self.0),
        };
        PlainFields(object).append(line)
    }
}

/// A step as an object, with all that a log can tell of it.
#[derive(Clone, Copy)]
pub(crate) struct StepObject<'a>(pub &'a Observation);

impl Line for StepObject<'_> {
    ghost text = { λ s. object_text s.0.now };

    fn append(&self, line: &mut LineBuffer) -> Result<(), AllocError> {
        joined!(StepFields(self.0), "}").append(line)
    }
}

/// Bytes, as they are.
#[derive(Clone, Copy)]
struct Bytes<'a>(&'a [u8]);

impl Line for Bytes<'_> {
    ghost text = { λ b. b.0.now };

    fn append(&self, line: &mut LineBuffer) -> Result<(), AllocError> {
        line.push_bytes(self.0)
    }
}

/// What is behind the first byte; nothing, where there is none.
fn behind_first(bytes: &[u8]) -> &[u8]
    ensures { result.now ≡ drop 1 bytes.now }
{
    if bytes.is_empty() {
        return bytes;
    }
    &bytes[1..]
}

/// A step as an object, with lines of the state in one field more.
#[derive(Clone, Copy)]
pub(crate) struct ListedObject<'a> {
    pub step: &'a Observation,
    /// The lines in quotation marks, each of them behind a comma.
    pub lines: &'a [u8],
}

impl Line for ListedObject<'_> {
    ghost text = { λ s. listed_text s.step.now s.lines.now };

    fn append(&self, line: &mut LineBuffer) -> Result<(), AllocError> {
        joined!(
            StepFields(self.step),
            ",\"changed\":[",
            Bytes(behind_first(self.lines)),
            "]}",
        )
        .append(line)
    }
}
