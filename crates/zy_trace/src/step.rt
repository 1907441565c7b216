//! One step of a run.
ghost use Rattle.std.specs.Prelude.{◌≡◌, ◌<◌, ◌++◌, true, IfOk, OnOk, length};
ghost use Rattle.std.specs.List.{flat_map};
ghost use Rattle.zy_isa.specs.Limits.{max_choices};
ghost use Rattle.zy_io.specs.Writing.{line_of};
ghost use Rattle.zy_isa.specs.Choices.{names_below};
ghost use Rattle.zy_table.specs.Observations.{observation_at};
ghost use Rattle.zy_listing.specs.Texts.{step_text};
ghost use Rattle.zy_trace.specs.declared.form.StepForm.TheVariants.{Lines, TracedObject};
ghost use Rattle.zy_trace.specs.Objects.{listed_text, object_text};
ghost use Rattle.zy_trace.specs.Subjects.{changed};
ghost use Rattle.zy_trace.specs.Trace.{form_lines};
ghost use Rattle.zy_trace.specs.Steps.{next_choice, next_lines, with_next};

use crate::form::StepForm;
use crate::objects::{ListedObject, StepObject};
use crate::since::{Marks, Since, Texts, append_since};
use std::alloc::{AllocError, Global};
use zy_io::{Line, LineBuffer};
use zy_isa::Choice;
use zy_laws::laws::safe_counts;
use zy_listing::StepLine;
use zy_machine::Machine;
use zy_table::{Entry, Observation};

/// What a step is put together in.
#[derive(Drop)]
pub(crate) struct Buffers {
    texts: Texts,
    quoted: LineBuffer,
}

impl Buffers {
    /// Empty ones. They take no memory.
    pub(crate) fn new(alloc: Global) -> Buffers {
        Buffers {
            texts: Texts::new(alloc),
            quoted: LineBuffer::new(alloc),
        }
    }
}

/// Appends the line of a step, with its end.
fn append_step(number: usize, entry: &Entry, line: &mut LineBuffer) -> Result<(), AllocError>
    ensures { OnOk result (line.new ≡ line.old ++ line_of (step_text number entry.now)) }
{
    StepLine { number, entry }.append(line)?;
    line.push(b'\n')
}

/// Appends the object of a step, with its end: each of the lines in it is in quotation marks, behind a comma.
fn append_traced(step: &Observation, lines: &[u8], line: &mut LineBuffer) -> Result<(), AllocError>
    ensures { OnOk result (line.new ≡ line.old ++ line_of (listed_text step.now lines.now)) }
{
    ListedObject { step, lines }.append(line)?;
    line.push(b'\n')
}

/// The next choice of a machine's scenario.
fn next_choice(machine: &Machine) -> Choice
    requires { length machine.now.entries < length machine.now.scenario.choices }
    ensures value { result ≡ next_choice machine.now }
    ensures named { names_below (length machine.now.scenario.programs) result ≡ true }
    ensures room { length machine.now.entries < max_choices }
{
    machine.scenario().choices()[machine.len()]
}

/// Two machines of a scenario have as many transactions.
fn same_txns(before: &Machine, now: &Machine)
    requires { before.now.scenario ≡ now.now.scenario }
    ensures { length before.now.state.txns ≡ length now.now.state.txns }
{
    // Proof: both states are replays of the scenario, which have a transaction for each of its programs.
    safe_counts();
    let _before = before.len();
    let _now = now.len();
}

/// Puts the line of the last step of a machine into the buffer, and below it the lines that the step changed: another machine of its
/// scenario is where it was before.
fn put_lines(
    before: &Machine,
    now: &Machine,
    step: &Observation,
    texts: &mut Texts,
    line: &mut LineBuffer,
) -> Result<(), AllocError>
    requires { before.now.scenario ≡ now.now.scenario }
    ensures { OnOk result (line.new ≡ flat_map line_of (form_lines Lines (length now.now.entries) step.now
        (changed before.now.state now.now.state))) }
{
    line.clear();
    // Proof: both machines have as many transactions.
    same_txns(before, now);
    append_step(now.len(), &step.entry, line)?;
    let since = Since {
        before,
        after: now,
        all: false,
        marks: Marks {
            before: "  ",
            behind: "\n",
        },
    };
    append_since(&since, texts, line)?;
    Ok(())
}

/// Puts the object of a step into the buffer.
fn put_object(step: &Observation, line: &mut LineBuffer) -> Result<(), AllocError>
    ensures { OnOk result (line.new ≡ line_of (object_text step.now)) }
{
    line.clear();
    StepObject(step).append(line)?;
    line.push(b'\n')
}

/// Puts the object of the last step of a machine into the buffer, with the lines that the step changed: another machine of its
/// scenario is where it was before.
fn put_traced(
    before: &Machine,
    now: &Machine,
    step: &Observation,
    buffers: &mut Buffers,
    line: &mut LineBuffer,
) -> Result<(), AllocError>
    requires { before.now.scenario ≡ now.now.scenario }
    ensures { OnOk result (line.new ≡ flat_map line_of (form_lines TracedObject (length now.now.entries) step.now
        (changed before.now.state now.now.state))) }
{
    line.clear();
    buffers.quoted.clear();
    // Proof: both machines have as many transactions.
    same_txns(before, now);
    let since = Since {
        before,
        after: now,
        all: false,
        marks: Marks {
            before: ",\"",
            behind: "\"",
        },
    };
    append_since(&since, &mut buffers.texts, &mut buffers.quoted)?;
    append_traced(step, buffers.quoted.as_bytes(), line)?;
    Ok(())
}

/// Puts the last step of a machine into the buffer in this form: another machine of its scenario is where it was before.
fn put_step(
    form: StepForm,
    before: &Machine,
    now: &Machine,
    step: &Observation,
    buffers: &mut Buffers,
    line: &mut LineBuffer,
) -> Result<(), AllocError>
    requires { before.now.scenario ≡ now.now.scenario }
    ensures { OnOk result (line.new ≡ flat_map line_of (form_lines form (length now.now.entries) step.now
        (changed before.now.state now.now.state))) }
{
    match form {
        StepForm::Lines => put_lines(before, now, step, &mut buffers.texts, line),
        StepForm::Object => put_object(step, line),
        StepForm::TracedObject => put_traced(before, now, step, buffers, line),
    }
}

/// Makes the next choice of a machine's scenario.
fn advance(machine: &mut Machine) -> Result<Observation, AllocError>
    requires { length machine.old.entries < length machine.old.scenario.choices }
    ensures shown { IfOk result (λ o. o ≡ observation_at machine.old.scenario machine.old.state (next_choice machine.old)) }
    ensures made { OnOk result (machine.new ≡ with_next machine.old) }
{
    let choice = next_choice(machine);
    machine.observe(choice)
}

/// Makes the next choice on the second of two machines that are alike, puts the lines of the step into the buffer, and
/// then makes the choice on the first.
pub(crate) fn trace_step(
    form: StepForm,
    before: &mut Machine,
    now: &mut Machine,
    buffers: &mut Buffers,
    line: &mut LineBuffer,
) -> Result<(), AllocError>
    requires alike { before.old ≡ now.old }
    requires more { length now.old.entries < length now.old.scenario.choices }
    ensures alike { OnOk result (before.new ≡ now.new) }
    ensures made { OnOk result (now.new ≡ with_next now.old) }
    ensures lines { OnOk result (line.new ≡ flat_map line_of (next_lines form now.old)) }
{
    let step = advance(now)?;
    put_step(form, before, now, &step, buffers, line)?;
    advance(before)?;
    Ok(())
}
