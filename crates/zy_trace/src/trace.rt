//! The whole trace, and its steps alone as objects of JSON.
ghost use Rattle.std.specs.Prelude.{◌≡◌, ◌<◌, ◌++◌, [], OnOk, length, map};
ghost use Rattle.std.specs.List.{flat_map};
ghost use Rattle.zy_io.specs.Writing.{line_of, Wrote};
ghost use Rattle.zy_listing.specs.Run.{WroteRun};
ghost use Rattle.zy_table.specs.Play.{opening};
ghost use Rattle.zy_trace.specs.Subjects.{inset, state_lines};
ghost use Rattle.zy_text.specs.Canon.{canon};
ghost use Rattle.zy_trace.specs.declared.form.StepForm.TheVariants.{Lines};
ghost use Rattle.zy_trace.specs.Trace.{opening_lines, steps_text};
ghost use Rattle.zy_trace.specs.Trace as spec;
ghost use Rattle.zy_trace.specs.Steps.{end_text, next_lines, ran, with_next};

use crate::form::StepForm;
use crate::since::{Marks, Since, Texts, append_since};
use crate::step::{Buffers, trace_step};
use std::alloc::{AllocError, Global};
use zy_disasm::ScenarioHead;
use zy_io::{AllPieces, LineBuffer, One, Section, Sink, TextFault, sections};
use zy_isa::Scenario;
use zy_listing::{FinalState, SerialLine};
use zy_machine::Machine;
use zy_serial::serial::same;
use zy_text::Each;

/// Appends the lines of a machine's state.
fn append_state(alloc: Global, machine: &Machine, line: &mut LineBuffer) -> Result<(), AllocError>
    ensures { OnOk result (line.new ≡ line.old ++ flat_map line_of (map inset (state_lines machine.now.state))) }
{
    let since = Since {
        before: machine,
        after: machine,
        all: true,
        marks: Marks {
            before: "  ",
            behind: "\n",
        },
    };
    let mut texts = Texts::new(alloc);
    let appended = append_since(&since, &mut texts, line);
    drop(texts);
    appended
}

/// The lines of a machine's state.
#[derive(Clone, Copy)]
struct StateLines<'a> {
    alloc: Global,
    machine: &'a Machine,
}

impl Section for StateLines<'_> {
    ghost texts = { λ s. map inset (state_lines s.machine.now.state) };

    fn write<K: Sink>(&self, sink: &mut K, line: &mut LineBuffer) -> Result<(), TextFault> {
        line.clear();
        append_state(self.alloc, self.machine, line)?;
        sink.put_all(line.as_bytes())?;
        Ok(())
    }
}

/// Writes the scenario of a machine that has made no choice, and the lines of its state.
fn write_opening<K: Sink>(
    alloc: Global,
    machine: &Machine,
    sink: &mut K,
    line: &mut LineBuffer,
) -> Result<(), TextFault>
    requires failures { (K.sent sink.old).failures < u64.MAX }
    requires opened { machine.now ≡ ran machine.now.scenario [] }
    ensures { Wrote (K.sent sink.old) (K.sent sink.new) result
        (canon machine.now.scenario ++ flat_map line_of (opening_lines (opening machine.now.scenario))) }
{
    let scenario = machine.scenario();
    sections!(
        ScenarioHead(scenario),
        AllPieces(Each(scenario.choices())),
        One("end"),
        One("trace"),
        One("0 opening"),
        StateLines { alloc, machine },
    )
    .write(sink, line)
}

/// Makes the next choice of a scenario on two machines that are alike, and writes the lines of the step.
fn write_step<K: Sink>(
    form: StepForm,
    before: &mut Machine,
    now: &mut Machine,
    buffers: &mut Buffers,
    sink: &mut K,
    line: &mut LineBuffer,
) -> Result<(), TextFault>
    requires failures { (K.sent sink.old).failures < u64.MAX }
    requires alike { before.old ≡ now.old }
    requires more { length now.old.entries < length now.old.scenario.choices }
    ensures wrote { Wrote (K.sent sink.old) (K.sent sink.new) result
        (flat_map line_of (next_lines form now.old)) }
    ensures alike { OnOk result (before.new ≡ now.new) }
    ensures made { OnOk result (now.new ≡ with_next now.old) }
{
    trace_step(form, before, now, buffers, line)?;
    sink.put_all(line.as_bytes())?;
    Ok(())
}

/// Makes the choices of a scenario on two machines that have made none, and writes the lines of each step.
fn write_steps<K: Sink>(
    form: StepForm,
    before: &mut Machine,
    now: &mut Machine,
    buffers: &mut Buffers,
    sink: &mut K,
    line: &mut LineBuffer,
) -> Result<(), TextFault>
    requires failures { (K.sent sink.old).failures < u64.MAX }
    requires opened { now.old ≡ ran now.old.scenario [] }
    requires alike { before.old ≡ now.old }
    ensures wrote { Wrote (K.sent sink.old) (K.sent sink.new) result
        (steps_text form now.old.scenario) }
    ensures made { OnOk result (now.new ≡ ran now.old.scenario now.old.scenario.choices) }
{
    for _ in 0..now.scenario().choices().len() {
        write_step(form, before, now, buffers, sink, line)?;
    }
    Ok(())
}

/// Makes the choices of the scenario of a machine that has made none, and writes the lines of each step. A second
/// machine is one step behind.
fn write_all_steps<K: Sink>(
    form: StepForm,
    alloc: Global,
    machine: &mut Machine,
    sink: &mut K,
    line: &mut LineBuffer,
) -> Result<(), TextFault>
    requires failures { (K.sent sink.old).failures < u64.MAX }
    requires opened { machine.old ≡ ran machine.old.scenario [] }
    ensures wrote { Wrote (K.sent sink.old) (K.sent sink.new) result
        (steps_text form machine.old.scenario) }
    ensures made { OnOk result (machine.new ≡ ran machine.old.scenario machine.old.scenario.choices) }
{
    let mut before = machine.reopen(alloc)?;
    let mut buffers = Buffers::new(alloc);
    let outcome = write_steps(form, &mut before, machine, &mut buffers, sink, line);
    drop(buffers);
    before.discard();
    outcome
}

/// Writes the lines of a machine's state, and whether the serial run agrees with it.
fn write_end<K: Sink>(
    alloc: Global,
    machine: &Machine,
    sink: &mut K,
    line: &mut LineBuffer,
) -> Result<(), TextFault>
    requires { (K.sent sink.old).failures < u64.MAX }
    ensures { Wrote (K.sent sink.old) (K.sent sink.new) result
        (end_text machine.now) }
{
    let agrees = same(alloc, machine)?;
    sections!(FinalState(machine), One(SerialLine(agrees)), One("end")).write(sink, line)
}

/// Makes the choices of the scenario of a machine that has made none, and writes the trace from the first step on.
fn write_rest<K: Sink>(
    alloc: Global,
    machine: &mut Machine,
    sink: &mut K,
    line: &mut LineBuffer,
) -> Result<(), TextFault>
    requires failures { (K.sent sink.old).failures < u64.MAX }
    requires opened { machine.old ≡ ran machine.old.scenario [] }
    ensures wrote { Wrote (K.sent sink.old) (K.sent sink.new) result
        (steps_text Lines machine.old.scenario ++ end_text (ran machine.old.scenario machine.old.scenario.choices)) }
    ensures made { OnOk result (machine.new ≡ ran machine.old.scenario machine.old.scenario.choices) }
{
    write_all_steps(StepForm::Lines, alloc, machine, sink, line)?;
    write_end(alloc, machine, sink, line)
}

/// Makes the choices of the scenario of a machine that has made none, and writes its trace.
fn write_run<K: Sink>(alloc: Global, machine: &mut Machine, sink: &mut K) -> Result<(), TextFault>
    requires failures { (K.sent sink.old).failures < u64.MAX }
    requires opened { machine.old ≡ ran machine.old.scenario [] }
    ensures wrote { Wrote (K.sent sink.old) (K.sent sink.new) result
        (spec.trace machine.old.scenario) }
    ensures made { OnOk result (machine.new ≡ ran machine.old.scenario machine.old.scenario.choices) }
{
    let mut line = LineBuffer::new(alloc);
    write_opening(alloc, machine, sink, &mut line)?;
    write_rest(alloc, machine, sink, &mut line)
}

/// Makes the choices of a scenario, writes its trace, and returns the machine that has made them.
pub fn write_trace<K: Sink>(
    alloc: Global,
    scenario: Scenario,
    sink: &mut K,
) -> Result<Machine, TextFault>
    requires { (K.sent sink.old).failures < u64.MAX }
    ensures { WroteRun spec.trace scenario (K.sent sink.old) (K.sent sink.new) result }
{
    let mut machine = Machine::open(alloc, scenario)?;
    match write_run(alloc, &mut machine, sink) {
        Ok(()) => Ok(machine),
        Err(fault) => {
            machine.discard();
            Err(fault)
        }
    }
}

/// Makes the choices of a scenario, writes each step in this form, and returns the machine that has made them.
pub fn write_each_step<K: Sink>(
    form: StepForm,
    alloc: Global,
    scenario: Scenario,
    sink: &mut K,
) -> Result<Machine, TextFault>
    requires { (K.sent sink.old).failures < u64.MAX }
    ensures { WroteRun (steps_text form) scenario (K.sent sink.old) (K.sent sink.new) result }
{
    let mut machine = Machine::open(alloc, scenario)?;
    let mut line = LineBuffer::new(alloc);
    let written = write_all_steps(form, alloc, &mut machine, sink, &mut line);
    drop(line);
    match written {
        Ok(()) => Ok(machine),
        Err(fault) => {
            machine.discard();
            Err(fault)
        }
    }
}
