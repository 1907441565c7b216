//! The logs that are below a scenario.
ghost use Rattle.std.specs.Prelude.{◌≡◌, ◌==◌, ◌<◌, ◌≤◌, ◌+◌, ◌++◌, ◌^◌, count_by, length, IfOk, OnOk};
ghost use Rattle.zy_isa.specs.Limits.{max_txns};
ghost use Rattle.zy_io.specs.Streams.{max_input};
ghost use Rattle.zy_logs.specs.Logs as logs;
ghost use Rattle.zy_order_engine.specs.Ordering.{line_below, ReadsBelow, ReadsLines};

use crate::faults::BelowFault;
use crate::log_format::LogFormat;
use std::alloc::{AllocError, Global};
use zy_asm::names::names_of;
use zy_isa::{MAX_CHOICES, Scenario};
use zy_json::logs::read_objects;
use zy_logs::logs::read_logs;
use zy_logs::{LogFault, LogLine, Logged, NumberedLine, Txns};

/// How many lines end in these bytes.
fn line_ends(bytes: &[u8]) -> usize
    ensures { result ≡ count_by (λ b. b == 10) bytes.now }
{
    bytes.iter().filter(|byte| **byte == b'\n').count()
}

/// The number of the line below a scenario's text.
fn first_below(text: &[u8]) -> usize
    requires { length text.now ≤ max_input }
    ensures { result ≡ line_below text.now }
{
    1 + line_ends(text)
}

/// Reads the lines of logs below a scenario's text, each with its number in the whole input. A gap counts for `gap` choices, and
/// all lines for no more than the scenario has room for.
fn read_lines(
    alloc: Global,
    scenario: &Scenario,
    gap: u16,
    text: &[u8],
    lines: &[u8],
) -> Result<Vec<NumberedLine>, LogFault>
    requires { (length text.now ≤ max_input) × (length lines.now < 2 ^ 63) }
    ensures { ReadsLines gap text.now lines.now scenario.now result }
{
    let names = names_of(alloc, text)?;
    let txns = Txns {
        count: scenario.programs().len(),
        names: &names,
    };
    let most = MAX_CHOICES.saturating_sub(scenario.choices().len());
    read_logs(
        alloc,
        txns,
        usize::from(gap),
        most,
        first_below(text),
        lines,
    )
}

/// Reads what is below a scenario's text as lines of logs of its transactions, each with its number in the whole input. A gap
/// counts for `gap` choices, and all lines for no more than the scenario has room for. Of objects the first one that tells no line
/// of a log is reported, before any fault of what the others tell.
pub fn read_below(
    alloc: Global,
    format: LogFormat,
    gap: u16,
    scenario: &Scenario,
    text: &[u8],
    below: &[u8],
) -> Result<Vec<NumberedLine>, BelowFault>
    requires { (length text.now ≤ max_input) × (length below.now ≤ max_input) }
    ensures { ReadsBelow format gap text.now below.now scenario.now result }
{
    match format {
        LogFormat::Text => {
            let lines = read_lines(alloc, scenario, gap, text, below)?;
            Ok(lines)
        }
        LogFormat::Json => {
            let logs = read_objects(alloc, first_below(text), below)?;
            let lines = read_lines(alloc, scenario, gap, text, &logs)?;
            Ok(lines)
        }
    }
}

/// Adds the line of a step, if it is one.
fn add_step(steps: &mut Vec<LogLine>, logged: Logged) -> Result<(), AllocError>
    ensures { OnOk result (steps.new.items ≡ steps.old.items ++ logs.step_of logged) }
{
    match logged {
        Logged::Step(step) => {
            steps.push(step)?;
            Ok(())
        }
        Logged::Gap(_) => Ok(()),
    }
}

/// The lines of steps, without their numbers.
pub(crate) fn steps(alloc: Global, lines: &[NumberedLine]) -> Result<Vec<LogLine>, AllocError>
    ensures { IfOk result (λ v. v.items ≡ logs.steps lines.now) }
{
    let mut steps = Vec::new(alloc);
    let mut rest = lines;
    while let [line, below @ ..] = rest {
        add_step(&mut steps, line.logged)?;
        rest = below;
    }
    Ok(steps)
}
