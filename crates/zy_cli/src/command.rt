//! The command line.

use crate::table::{COMMANDS, Described};
use clap::Command;
use std::alloc::{AllocError, Global};

/// The command line that is understood.
pub fn command<'a>(alloc: Global) -> Result<Command<'a>, AllocError> {
    let mut program = Command::new(alloc, "zy_bench")
        .version("0.1.0")
        .about("Runs transaction programs on a migrating store, under any schedule")
        .after_help("Example:\n  zy_bench run examples/first_run.zephyr")
        .subcommand_required(true);
    for described in COMMANDS {
        program = program.subcommand(subcommand(alloc, described)?)?;
    }
    Ok(program)
}

/// A command with its arguments.
fn subcommand<'a>(alloc: Global, described: Described) -> Result<Command<'a>, AllocError> {
    let mut command = Command::new(alloc, described.name.word())
        .about(described.about)
        .after_help(described.below);
    for argument in described.arguments {
        command = command.arg(argument.build(alloc)?)?;
    }
    Ok(command)
}
