//! The lines of a session of `debug` that are no commands.

use crate::origin::Origin;
use zy_debug_text::command::command_of;
use zy_diagnostics::BadCommand;
use zy_engine::format::split_scenario;
use zy_source_words::Position;
use zy_source_words::line::is_line_feed;
use zy_text::Words;
use zy_text::line::take_line;

/// Where the commands of a session are.
#[derive(Clone, Copy)]
pub struct BadCommands<'a> {
    /// The file that the input begins with.
    pub file: Option<&'a str>,
    /// How many of its lines are above standard input.
    pub lines: usize,
}

impl<'a> BadCommands<'a> {
    /// Says on standard error which lines below the scenario are no commands, and why.
    pub fn tell_bad(self, rt: &impl Eprint, input: &[u8]) {
        let (scenario, commands) = split_scenario(input);
        let above = scenario.iter().filter(|byte| is_line_feed(byte)).count();
        let mut words = Words::new();
        for (index, line) in commands.split(is_line_feed).enumerate() {
            if line.is_empty() {
                continue;
            }
            take_line(&mut words, line);
            if !words.as_slice().is_empty() && command_of(words.as_slice()).is_none() {
                let place = self.place(above.saturating_add(index).saturating_add(1));
                let bad = BadCommand::of(line);
                let _ = eprintln!(rt; "{place}: bad command: {bad}");
            }
        }
    }

    /// Where the line of this number of the input is.
    fn place(self, line: usize) -> Origin<'a> {
        match self.file {
            Some(file) if line <= self.lines => Origin::Place(file, Position { line, column: 1 }),
            Some(_) => Origin::LineBelow(line.saturating_sub(self.lines)),
            None => Origin::Line(line),
        }
    }
}
