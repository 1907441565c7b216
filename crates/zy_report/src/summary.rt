//! What a search says at its end.

use std::fmt::{self, Formatter, Write};
use zy_search::{ChoiceKinds, SearchAnswer, SearchReport};

/// What came of a search, as a line for standard error.
#[derive(Clone, Copy)]
pub struct Summary<'a> {
    report: &'a SearchReport,
    left_out: LeftOut,
    is_always: bool,
}

impl<'a> Summary<'a> {
    /// The line of a report of a search that considered these kinds of choices; `is_always` says that every state is to meet
    /// the goal.
    pub fn of(report: &'a SearchReport, kinds: ChoiceKinds, is_always: bool) -> Summary<'a> {
        Summary {
            report,
            left_out: LeftOut(kinds),
            is_always,
        }
    }

    /// Writes after how many states a schedule was found, and how many choices it adds.
    fn write_found<W: Write>(self, f: &mut Formatter<W>, choices: usize) -> fmt::Result {
        let states = Count::of(self.report.states, "state");
        let verb = if choices == 1 { "leads" } else { "lead" };
        let choices = Count::of(choices, "choice");
        if self.is_always {
            f.write_str("it does not always hold: ")?;
        }
        write!(f, "found after {states}: {choices} {verb} there")?;
        if self.left_out.is_usual() {
            return Ok(());
        }
        write!(f, "{}", self.left_out)
    }

    /// Writes that no state shows it, or that every state meets it.
    fn write_none<W: Write>(self, f: &mut Formatter<W>) -> fmt::Result {
        let states = Count::of(self.report.states, "state");
        let most = Count::of(self.report.depth, "choice");
        let left_out = self.left_out;
        if self.is_always {
            write!(f, "it holds in each of {states}")?;
        } else {
            write!(f, "none of {states} shows it")?;
        }
        write!(
            f,
            "{left_out}, and there are no others: each takes at most {most}"
        )
    }

    /// Writes that the search gave up, and which schedules it has ruled out.
    fn write_spent<W: Write>(self, f: &mut Formatter<W>, fewer: usize) -> fmt::Result {
        let states = Count::of(self.report.states, "state");
        let is_unjudged = fewer == 0;
        let fewer = Count::of(fewer, "choice");
        let left_out = self.left_out;
        write!(f, "gave up after {states}: ")?;
        if self.is_always {
            write!(
                f,
                "it holds after every schedule of fewer than {fewer}{left_out}"
            )?;
        } else {
            write!(f, "no schedule of fewer than {fewer} shows it{left_out}")?;
        }
        if is_unjudged {
            f.write_str("; stuck, deadlock and then are judged after at most 4095 choices")
        } else {
            Ok(())
        }
    }
}

impl fmt::Display for Summary<'_> {
    fn fmt<W: Write>(&self, f: &mut Formatter<W>) -> fmt::Result {
        match &self.report.answer {
            SearchAnswer::Found(path) => self.write_found(f, path.len()),
            SearchAnswer::Nowhere => self.write_none(f),
            SearchAnswer::Spent(fewer) => self.write_spent(f, *fewer),
        }
    }
}

/// The kinds of choices that a search left out, behind what it found.
#[derive(Clone, Copy)]
struct LeftOut(ChoiceKinds);

impl LeftOut {
    /// Whether no more than kills were left out.
    fn is_usual(self) -> bool {
        let LeftOut(kinds) = self;
        kinds.start && kinds.begin && kinds.run && kinds.take && kinds.finish && kinds.push
    }

    /// Each kind in the words of a summary, and whether it was left out.
    fn kinds(self) -> [(&'static str, bool); 7] {
        let LeftOut(kinds) = self;
        [
            ("starts", !kinds.start),
            ("begins", !kinds.begin),
            ("kills", !kinds.kill),
            ("runs", !kinds.run),
            ("takes", !kinds.take),
            ("finishes", !kinds.finish),
            ("pushes", !kinds.push),
        ]
    }
}

impl fmt::Display for LeftOut {
    fn fmt<W: Write>(&self, f: &mut Formatter<W>) -> fmt::Result {
        let kinds = self.kinds();
        let count = kinds.iter().filter(|(_, is_out)| *is_out).count();
        let mut listed = 0usize;
        for (word, is_out) in kinds {
            if is_out {
                listed = listed.saturating_add(1);
                let between = if listed > 1 && listed == count {
                    " and "
                } else {
                    ", "
                };
                write!(f, "{between}{word}")?;
            }
        }
        f.write_str(if count > 0 { " not considered" } else { "" })
    }
}

/// A number of things: `1 state`, `2 states`.
#[derive(Clone, Copy)]
pub struct Count {
    number: usize,
    /// The word for one of them.
    one: &'static str,
}

impl Count {
    /// This number of things, one of which is called so.
    pub fn of(number: usize, one: &'static str) -> Count {
        Count { number, one }
    }
}

impl fmt::Display for Count {
    fn fmt<W: Write>(&self, f: &mut Formatter<W>) -> fmt::Result {
        let Count { number, one } = *self;
        let end = if number == 1 { "" } else { "s" };
        write!(f, "{number} {one}{end}")
    }
}
