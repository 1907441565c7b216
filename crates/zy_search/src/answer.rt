//! What comes of a search and of its parts.

use zy_isa::Choice;

/// What came of a search.
#[derive(Drop)]
pub enum SearchAnswer {
    /// These choices lead to a state that shows what is looked for, and no fewer do. Where an outcome is asked for, one
    /// choice more, which has it there, is the last one.
    Found(Vec<Choice>),
    /// No choices do, however many.
    Nowhere,
    /// Fewer choices than this do not; what more do is not known.
    Spent(usize),
}

/// An answer, and numbers for a person, of which nothing is proved.
#[derive(Drop)]
pub struct SearchReport {
    pub answer: SearchAnswer,
    /// How many states were reached.
    pub states: usize,
    /// The most choices that one of them takes.
    pub depth: usize,
}

/// What came of one choice from a state.
#[derive(Clone, Copy)]
pub enum Met {
    /// A state that was reached before, or one more.
    Noted,
    /// A state that shows what is looked for.
    Shown,
    /// One state too many.
    Spent,
}

/// What came of the choices from a state.
#[derive(Drop)]
pub enum Expanded {
    /// None of them leads to a state that shows it.
    Whole,
    /// These choices do, of which the last is from this state.
    Found(Vec<Choice>),
    /// There is one state too many, or the history has no room for more.
    Spent,
}
