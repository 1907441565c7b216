//! What a search looks for.
ghost use Rattle.std.specs.Prelude.{◌≡◌};
ghost use Rattle.zy_search.specs.Searches as spec;
ghost use Rattle.zy_search.specs.Visits as visits;

use crate::kinds::ChoiceKinds;
use zy_goals::Goal;
use zy_goals::footprint::{reads_ended, takes_steps};
use zy_isa::MAX_CHOICES;
use zy_patterns::OutcomePattern;
use zy_steps::StatePart;

/// What is looked for, and by which choices.
#[derive(Drop)]
pub struct Sought {
    /// What a state is to meet.
    pub goal: Goal,
    /// The outcome that a considered choice is to have in that state, if one is asked for.
    pub then: Option<OutcomePattern>,
    /// The kinds of choices that are considered.
    pub kinds: ChoiceKinds,
}

/// Whether it takes steps to judge if a state shows what is looked for.
fn asks_steps(sought: &Sought) -> bool
    ensures { result ≡ spec.asks_steps sought.now }
{
    sought.then.is_some() || takes_steps(&sought.goal)
}

/// The most choices, from the opening on, after which a state is judged. Where that takes steps, there is room for one
/// choice more.
pub(crate) fn deepest(sought: &Sought) -> usize
    ensures { result ≡ spec.deepest sought.now }
{
    if asks_steps(sought) {
        return MAX_CHOICES - 1;
    }
    MAX_CHOICES
}

/// How much of a state counts for what is looked for: all of it where the goal reads what ended transactions had.
pub(crate) fn counted(sought: &Sought) -> StatePart
    ensures { result ≡ visits.counted sought.now }
{
    if reads_ended(&sought.goal) {
        StatePart::Whole
    } else {
        StatePart::Live
    }
}
