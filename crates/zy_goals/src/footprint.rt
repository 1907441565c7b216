//! What goals read of a state, and which of them take steps to judge.
ghost use Rattle.std.specs.Prelude.{◌≡◌};
ghost use Rattle.zy_goals.specs.Footprints as spec;

use crate::goal::{Fact, Goal, StateFact, Term, TxnProperty};

/// What of a state decides whether a goal is met.
#[derive(Clone, Copy)]
pub enum Footprint {
    /// The committed rows and the commits alone.
    Commits,
    /// Other parts, too, but nothing that an ended transaction had.
    Present,
    /// What an ended transaction had, too: its registers, its program counter, its node, or how much it has done.
    Ended,
}

/// The one of two footprints that has the other.
fn wider(left: Footprint, right: Footprint) -> Footprint
    ensures { result ≡ spec.wider left right }
{
    match (left, right) {
        (Footprint::Commits, _) | (Footprint::Present, Footprint::Ended) => right,
        _ => left,
    }
}

/// What the value of a term depends on.
fn of_term(term: Term) -> Footprint
    ensures { result ≡ spec.of_term term }
{
    match term {
        Term::Number(_) => Footprint::Commits,
        Term::Key(_) => Footprint::Commits,
        Term::Sum { .. } => Footprint::Commits,
        Term::Register { .. } => Footprint::Ended,
        Term::Pc(_) => Footprint::Ended,
        Term::Done(_) => Footprint::Ended,
        Term::Commits => Footprint::Commits,
    }
}

/// What a property of a transaction depends on.
fn of_property(property: TxnProperty) -> Footprint
    ensures { result ≡ spec.of_property property }
{
    match property {
        TxnProperty::New => Footprint::Present,
        TxnProperty::Active => Footprint::Present,
        TxnProperty::Committed => Footprint::Present,
        TxnProperty::Aborted(_) => Footprint::Present,
        TxnProperty::At(_) => Footprint::Ended,
        TxnProperty::Wrote(_) => Footprint::Present,
    }
}

/// What a fact of the state depends on.
fn of_state_fact(fact: StateFact) -> Footprint
    ensures { result ≡ spec.of_state_fact fact }
{
    match fact {
        StateFact::Mode(_, _) => Footprint::Present,
        StateFact::Page(_, _) => Footprint::Present,
        StateFact::Locked(_) => Footprint::Present,
        StateFact::LockedBy { .. } => Footprint::Present,
        StateFact::Txns(_, property) => of_property(property),
        StateFact::CommittedBefore { .. } => Footprint::Commits,
        StateFact::NoRow(_) => Footprint::Commits,
        StateFact::Link(_, _) => Footprint::Present,
        StateFact::Over => Footprint::Present,
        StateFact::Compare(left, _, right) => wider(of_term(left), of_term(right)),
    }
}

/// What a fact depends on.
fn of_fact(fact: Fact) -> Footprint
    ensures { result ≡ spec.of_fact fact }
{
    match fact {
        Fact::Differs => Footprint::Commits,
        Fact::Stuck => Footprint::Present,
        Fact::Deadlock => Footprint::Present,
        Fact::OfState(state_fact) => of_state_fact(state_fact),
    }
}

/// What a goal depends on: as much as all of its facts.
pub fn footprint_of(goal: &Goal) -> Footprint
    ensures { result ≡ spec.footprint_of goal.now }
{
    match goal {
        Goal::Is(fact) => of_fact(*fact),
        Goal::Not(g) => footprint_of(g),
        Goal::And(g, h) => wider(footprint_of(g), footprint_of(h)),
        Goal::Or(g, h) => wider(footprint_of(g), footprint_of(h)),
    }
}

/// Whether the committed rows and the commits decide if a goal is met: then only a commit can bring it about.
pub fn is_of_commits(goal: &Goal) -> bool
    ensures { result ≡ spec.is_of_commits goal.now }
{
    matches!(footprint_of(goal), Footprint::Commits)
}

/// Whether a goal reads what an ended transaction had: then two states that differ in it alone are two.
pub fn reads_ended(goal: &Goal) -> bool
    ensures { result ≡ spec.reads_ended goal.now }
{
    matches!(footprint_of(goal), Footprint::Ended)
}

/// Whether it takes steps to judge if a fact holds.
fn fact_takes_steps(fact: Fact) -> bool
    ensures { result ≡ spec.fact_takes_steps fact }
{
    match fact {
        Fact::Differs => false,
        Fact::Stuck => true,
        Fact::Deadlock => true,
        Fact::OfState(_) => false,
    }
}

/// Whether a goal has a fact that takes steps to judge: `stuck` or `deadlock`.
pub fn takes_steps(goal: &Goal) -> bool
    ensures { result ≡ spec.takes_steps goal.now }
{
    match goal {
        Goal::Is(fact) => fact_takes_steps(*fact),
        Goal::Not(g) => takes_steps(g),
        Goal::And(g, h) => takes_steps(g) || takes_steps(h),
        Goal::Or(g, h) => takes_steps(g) || takes_steps(h),
    }
}
