//! Steps that nothing comes of.
ghost use Rattle.std.specs.Prelude.{◌≡◌};
ghost use Rattle.zy_search.specs.Stuck as spec;

use zy_table::Outcome;

/// Whether nothing came of a step. The state is then as it was.
pub(crate) fn is_still(outcome: Outcome) -> bool
    ensures { result ≡ spec.is_still outcome }
{
    match outcome {
        Outcome::BadMode => true,
        Outcome::Idle => true,
        Outcome::Elsewhere => true,
        Outcome::NotYet => true,
        Outcome::Waits(_) => true,
        Outcome::Awaits(_) => true,
        Outcome::NoMessage => true,
        Outcome::Held(_) => true,
        Outcome::Stray => true,
        Outcome::Active(_) => true,
        Outcome::NoPush => true,
        _ => false,
    }
}
