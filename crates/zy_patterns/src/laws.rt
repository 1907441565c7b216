//! What holds of patterns: each function is a law, and its contract is all of it.
ghost use Rattle.std.specs.Prelude.{◌≡◌, ◌↔◌, true};
ghost use Rattle.zy_table.specs.declared.outcome.Outcome.{Outcome as AnOutcome};
ghost use Rattle.zy_patterns.specs.Patterns.{exactly, matches};

/// `exactly` gives a pattern that matches only that outcome.
pub fn exact_is_one()
    ensures { (said came : AnOutcome) → matches (exactly said) came ≡ true ↔ came ≡ said }
{}
