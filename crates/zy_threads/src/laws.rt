//! What holds of every merge: each function is a law, and its contract is all of it.
ghost use Rattle.std.specs.Prelude.{List};
ghost use Rattle.zy_isa.specs.declared.choice.Choice.{Choice as AChoice};
ghost use Rattle.zy_isa.specs.Scenario.{Scenario, IsScenario};
ghost use Rattle.zy_laws.specs.Throughout.{CanEndThroughout, OwnedThroughout, SerialThroughout, StrictThroughout};
ghost use Rattle.zy_threads.specs.Orders.{reordered};
ghost use Rattle.zy_threads.specs.Turns.{IsMerge};

use zy_laws::laws::{no_dead_end, one_owner, serializable, strictly_serializable};

/// A merge of a scenario's choices, put in the place of its choices, makes a scenario: it has as many choices, and each
/// names a transaction that exists.
pub fn merges_are_scenarios()
    ensures { (sc : Scenario) → IsScenario sc → (order : List AChoice) → IsMerge order sc.choices
        → IsScenario (reordered sc order) }
{}

/// Whatever merge of a scenario's choices is made: at every point of it each page is in one place, the run is strictly
/// serializable under both rules, under `held` the database is that of the commits one by one, and the migration can be
/// ended.
pub fn merges_are_strict()
    ensures owned { (sc : Scenario) → IsScenario sc → (order : List AChoice) → IsMerge order sc.choices
        → OwnedThroughout (reordered sc order) order }
    ensures strict { (sc : Scenario) → IsScenario sc → (order : List AChoice) → IsMerge order sc.choices
        → StrictThroughout (reordered sc order) order }
    ensures serial { (sc : Scenario) → IsScenario sc → (order : List AChoice) → IsMerge order sc.choices
        → SerialThroughout (reordered sc order) order }
    ensures ends { (sc : Scenario) → IsScenario sc → (order : List AChoice) → IsMerge order sc.choices
        → CanEndThroughout (reordered sc order) order }
{
    // Proof: a merge makes a scenario, and all of this holds of the schedules of each.
    merges_are_scenarios();
    one_owner();
    strictly_serializable();
    serializable();
    no_dead_end();
}
