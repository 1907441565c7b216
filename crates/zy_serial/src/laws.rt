//! What holds of the comparison: each function is a law, and its contract is all of it.
ghost use Rattle.std.specs.Prelude.{◌≡◌, ◌↔◌, List, true};
ghost use Rattle.zy_isa.specs.declared.choice.Choice.{Choice as AChoice};
ghost use Rattle.zy_isa.specs.declared.rule.Rule.TheVariants.{Held};
ghost use Rattle.zy_isa.specs.Scenario.{Scenario, IsScenario};
ghost use Rattle.zy_table.specs.Database.{Map, database};
ghost use Rattle.zy_table.specs.Play.{play, opening};
ghost use Rattle.zy_table.specs.Serial.{serial};
ghost use Rattle.zy_serial.specs.Lone.{map_of};
ghost use Rattle.zy_serial.specs.SameMaps.{same_map};

/// `same_map` is true if and only if the maps are equal.
pub fn same_is_equal()
    ensures { (m n : Map) → same_map m n ≡ true ↔ m ≡ n }
{}

/// Under the rule `held` the pages have, after every schedule, exactly what the committed transactions leave when they are
/// run alone, one by one: what `same` answers is true.
pub fn always_same()
    ensures { (sc : Scenario) → IsScenario sc → sc.rule ≡ Held → (choices : List AChoice)
        → let s = play sc (opening sc) choices in
        same_map (database s) (serial sc (map_of sc.rows) s.commits) ≡ true }
{}
