//! What an answer says of whole runs: each function is a law, and its contract is all of it.
ghost use Rattle.std.specs.Prelude.{◌≡◌, ◌++◌, ◌∷◌, [], List, Bool, true, false};
ghost use Rattle.zy_isa.specs.declared.choice.Choice.{Choice as AChoice};
ghost use Rattle.zy_isa.specs.declared.rule.Rule.TheVariants.{Held};
ghost use Rattle.zy_isa.specs.Scenario.{IsScenario, Scenario as AScenario};
ghost use Rattle.zy_machine.specs.Histories.{History, IsReplay};
ghost use Rattle.zy_steps.specs.Alike.{Alike};
ghost use Rattle.zy_laws.specs.WayOut.{Over};
ghost use Rattle.zy_table.specs.Play.{opening, play, step};
ghost use Rattle.zy_table.specs.State.{State};
ghost use Rattle.zy_search.specs.declared.sought.Sought.{Sought};
ghost use Rattle.zy_goals.specs.declared.goal.Fact.TheVariants.{Differs};
ghost use Rattle.zy_goals.specs.declared.goal.Goal.{Is};
ghost use Rattle.zy_patterns.specs.declared.patterns.OutcomePattern.{OutcomePattern as APattern};
ghost use Rattle.zy_goals.specs.Facts.{is_over};
ghost use Rattle.zy_goals.specs.Goals.{meets};
ghost use Rattle.zy_search.specs.Possible.{gives};
ghost use Rattle.zy_search.specs.Schedules.{scheduled, before_last, ending};
ghost use Rattle.zy_search.specs.Searches.{reached, context_of, Finds, IsLast, Shows};
ghost use Rattle.zy_search.specs.Stuck.{is_still};
ghost use Rattle.zy_search.specs.Visits.{counted};
ghost use Rattle.zy_search.specs.declared.deadlock.Wait.{Wait as AWait};
ghost use Rattle.zy_search.specs.Deadlocks.{is_deadlocked, IsCycle};

use zy_serial::laws::always_same;

/// The scenario with the choices that were found is a scenario, and the state after its run shows what was looked for.
pub fn found_runs()
    ensures tested { (h : History) (q : Sought) (cs : List AChoice) → IsReplay h → Finds h q cs
        → IsScenario (scheduled h cs) }
    ensures shows { (h : History) (q : Sought) (cs : List AChoice) → IsReplay h → Finds h q cs
        → Shows (scheduled h cs) q (ending (scheduled h cs)) }
{}

/// Where an outcome is asked for, the scenario with the choices that were found and one more that has it is a scenario.
/// One choice before its end, its run is in a state that shows what was looked for; its last step has the outcome.
pub fn last_step_runs()
    ensures tested { (h : History) (q : Sought) (x : APattern) (cs : List AChoice) (c : AChoice) → IsReplay h
        → Finds h q cs → IsLast h q x cs c → IsScenario (scheduled h (cs ++ c ∷ [])) }
    ensures before { (h : History) (q : Sought) (x : APattern) (cs : List AChoice) (c : AChoice) → IsReplay h
        → Finds h q cs → IsLast h q x cs c → Shows (scheduled h (cs ++ c ∷ [])) q (before_last h cs c) }
    ensures outcome { (h : History) (q : Sought) (x : APattern) (cs : List AChoice) (c : AChoice) → IsReplay h
        → Finds h q cs → IsLast h q x cs c → gives (scheduled h (cs ++ c ∷ [])) x (before_last h cs c) c ≡ true }
{}

/// Where choices do not lead to a state that shows it, the state after a run with them does not.
pub fn nowhere_runs()
    ensures { (h : History) (q : Sought) (cs : List AChoice) → IsReplay h → (Shows h.scenario q (reached h cs) → ⊥)
        → Shows (scheduled h cs) q (ending (scheduled h cs)) → ⊥ }
{}

/// Under the rule `held` a search finds no choices for `differs`: it answers that there are none, or that it gave up.
/// What it finds for any other goal meets that goal with `differs` taken as false.
pub fn never_differs_under_held()
    ensures alone { (h : History) (q : Sought) (cs : List AChoice) → IsReplay h → h.scenario.rule ≡ Held
        → q.goal ≡ Is Differs → Finds h q cs → ⊥ }
    ensures inside { (h : History) (q : Sought) (cs : List AChoice) → IsReplay h → h.scenario.rule ≡ Held
        → Finds h q cs → meets (record (context_of h.scenario q.kinds (reached h cs)) { differs = false }) q.goal
        (reached h cs) ≡ true }
{
    // Proof: under `held` the serial run gives the same database.
    always_same();
}

/// Where nothing comes of a choice the state is as it was: so what is stuck stays so, whichever considered
/// choice is made.
pub fn still_stays()
    ensures { (sc : AScenario) (c : AChoice) (s : State) → is_still (step sc c s).outcome ≡ true
        → (step sc c s).after ≡ s }
{}

/// States that are alike in all that counts for what is looked for show it or do not, and so do those that the same
/// choices lead to from them.
pub fn alike_shows()
    ensures here { (sc : AScenario) (q : Sought) (s t : State) → Alike (counted q) s t → Shows sc q s
        → Shows sc q t }
    ensures later { (sc : AScenario) (q : Sought) (s t : State) (cs : List AChoice) → Alike (counted q) s t
        → Shows sc q (play sc s cs) → Shows sc q (play sc t cs) }
{}

/// A state has a deadlock if and only if some of those that wait each wait for another one of them.
pub fn deadlock_is_cycle()
    ensures only { (sc : AScenario) (s : State) → is_deadlocked sc s ≡ true
        → (test : AWait → Bool) × IsCycle sc s test }
    ensures each { (sc : AScenario) (s : State) (test : AWait → Bool) → IsCycle sc s test
        → is_deadlocked sc s ≡ true }
{}

/// A state that choices lead to is `over` if and only if it is between two migrations, or before the first one: no
/// transaction is active, one node is normal, and nothing is left of a migration at the other one, which is empty.
pub fn over_leaves_nothing()
    ensures only { (sc : AScenario) → IsScenario sc → (cs : List AChoice)
        → let s = play sc (opening sc) cs in is_over s ≡ true → Over s }
    ensures each { (s : State) → Over s → is_over s ≡ true }
{}
