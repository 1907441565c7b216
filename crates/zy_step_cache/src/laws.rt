//! What holds of remembered steps: each function is a law, and its contract is all of it.
ghost use Rattle.std.specs.Prelude.{◌≡◌, ℕ, List, length};
ghost use Rattle.zy_steps.specs.Reads.{uncounted};
ghost use Rattle.zy_isa.specs.declared.choice.Choice.{Choice as AChoice};
ghost use Rattle.zy_isa.specs.Scenario.{Scenario};
ghost use Rattle.zy_steps.specs.declared.part.StatePart.{StatePart};
ghost use Rattle.zy_step_cache.specs.declared.places.Read.{Read as ARead};
ghost use Rattle.zy_step_cache.specs.declared.places.Scope.{Scope as AScope};
ghost use Rattle.zy_step_cache.specs.declared.choice_cache.CachedStep.{CachedStep as AStep};
ghost use Rattle.zy_step_cache.specs.Places.{places, reads};
ghost use Rattle.zy_step_cache.specs.Steps.{put_at, AreTrue, Happened};
ghost use Rattle.zy_state_ids.specs.Parts.{IsNumbered, Keeps};
ghost use Rattle.zy_table.specs.declared.outcome.Outcome.{Outcome};
ghost use Rattle.zy_table.specs.Play.{step};
ghost use Rattle.zy_table.specs.State.{State};

/// A step that happened happens again from each state, with a transaction for each program, whose numbers its choice reads
/// alike: what it wrote leads to the numbers of the state after it, with the outcome that it had, but for a commit's number.
pub fn a_step_happens_again()
    ensures numbers { (sc : Scenario) (part : StatePart) (table : List (List ℕ)) (c : AChoice) (k : AScope)
        (read : ARead) (written : List ℕ) (o : Outcome) → Happened sc table part c k read written o → (t : State) (now : List ℕ)
        → IsNumbered table part now t → length t.txns ≡ length sc.programs → read ≡ reads table c k now
        → IsNumbered table part (put_at now (places table c k now) written) (step sc c t).after }
    ensures outcome { (sc : Scenario) (part : StatePart) (table : List (List ℕ)) (c : AChoice) (k : AScope)
        (read : ARead) (written : List ℕ) (o : Outcome) → Happened sc table part c k read written o → (t : State) (now : List ℕ)
        → IsNumbered table part now t → length t.txns ≡ length sc.programs → read ≡ reads table c k now
        → uncounted (step sc c t).outcome ≡ uncounted o }
{}

/// What happened stays so while the table of parts grows.
pub fn cached_steps_stay()
    ensures { (sc : Scenario) (old new : List (List ℕ)) (part : StatePart) (c : AChoice) (steps : List AStep)
        → Keeps old new → AreTrue sc old part c steps → AreTrue sc new part c steps }
{}
