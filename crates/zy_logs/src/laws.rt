//! What holds of all logs that are read: each function is a law, and its contract is all of it.
ghost use Rattle.std.specs.Prelude.{◌≡◌, ◌≤◌, ◌++◌, ℕ, IfSome, List, Ok, true};
ghost use Rattle.zy_isa.specs.declared.choice.Choice.{Choice as AChoice};
ghost use Rattle.zy_isa.specs.Choices.{actor_at, actor_of, names_below};
ghost use Rattle.zy_isa.specs.declared.node.Actor.TheVariants.{C};
ghost use Rattle.zy_isa.specs.declared.node.Node.{Node as ANode};
ghost use Rattle.zy_isa.specs.Limits.{max_txns};
ghost use Rattle.zy_isa.specs.Scenario.{AreNamed, Scenario as AScenario};
ghost use Rattle.zy_table.specs.declared.observation.Observation.{Observation as AnObservation};
ghost use Rattle.zy_table.specs.declared.outcome.Outcome.{Outcome as AnOutcome};
ghost use Rattle.zy_table.specs.Observations.{observation_at};
ghost use Rattle.zy_table.specs.Play.{step};
ghost use Rattle.zy_table.specs.State.{State};
ghost use Rattle.zy_logs.specs.declared.logs.NumberedLine.{NumberedLine as ALine};
ghost use Rattle.zy_logs.specs.declared.log_line.Logged.TheVariants.{Step};
ghost use Rattle.zy_logs.specs.declared.txns.Txns.{Txns as SomeTxns};
ghost use Rattle.zy_logs.specs.InFull.{AreShown, HoldRows, HoldValues, IsShown, IsTold, in_full, in_log};
ghost use Rattle.zy_logs.specs.InFull.{outcome_words, step_words, words_in};
ghost use Rattle.zy_logs.specs.Lines.{line_of, outcome_of};
ghost use Rattle.zy_logs.specs.Logs.{AreInLogs, choices_of, logs_of, steps, steps_in};
ghost use Rattle.zy_logs.specs.Possible.{can_give, can_stand};
ghost use Rattle.zy_logs.specs.Words.{Word as AWord};
ghost use Rattle.zy_patterns.specs.declared.patterns.OutcomePattern.{OutcomePattern as APattern};
ghost use Rattle.zy_patterns.specs.Patterns.{exactly, matches};

/// The lines that a text spells name transactions that there are, and count for no more steps than there may be. Each stands in the log
/// of its choice's actor, or tells a choice of the client.
pub fn logs_fit()
    ensures named { (txns : SomeTxns) → (gap most first : ℕ) → (text : List ℕ) → (lines : List ALine)
        → logs_of txns gap most first text ≡ Ok lines → AreNamed txns.count (choices_of lines) }
    ensures few { (txns : SomeTxns) → (gap most first : ℕ) → (text : List ℕ) → (lines : List ALine)
        → logs_of txns gap most first text ≡ Ok lines → steps_in gap lines ≤ most }
    ensures placed { (txns : SomeTxns) → (gap most first : ℕ) → (text : List ℕ) → (lines : List ALine)
        → logs_of txns gap most first text ≡ Ok lines → AreInLogs (steps lines) }
{}

/// A choice can give each pattern that matches the outcome of one of its steps, in any scenario and state. The pattern may stand in
/// the log of the actor who made the step, and in that of the node where a choice of the client took place. So the reader rejects no
/// line for an outcome that such a step has.
pub fn steps_are_possible()
    ensures given { (sc : AScenario) → (c : AChoice) → (s : State) → (told : APattern) → matches told (step sc c s).outcome ≡ true
        → can_give c told ≡ true }
    ensures own { (sc : AScenario) → (c : AChoice) → (s : State) → (told : APattern) → matches told (step sc c s).outcome ≡ true
        → can_stand (actor_of c) told ≡ true }
    ensures shared { (sc : AScenario) → (c : AChoice) → (s : State) → (told : APattern) → matches told (step sc c s).outcome ≡ true
        → IfSome (observation_at sc s c).node (λ n. can_stand (actor_at n) told ≡ true) }
{}

/// Only a step whose outcome is `did` shows a value. A line may tell it, if each register holds a value that a line may tell after the
/// step.
pub fn values_are_shown()
    ensures { (sc : AScenario) → (c : AChoice) → (s : State) → HoldValues (step sc c s).after → IsShown (observation_at sc s c) }
{}

/// Only a take or a push shows rows. A line may tell them, if each page holds rows that a line may tell after the step.
pub fn rows_are_shown()
    ensures { (sc : AScenario) → (c : AChoice) → (s : State) → HoldRows (step sc c s).after → AreShown (observation_at sc s c) }
{}

/// The reader takes the words that tell all of an outcome as the pattern that matches only this outcome, whatever words follow. It
/// reads the words of all that a step shows likewise: its choice, its outcome, and the value, the sent message and the rows, if any. So
/// it does where the line of a choice of the client stands in the log of a node.
pub fn told_in_full()
    ensures outcome { (txns : SomeTxns) → txns.count ≤ max_txns → (told : AnOutcome) → IsTold txns.count told → (rest : List AWord)
        → outcome_of txns (outcome_words told ++ rest) ≡ Ok (exactly told, rest) }
    ensures line { (txns : SomeTxns) → txns.count ≤ max_txns → (o : AnObservation) → names_below txns.count o.entry.choice ≡ true
        → IsTold txns.count o.entry.outcome → can_give o.entry.choice (exactly o.entry.outcome) ≡ true → IsShown o → AreShown o
        → line_of txns (step_words o) ≡ Ok (Step (in_full o)) }
    ensures shared { (txns : SomeTxns) → txns.count ≤ max_txns → (n : ANode) → (o : AnObservation) → actor_of o.entry.choice ≡ C
        → names_below txns.count o.entry.choice ≡ true → IsTold txns.count o.entry.outcome
        → can_give o.entry.choice (exactly o.entry.outcome) ≡ true → can_stand (actor_at n) (exactly o.entry.outcome) ≡ true
        → IsShown o → AreShown o → line_of txns (words_in (actor_at n) o) ≡ Ok (Step (in_log (actor_at n) o)) }
{}
