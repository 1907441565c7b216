//! A log and a goal read what a listing writes: each function is a law, and its contract is all of it.
ghost use Rattle.std.specs.Prelude.{◌≡◌, ◌≤◌, ◌++◌, Ok, Some, [], List, length, codes, false};
ghost use Rattle.zy_isa.specs.Limits.{max_txns};
ghost use Rattle.zy_isa.specs.Scenario.{Scenario, IsScenario};
ghost use Rattle.zy_table.specs.Play.{entries, opening};
ghost use Rattle.zy_table.specs.declared.outcome.Outcome.{Outcome as AnOutcome};
ghost use Rattle.zy_text.specs.Words.{words_of};
ghost use Rattle.zy_patterns.specs.declared.patterns.OutcomePattern.{OutcomePattern as APattern};
ghost use Rattle.zy_patterns.specs.Patterns.{exactly};
ghost use Rattle.zy_queries.specs.declared.names.Names.{Names as SomeNames};
ghost use Rattle.zy_queries.specs.declared.names.Names.TheVariants.{Known};
ghost use Rattle.zy_queries.specs.Grammar.{ending};
ghost use Rattle.zy_queries.specs.Phrases as goal;
ghost use Rattle.zy_queries.specs.Words as goal_words;
ghost use Rattle.zy_logs.specs.declared.txns.Txns.{Txns as SomeTxns};
ghost use Rattle.zy_logs.specs.InFull.{IsTold};
ghost use Rattle.zy_logs.specs.Lines.{outcome_of};
ghost use Rattle.zy_logs.specs.Words.{Word as AWord};
ghost use Rattle.zy_listing.specs.Listing.{step_texts};
ghost use Rattle.zy_listing.specs.Texts.{outcome_text};
ghost use Rattle.zy_log_laws.specs.ReadBack.{AreReadBack, HaveNumbers, names_several};

/// The words that a listing has for an outcome are read, all of them, as the pattern that leaves nothing of it out.
pub fn an_outcome_is_read_back()
    ensures { (txns : SomeTxns) → txns.count ≤ max_txns → (outcome : AnOutcome) → IsTold txns.count outcome
        → outcome_of txns (words_of (outcome_text outcome)) ≡ Ok (exactly outcome, []) }
{}

/// Each line of a step of a listing, without its number, is a line of a log. It is read as the choice, all of the outcome, and the
/// message that was sent, if one was. A listing shows no value and no rows, so that the line tells none.
pub fn a_listing_is_a_log()
    ensures { (sc : Scenario) → IsScenario sc → (txns : SomeTxns) → txns.count ≡ length sc.programs
        → let es = entries sc (opening sc) sc.choices in
        HaveNumbers txns.count es → AreReadBack txns (step_texts 1 es) es }
{}

/// What a log reads as an outcome, a goal that knows the same names reads as that outcome, and no word more. The exceptions
/// are `active any` and `active all`, which are names in a log alone.
pub fn a_goal_reads_as_a_log()
    ensures { (txns : SomeTxns) → txns.count ≤ max_txns → (words rest : List AWord) → (told : APattern)
        → names_several words ≡ false → outcome_of txns words ≡ Ok (told, rest)
        → goal.outcome_of (Known txns.names) words ≡ Some (told, rest) }
{}

/// Behind `then` a goal may have what a listing has for an outcome. It asks for exactly that outcome, whichever names the
/// goal knows.
pub fn then_asks_for_an_outcome()
    ensures { (txns : SomeTxns) → txns.count ≤ max_txns → (names : SomeNames) → (outcome : AnOutcome) → IsTold txns.count outcome
        → ending names (goal_words.words_of (codes "then " ++ outcome_text outcome)) ≡ Some (Some (exactly outcome)) }
{}
