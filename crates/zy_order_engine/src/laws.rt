//! What holds of the scenarios that go out: each function is a law, and its contract is all of it.
ghost use Rattle.std.specs.Prelude.{ℕ, List, None};
ghost use Rattle.zy_isa.specs.declared.choice.Choice.{Choice as AChoice};
ghost use Rattle.zy_isa.specs.declared.node.Actor.{Actor};
ghost use Rattle.zy_isa.specs.Scenario.{IsScenario, Scenario as AScenario};
ghost use Rattle.zy_engine.specs.Searching.{history_of};
ghost use Rattle.zy_logs.specs.declared.log_line.LogLine.{LogLine as ALine};
ghost use Rattle.zy_order.specs.declared.gaps.Gaps.{Gaps as SomeGaps};
ghost use Rattle.zy_order.specs.Answers.{IsInput, MatchesAll, MatchesPrefixes};
ghost use Rattle.zy_order_engine.specs.Runs.{extended, RunsOrder, RunsPrefix};

/// The scenario with the choices of an order behind its own is a scenario. Its run makes the same steps, and behind them those
/// of the order, missing ones among them. Each step agrees with what its lines tell.
pub fn found_runs()
    ensures tested { (sc : AScenario) (lines : List ALine) (gaps : SomeGaps) (cs : List AChoice) → IsScenario sc
        → IsInput (history_of None sc) lines gaps → MatchesAll (history_of None sc) lines gaps cs → IsScenario (extended sc cs) }
    ensures runs { (sc : AScenario) (lines : List ALine) (gaps : SomeGaps) (cs : List AChoice)
        → MatchesAll (history_of None sc) lines gaps cs → RunsOrder sc lines gaps cs }
{}

/// What holds of the choices of an order holds of those of an order of prefixes of the logs, as a furthest one is.
pub fn furthest_runs()
    ensures tested { (sc : AScenario) (lines : List ALine) (gaps : SomeGaps) (cs : List AChoice) → IsScenario sc
        → IsInput (history_of None sc) lines gaps → MatchesPrefixes (history_of None sc) lines gaps cs
        → IsScenario (extended sc cs) }
    ensures runs { (sc : AScenario) (lines : List ALine) (gaps : SomeGaps) (cs : List AChoice)
        → MatchesPrefixes (history_of None sc) lines gaps cs → (taken : Actor → ℕ) × RunsPrefix sc lines gaps taken cs }
{}
