//! What the logs of a run tell of its migration order: each function is a law, and its contract is all of it.
ghost use Rattle.std.specs.Prelude.{◌≡◌, ◌++◌, List};
ghost use Rattle.zy_isa.specs.declared.choice.Choice.{Choice as AChoice};
ghost use Rattle.zy_isa.specs.Scenario.{Scenario, IsScenario};
ghost use Rattle.zy_table.specs.Play.{entries, play, opening};
ghost use Rattle.zy_laws.specs.SourceFirst.{migration_order};
ghost use Rattle.zy_logs.specs.declared.log_line.LogLine.{LogLine as ALine};
ghost use Rattle.zy_order.specs.declared.gaps.Gaps.{Gaps as SomeGaps};
ghost use Rattle.zy_order.specs.Orders.{ToldStep as AStep, IsOrder, choices_told};
ghost use Rattle.zy_order_laws.specs.Complete.{AreComplete};
ghost use Rattle.zy_order_laws.specs.SameLogs.{SameLogs, txns_of};

/// The order of the begins and that of the commits at each node give the migration order: two runs that have both in
/// common have the same transactions in it, in the same order, however their steps were interleaved.
pub fn logs_give_the_order()
    ensures { (sc : Scenario) → IsScenario sc → (one other : List AChoice)
        → SameLogs (entries sc (opening sc) one) (entries sc (opening sc) other)
        → txns_of (migration_order sc one) ≡ txns_of (migration_order sc other) }
{}

/// Whichever order of logs is found, the committed transactions have the same migration order, if the logs have no gaps, each line
/// tells its outcome, and each stands in the log of its choice's actor, so that no node's log has a line of a choice of the client.
pub fn one_migration_order()
    ensures { (sc : Scenario) → IsScenario sc → (before : List AChoice) (lines : List ALine) (gaps : SomeGaps) → AreComplete lines gaps
        → (one other : List AStep) → let s = play sc (opening sc) before in
        IsOrder sc s lines gaps one → IsOrder sc s lines gaps other
        → txns_of (migration_order sc (before ++ choices_told one)) ≡ txns_of (migration_order sc (before ++ choices_told other)) }
{}
