//! What holds of the outcomes of steps: each function is a law, and its contract is all of it.
ghost use Rattle.std.specs.Prelude.{◌≡◌, ◌<◌, ◌≤◌, ℕ, List, [], length, true, false};
ghost use Rattle.zy_isa.specs.declared.choice.Choice.{Choice as AChoice};
ghost use Rattle.zy_isa.specs.declared.choice.Choice.TheVariants.{Start, Run, Take};
ghost use Rattle.zy_isa.specs.declared.node.Node.{Node};
ghost use Rattle.zy_isa.specs.declared.rule.Rule.TheVariants.{Held};
ghost use Rattle.zy_isa.specs.Scenario.{Scenario, IsScenario};
ghost use Rattle.zy_model.specs.Locks.{is_locked};
ghost use Rattle.zy_table.specs.declared.effect.Effect.TheVariants.{Commits};
ghost use Rattle.zy_table.specs.declared.outcome.Outcome.TheVariants as outcome;
ghost use Rattle.zy_table.specs.Client.{is_active, is_new};
ghost use Rattle.zy_table.specs.Pages.{owns};
ghost use Rattle.zy_table.specs.Play.{play, opening, step, side_of};
ghost use Rattle.zy_table.specs.State.{State, facing};
ghost use Rattle.zy_laws.specs.Journey.{is_gone};
ghost use Rattle.zy_outcomes.specs.Accounts.{Accounts, IsNumbered, Says, is_of_run, txn_of};
ghost use Rattle.zy_outcomes.specs.Beginnings.{Begins, MayStart};
ghost use Rattle.zy_outcomes.specs.Coming.{IsAwaited, OnItsWay};
ghost use Rattle.zy_outcomes.specs.GetsOn.{GetsOn};
ghost use Rattle.zy_outcomes.specs.Reasons.{HasReason, IsAlone, Next};

/// A `begin` of a new transaction always acts: there is always a node for it, which is not idle and hands over no page.
pub fn a_begin_acts()
    ensures { (sc : Scenario) → IsScenario sc → (choices : List AChoice) (t : ℕ) → t < length sc.programs
        → let s = play sc (opening sc) choices in is_new (txn_of s t).status ≡ true → Begins sc s t }
{}

/// A `start` acts exactly where a migration may start from a node.
pub fn a_start_acts()
    ensures { (sc : Scenario) (s : State) (n : Node)
        → let x = step sc Start s in
        (x.outcome ≡ outcome.Started → MayStart sc (side_of sc Start s) s) × (MayStart sc n s → x.outcome ≡ outcome.Started) }
{}

/// `waits`, `pulls`, `awaits`, `notyet`, `active`, `held`, `stale` and each abort come only where their reason holds.
pub fn a_refusal_has_its_reason()
    ensures { (sc : Scenario) (choice : AChoice) (s : State)
        → let n = side_of sc choice s in HasReason sc n (facing n s) choice (step sc choice s).outcome }
{}

/// Under the rule `held` a locked page is at its node.
pub fn locked_here()
    ensures { (sc : Scenario) → IsScenario sc → sc.rule ≡ Held → (choices : List AChoice) (n : Node) (p : ℕ)
        → let x = (facing n (play sc (opening sc) choices)).me in is_locked x.locks p ≡ true → owns x.pages p ≡ true }
{}

/// So under `held` no commit finds that a page has gone.
pub fn no_commit_gone()
    ensures { (sc : Scenario) → IsScenario sc → sc.rule ≡ Held → (choices : List AChoice) (n : Node) (t : ℕ)
        → let s = play sc (opening sc) choices in
        Next sc t (facing n s) Commits → is_gone (step sc (Run n t) s).outcome ≡ false }
{}

/// There are never more low keys than the scenario's `pages` allows.
pub fn page_limit()
    ensures { (sc : Scenario) → IsScenario sc → (choices : List AChoice) (n : Node)
        → length (facing n (play sc (opening sc) choices)).me.lows ≤ sc.pages }
{}

/// A transaction did one instruction more where a run of it gives `did` or a commit, and none elsewhere; its registers
/// change at `did` alone.
pub fn done_counts()
    ensures { (sc : Scenario) (choices : List AChoice) (choice : AChoice) (t : ℕ)
        → let s = play sc (opening sc) choices in let x = step sc choice s in
        Accounts choice x.outcome t (txn_of s t) (txn_of x.after t) }
{}

/// Where a step says that it sent a message, one of that kind is put at the end of the acting node's outbound link, and
/// else nothing is.
pub fn sent_is_said()
    ensures { (sc : Scenario) (choice : AChoice) (s : State)
        → let n = side_of sc choice s in let x = step sc choice s in
        Says x.sent (facing n s).outbox (facing n x.after).outbox }
{}

/// Only who is active has private rows.
pub fn private_active()
    ensures { (sc : Scenario) (choices : List AChoice) (t : ℕ)
        → let x = txn_of (play sc (opening sc) choices) t in is_active x.status ≡ false → x.rows ≡ [] }
{}

/// The number of a commit is how many commits there are after the step.
pub fn commit_number()
    ensures { (sc : Scenario) (choice : AChoice) (s : State)
        → let x = step sc choice s in IsNumbered x.outcome x.after.commits }
{}

/// Each page that a node has asked for and not received is on its way: its pull there, or the page back. At most one pull
/// of it is on the link at a time.
pub fn on_its_way()
    ensures { (sc : Scenario) → IsScenario sc → (choices : List AChoice) (n : Node)
        → OnItsWay (facing n (play sc (opening sc) choices)) }
{}

/// A page that a transaction pulls or awaits is one that its node asked for; so, with `on_its_way`, it is on its way.
pub fn what_is_awaited_was_asked_for()
    ensures { (sc : Scenario) (choice : AChoice) (s : State)
        → let x = step sc choice s in IsAwaited x.outcome (facing (side_of sc choice s) x.after).me }
{}

/// A run of an active transaction, at its node, gets on (`did`, `split`, `committed` or an abort), or it waits: for a lock
/// (`waits`), for a page (`pulls`, `awaits`), or for `dual` (`notyet`).
pub fn a_run_gets_on_or_waits()
    ensures { (sc : Scenario) → IsScenario sc → (choices : List AChoice) (t : ℕ)
        → let s = play sc (opening sc) choices in
        is_active (txn_of s t).status ≡ true → is_of_run (step sc (Run (txn_of s t).node t) s).outcome ≡ true }
{}

/// A transaction that alone is active waits for no lock, and no page that it pulls is held at the other node. So, with
/// `a_run_gets_on_or_waits` and `on_its_way`, it gets on, or waits for `dual` or for a page that is on its way.
pub fn alone_waits_for_no_lock()
    ensures { (sc : Scenario) → IsScenario sc → (choices : List AChoice) (t p : ℕ) (n : Node)
        → let s = play sc (opening sc) choices in IsAlone s t
        → ((step sc (Run n t) s).outcome ≡ outcome.Waits p → ⊥) × ((step sc (Take n) s).outcome ≡ outcome.Held p → (txn_of s t).node ≡ n) }
{}

/// There is always a way on. Once the others are killed, an active transaction gets on in at most pages + 2
/// rounds: it does more instructions, of which a commit is one, or aborts, and not by a kill. In a round it runs once, and
/// then messages are taken while there are any, at most `enough` of them. It is not said that anybody makes these choices.
pub fn gets_on()
    ensures { (sc : Scenario) → IsScenario sc → (choices : List AChoice) (t : ℕ)
        → let s = play sc (opening sc) choices in is_active (txn_of s t).status ≡ true → GetsOn sc s t }
{}
