//! What holds of the table over every schedule: each function is a law, and its contract is all of it.
ghost use Rattle.std.specs.Prelude.{◌≡◌, ◌≤◌, ◌++◌, ℕ, List, length, take, true, false};
ghost use Rattle.zy_isa.specs.declared.version.Version.TheVariants.{One};
ghost use Rattle.zy_isa.specs.declared.choice.Choice.{Choice as AChoice};
ghost use Rattle.zy_isa.specs.declared.node.Node.{Node};
ghost use Rattle.zy_isa.specs.declared.node.Node.TheVariants.{A, B};
ghost use Rattle.zy_isa.specs.declared.rule.Rule.TheVariants.{Held};
ghost use Rattle.zy_isa.specs.Scenario.{Scenario, IsScenario};
ghost use Rattle.zy_table.specs.Play.{entries, play, opening, step, side_of};
ghost use Rattle.zy_model.specs.declared.mode.NodeMode.TheVariants.{Empty, Normal, SDual};
ghost use Rattle.zy_table.specs.State.{facing};
ghost use Rattle.zy_model.specs.Families.{is_source};
ghost use Rattle.zy_laws.specs.Journey.{OneWireframe, is_gone, is_stray};
ghost use Rattle.zy_laws.specs.Travel.{NeverBack, NoneStarted, Travels};
ghost use Rattle.zy_laws.specs.OneOwner.{OneOwner};
ghost use Rattle.zy_laws.specs.Between.{NothingLeft};
ghost use Rattle.zy_laws.specs.WayOut.{CanEnd, EachActs, NoneActive, NoneActs, Over, enough};
ghost use Rattle.zy_table.specs.Holders.{ExclusiveAlone, HoldersActive};
ghost use Rattle.zy_table.specs.Order.{InOrder};
ghost use Rattle.zy_table.specs.Database.{ValuesAtPages, EachKeyHasPage, HasLows, RowsLie, database, newest};
ghost use Rattle.zy_table.specs.Database.{all_leaves};
ghost use Rattle.zy_laws.specs.Counts.{Safe, HasRoomAtCommit};
ghost use Rattle.zy_table.specs.Serial.{CommitsListed, Serializable};
ghost use Rattle.zy_table.specs.Client.{is_active, is_new};
ghost use Rattle.zy_table.specs.declared.entry.CommitRecord.{CommitRecord};
ghost use Rattle.zy_table.specs.Run.{program_of};
ghost use Rattle.zy_laws.specs.RealTime.{BeginsInOrder, txns_after, txns_now};
ghost use Rattle.zy_laws.specs.Strict.{StrictlySerializable};
ghost use Rattle.zy_laws.specs.Views.{HasPlace, IsOnLoneRun, commits_before, rows_after};
ghost use Rattle.zy_laws.specs.SourceFirst.{SerialIn, at_node, commits_at, migration_order};

/// The counts that make each sum and index safe: a transaction has done at most one instruction for each choice, it has
/// eight registers and a program counter in its program, and there are at most as many commits as transactions.
pub fn safe_counts()
    ensures { (sc : Scenario) → IsScenario sc → (choices : List AChoice)
        → Safe sc (length choices) (play sc (opening sc) choices) }
{}

/// The rows of each page at a node, with the new ones that an active transaction of the node has on it, are at most `cap`;
/// so its commit finds room there.
pub fn room_at_commit()
    ensures { (sc : Scenario) → IsScenario sc → (choices : List AChoice)
        → HasRoomAtCommit sc (play sc (opening sc) choices) }
{}

/// At each node pages rise by number, locks by page, then transaction, rows by key; the longer wireframe has each low key.
pub fn lists_in_order()
    ensures { (sc : Scenario) → IsScenario sc → (choices : List AChoice)
        → InOrder (play sc (opening sc) choices) }
{}

/// Each page is in one place: at a node or in one message.
pub fn one_owner()
    ensures { (sc : Scenario) (choices : List AChoice) → OneOwner (play sc (opening sc) choices) }
{}

/// No outcome is `stray`: no node takes a message that its mode does not know.
pub fn never_stray()
    ensures { (sc : Scenario) (choices : List AChoice) (choice : AChoice)
        → is_stray (step sc choice (play sc (opening sc) choices)).outcome ≡ false }
{}

/// If both nodes have a wireframe, one node is the source, and its wireframe is a prefix of the other's; they are the
/// same until the destination is `normal`. A node that has a wireframe on its way is the source, and the wireframe is its
/// own.
pub fn one_wireframe()
    ensures { (sc : Scenario) (choices : List AChoice) → OneWireframe (play sc (opening sc) choices) }
{}

/// A page appears at the Normal node that splits it off, under the number in the outcome, leaves a source in a
/// message, arrives from the other node at one whose mode takes pages (DDual or DFinish), and moves in no other way.
pub fn pages_travel()
    ensures { (sc : Scenario) (choices : List AChoice) (choice : AChoice) (p : ℕ)
        → let s = play sc (opening sc) choices in Travels p (side_of sc choice s) s (step sc choice s) }
{}

/// At most one node is in a source's mode (SInit, SDual or SFinish), and so, with `pages_travel`, at each point pages leave
/// one node alone.
pub fn one_source()
    ensures { (sc : Scenario) (choices : List AChoice) (n : Node)
        → let s = play sc (opening sc) choices in
        is_source (facing n s).me.mode ≡ true → is_source (facing n s).them.mode ≡ false }
{}

/// A page returns only in another migration. As long as no `start` acts, one that has passed to a node that is no
/// source does not go back: one in a message to that node is later in that message or there, and one that is
/// there stays.
pub fn returns_by_start()
    ensures { (sc : Scenario) (choices more : List AChoice) (p : ℕ) (n : Node)
        → let s = play sc (opening sc) choices in
        NoneStarted (entries sc s more) → is_source (facing n s).me.mode ≡ false → NeverBack p n s (play sc s more) }
{}

/// In version 1 B is never in a source's mode (SInit, SDual or SFinish); so, with `pages_travel`, no page leaves it.
pub fn b_never_sends()
    ensures { (sc : Scenario) → sc.version ≡ One → (choices : List AChoice)
        → is_source (play sc (opening sc) choices).b.mode ≡ false }
{}

/// In version 1 no page goes back: one that is at B stays there, and one in a message from A is later in a message from
/// A or at B, whatever is chosen.
pub fn none_goes_back()
    ensures { (sc : Scenario) → sc.version ≡ One → (choices more : List AChoice) (p : ℕ)
        → let s = play sc (opening sc) choices in NeverBack p B s (play sc s more) }
{}

/// Between two migrations, where one node is Empty and the other Normal, nothing is left of the last one: no message is
/// on its way and no page is asked for, and the empty node has no page and no low key, no lock, and no active
/// transaction.
pub fn nothing_left()
    ensures { (sc : Scenario) → IsScenario sc → (choices : List AChoice) (n : Node)
        → let v = facing n (play sc (opening sc) choices) in
        v.me.mode ≡ Empty → v.them.mode ≡ Normal → NothingLeft n v }
{}

/// No state is a dead end: whatever was chosen, its migration can still be ended. After the choices of `way_out` (each
/// active transaction is killed; then messages are taken, and when none is left a node finishes or pushes) no
/// transaction is active, the node that was the source is Empty and the other Normal, nothing is left of the migration,
/// and commits and database are as they were. It is not said that anybody makes these choices.
pub fn no_dead_end()
    ensures { (sc : Scenario) → IsScenario sc → (choices : List AChoice) → CanEnd sc choices }
{}

/// Migration steps (take, finish, push) run out, in whatever order they are chosen: at most `enough` of them, one after
/// another, change the state. Once none of them would and no transaction is active, the migration is over. It is not said
/// that anybody chooses them.
pub fn migration_steps_run_out()
    ensures { (sc : Scenario) → IsScenario sc → (choices : List AChoice)
        → let s = play sc (opening sc) choices in
        ((more : List AChoice) → EachActs sc s more → length more ≤ enough s) × (NoneActive s → NoneActs sc s → Over s) }
{}

/// A transaction aborts as `gone` only at a source in the dual mode.
pub fn gone_in_dual()
    ensures { (sc : Scenario) → IsScenario sc → (choices : List AChoice) (choice : AChoice)
        → let s = play sc (opening sc) choices in
        is_gone (step sc choice s).outcome ≡ true → (facing (side_of sc choice s) s).me.mode ≡ SDual }
{}

/// Each page shows the low key that the longer of the nodes' wireframes has for it.
pub fn lows_match()
    ensures { (sc : Scenario) → IsScenario sc → (choices : List AChoice)
        → let s = play sc (opening sc) choices in
        HasLows (newest s) (all_leaves s) }
{}

/// Each row lies on the page that the longer of the nodes' wireframes names for its key.
pub fn rows_match()
    ensures { (sc : Scenario) → IsScenario sc → (choices : List AChoice)
        → let s = play sc (opening sc) choices in RowsLie (newest s) (all_leaves s) }
{}

/// Each key has a page, wherever that page is.
pub fn each_key_has_page()
    ensures { (sc : Scenario) → IsScenario sc → (choices : List AChoice)
        → EachKeyHasPage (play sc (opening sc) choices) }
{}

/// What the database has at a key is on the page that the longer of the nodes' wireframes names for it.
pub fn value_at_page()
    ensures { (sc : Scenario) → IsScenario sc → (choices : List AChoice)
        → ValuesAtPages (play sc (opening sc) choices) }
{}

/// The holder of an exclusive lock of a page is the only one that holds a lock of it at its node.
pub fn exclusive_alone()
    ensures { (sc : Scenario) → IsScenario sc → (choices : List AChoice)
        → ExclusiveAlone (play sc (opening sc) choices) }
{}

/// Who holds a lock is active, at that node.
pub fn holders_active()
    ensures { (sc : Scenario) → IsScenario sc → (choices : List AChoice)
        → HoldersActive (play sc (opening sc) choices) }
{}

/// A transaction is in the commit list once where it is committed, and else not at all.
pub fn commits_listed()
    ensures { (sc : Scenario) (choices : List AChoice) → CommitsListed (play sc (opening sc) choices) }
{}

/// Under the rule `held` the database is that of the programs in the commit list, run one by one in its order; a
/// transaction is there once where it is committed, and else not at all; and each has the registers of its lone run.
/// Of `loose` it says nothing: there `strictly_serializable` does, for the migration order.
pub fn serializable()
    ensures { (sc : Scenario) → IsScenario sc → sc.rule ≡ Held → (choices : List AChoice)
        → Serializable sc (play sc (opening sc) choices) }
{}

/// Every run is strictly serializable, under both rules, in the migration order: of each migration first all that
/// committed at its source, then all that committed at its destination, each in commit order. Database and registers are
/// those of the committed transactions, run one by one in this order. Each of these lone runs ends by its commit, and
/// each committed transaction was on its lone run at each point at which it was active (view equivalence, by values). A
/// transaction that aborts was on its lone run, too, from the rows that a prefix of the order produces (opacity's
/// condition on each transaction; no order of all transactions is given). A transaction that commits before another begins
/// precedes it, and those that have committed never change their order.
pub fn strictly_serializable()
    ensures { (sc : Scenario) → IsScenario sc → (choices : List AChoice) → StrictlySerializable sc choices }
{}

/// A transaction that is active was, now and at each earlier point at which it was active, on its lone run from the rows
/// that a prefix of the current migration order produces. At a source this prefix has the commits before the migration
/// and those at the source; elsewhere it has all.
pub fn active_views()
    ensures { (sc : Scenario) → IsScenario sc → (choices : List AChoice) (n t : ℕ)
        → is_active (txns_now sc choices t).status ≡ true → is_active (txns_after sc choices n t).status ≡ true
        → IsOnLoneRun (program_of sc t) (rows_after sc (commits_before sc choices t)) (txns_after sc choices n t) }
{}

/// Places keep to real time: if transaction u has not begun after n of the choices, any place that t has by what it had
/// seen until then is no later than any place of u, in the same order of commits.
pub fn places_in_time()
    ensures { (sc : Scenario) (choices : List AChoice) (order : List CommitRecord) (n t u : ℕ)
        → (p : HasPlace sc (take n choices) t order) → (q : HasPlace sc choices u order)
        → is_new (txns_after sc choices n u).status ≡ true → p.ahead ≤ q.ahead }
{}

/// Of two transactions that commit at different nodes, the one that began first stands first in the migration order. So,
/// with `node_order`, the order of the begins and the order of the commits at each node determine it.
pub fn begins_in_order()
    ensures { (sc : Scenario) → IsScenario sc → (choices : List AChoice) → BeginsInOrder sc choices }
{}

/// The migration order keeps the commits of each node in commit order.
pub fn node_order()
    ensures { (sc : Scenario) (choices : List AChoice) (n : Node)
        → let s = play sc (opening sc) choices in at_node n s (migration_order sc choices) ≡ commits_at n s }
{}

/// In version 1, under both rules, database and registers are those of the committed transactions, each run for as many
/// instructions as it did: first all that committed at A, then all at B, in commit order. The state alone gives this order.
pub fn a_first()
    ensures { (sc : Scenario) → IsScenario sc → sc.version ≡ One → (choices : List AChoice)
        → let s = play sc (opening sc) choices in SerialIn (commits_at A s ++ commits_at B s) sc s }
{}

/// Only commits change values: a step that commits nothing leaves the database as it was, a split among them.
pub fn commits_alone()
    ensures { (sc : Scenario) → IsScenario sc → (choices : List AChoice) (choice : AChoice)
        → let s = play sc (opening sc) choices in
        (step sc choice s).after.commits ≡ s.commits → database (step sc choice s).after ≡ database s }
{}
