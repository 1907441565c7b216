//! What holds of each step of the table from any state, of states that no step tells apart, and of steps that may be made in another
//! order: each function is a law, and its contract is all of it.
ghost use Rattle.std.specs.Prelude.{◌≡◌, ℕ, true, length, List};
ghost use Rattle.zy_isa.specs.declared.choice.Choice.{Choice as AChoice};
ghost use Rattle.zy_isa.specs.declared.choice.Choice.TheVariants.{Run};
ghost use Rattle.zy_isa.specs.declared.node.Node.{Node};
ghost use Rattle.zy_isa.specs.Scenario.{Scenario};
ghost use Rattle.zy_table.specs.Play.{move, step, side_of, play};
ghost use Rattle.zy_table.specs.Observations.{observations};
ghost use Rattle.zy_table.specs.State.{State, View, facing};
ghost use Rattle.zy_steps.specs.Frames.{LeavesTheRest, TxnAndLocks, is_by_itself, taken_back};
ghost use Rattle.zy_steps.specs.Reads.{Agree, SameMove, Changes, seen_by};
ghost use Rattle.zy_steps.specs.Alike.{Alike};
ghost use Rattle.zy_steps.specs.declared.part.StatePart.{StatePart};
ghost use Rattle.zy_table.specs.declared.outcome.Outcome.TheVariants.{Did};
ghost use Rattle.zy_steps.specs.Commute.{Does, AreOfOthers, MayComeFirst};

/// A step changes nothing of the other node, takes at most the first message that has come in, sends at most one, adds at
/// most one commit, and changes at most one transaction.
pub fn a_step_leaves_the_rest()
    ensures { (sc : Scenario) (choice : AChoice) (s : State)
        → LeavesTheRest (facing (side_of sc choice s) s) (facing (side_of sc choice s) (step sc choice s).after) }
{}

/// A `run` whose outcome is `did` or an abort changes its transaction and the locks of its node: all else is as it was.
pub fn a_run_keeps_to_itself()
    ensures { (sc : Scenario) (n : Node) (t : ℕ) (s : State) → is_by_itself (step sc (Run n t) s).outcome ≡ true
        → TxnAndLocks t (facing n s) (facing n (step sc (Run n t) s).after) }
{}

/// Such a run is taken back by its transaction and the locks of its node, as they were before.
pub fn a_run_can_be_taken_back()
    ensures { (sc : Scenario) (n : Node) (t : ℕ) (s : State) → is_by_itself (step sc (Run n t) s).outcome ≡ true
        → taken_back t (facing n s) (facing n (step sc (Run n t) s).after) ≡ facing n s }
{}

/// From two views of a node with equally many transactions that agree in what a choice reads (`Agree`) the same comes of
/// it, and nothing else of them counts. A commit's number is left out, since it is the commit's place among the commits of
/// the view.
pub fn a_step_reads_its_parts()
    ensures { (sc : Scenario) (choice : AChoice) (v w : View) → length v.txns ≡ length w.txns → Agree choice v w
        → SameMove choice v w (move sc choice v) (move sc choice w) }
{}

/// A choice changes only the parts of a view that it writes.
pub fn a_step_writes_its_parts()
    ensures { (sc : Scenario) (choice : AChoice) (v : View) → Changes choice v (move sc choice v).after }
{}

/// Two states that agree on the side that a choice is made from in one: it is made from that side in both, and the same
/// comes of it there.
pub fn a_step_reads_one_side()
    ensures { (sc : Scenario) (choice : AChoice) (s t : State) → length s.txns ≡ length t.txns
        → Agree choice (facing (side_of sc choice s) s) (facing (side_of sc choice s) t)
        → (side_of sc choice t ≡ side_of sc choice s)
        × SameMove choice (facing (side_of sc choice s) s) (facing (side_of sc choice s) t)
        (seen_by (side_of sc choice s) (step sc choice s)) (seen_by (side_of sc choice s) (step sc choice t)) }
{}

/// On that side a step changes only the parts that its choice writes.
pub fn a_step_writes_one_side()
    ensures { (sc : Scenario) (choice : AChoice) (s : State)
        → Changes choice (facing (side_of sc choice s) s) (facing (side_of sc choice s) (step sc choice s).after) }
{}

/// States that are alike step alike: each choice has one outcome and sends one kind of message from both, and leads to
/// states that are alike. They need not be states of a run.
pub fn alike_steps()
    ensures outcome { (part : StatePart) (sc : Scenario) (c : AChoice) (s t : State) → Alike part s t
        → (step sc c s).outcome ≡ (step sc c t).outcome }
    ensures sent { (part : StatePart) (sc : Scenario) (c : AChoice) (s t : State) → Alike part s t
        → (step sc c s).sent ≡ (step sc c t).sent }
    ensures after { (part : StatePart) (sc : Scenario) (c : AChoice) (s t : State) → Alike part s t
        → Alike part (step sc c s).after (step sc c t).after }
{}

/// With locks in order, a `run` that did, here and behind choices of the client and of the other node, may come before them.
pub fn a_run_may_come_first()
    ensures { (sc : Scenario) (n : Node) (t : ℕ) (s : State) (choices : List AChoice) → Does sc n t s → AreOfOthers n choices
        → (step sc (Run n t) (play sc s choices)).outcome ≡ Did → MayComeFirst sc s (Run n t) choices }
{}

/// With locks in order, a `run` whose outcome is `did` changes nothing that the client and the other node see: the steps of their
/// choices show the same after it, also where one of them kills its transaction.
pub fn a_run_is_unseen()
    ensures { (sc : Scenario) (n : Node) (t : ℕ) (s : State) (choices : List AChoice) → Does sc n t s → AreOfOthers n choices
        → observations sc (step sc (Run n t) s).after choices ≡ observations sc s choices }
{}
