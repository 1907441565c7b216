//! What lies under the lock.
ghost use Rattle.std.specs.Prelude.{◌≡◌, ℕ, length, IfOk, OnErr};
ghost use Rattle.zy_isa.specs.declared.node.Actor.TheVariants.{C as client, A as node_a, B as node_b};
ghost use Rattle.zy_threads.specs.Turns.{Counts, IsTurn, turns_of, sub};

use crate::board::Board;
use crate::gate::Allowance;
use std::alloc::AllocError;
use std::marker::{Brand, PhantomData};
use std::sync::ledger::{Book, Ledger, Share};
use zy_isa::Actor;
use zy_machine::Fault;
use zy_table::Entry;

/// The scenario that the board runs.
pub trait Of {
    ghost use Rattle.zy_isa.specs.Scenario as spec;

    ghost plan: { spec.Scenario };
}

impl Of for Brand {
    ghost use Rattle.std.specs.Prelude.{[]};
    ghost use Rattle.zy_isa.specs.declared.version.Version.TheVariants.{One};
    ghost use Rattle.zy_isa.specs.declared.rule.Rule.TheVariants.{Held};

    ghost plan = { record { version = One; cap = 2; pages = 1; rule = Held; rows = []; programs = []; choices = [] } };
}

/// The ledger of one actor, and how many choices the actor has.
pub trait Side: Ledger {
    ghost turns: { ℕ };
}

impl Side for Brand {
    ghost turns = { 0 };
}

/// What lies under the lock: the board, and for each actor a book whose total is its cursor.
#[derive(Drop)]
pub struct Desk<S: Of, C: Side, A: Side, B: Side> {
    pub board: Board,
    pub c: Book<C>,
    pub a: Book<A>,
    pub b: Book<B>,
    pub of: PhantomData<S>,
    pub ghost same: { board.machine.scenario ≡ S.plan },
    pub ghost of_c: { c.total ≡ board.c.cursor },
    pub ghost of_a: { a.total ≡ board.a.cursor },
    pub ghost of_b: { b.total ≡ board.b.cursor },
}

/// One turn of an actor on a board, which its book counts. Nothing is counted where the turn is refused.
fn take_turn<L: Side, W: Allowance>(
    board: &mut Board,
    book: &mut Book<L>,
    mine: &mut Share<L>,
    actor: Actor,
    allowance: &W,
) -> Result<Option<Entry>, Fault>
    requires one { (mine.old.parts ≡ 1) × (L.parts ≡ 1) }
    requires whole { L.turns ≡ length (sub actor board.old.machine.scenario.choices) }
    requires book { book.old.total ≡ (turns_of board.old actor).cursor }
    ensures counted { IfOk result (λ r. Counts L.turns mine.old.amount r mine.new.amount) }
    ensures turn { IfOk result (λ r. IsTurn actor board.old r board.new) }
    ensures kept { OnErr result ((board.new ≡ board.old) × (mine.new.amount ≡ mine.old.amount)) }
    ensures parts { mine.new.parts ≡ mine.old.parts }
    ensures book { book.new.total ≡ (turns_of board.new actor).cursor }
{
    // Proof: what the worker has counted is its actor's cursor, which is within the actor's choices.
    book.audit(mine);
    board.cursor(actor);
    if !allowance.grants() {
        return Err(AllocError);
    }
    let turn = board.step_next(actor)?;
    if turn.is_some() {
        book.add(mine, 1);
    }
    Ok(turn)
}

/// The client, as the worker that takes its turns.
pub struct Client;

/// Node A, likewise.
pub struct NodeA;

/// Node B, likewise.
pub struct NodeB;

/// What lies under a lock, as the worker of one actor sees it.
pub trait Takes<X> {
    /// The actor's ledger.
    type Own: Side;

    /// How many choices the actor has.
    ghost turns: { ℕ };

    /// The actor.
    fn actor() -> Actor;

    /// One step of the actor, in one hold of the lock.
    fn step<W: Allowance>(
        &mut self,
        mine: &mut Share<Self::Own>,
        allowance: &W,
    ) -> Result<Option<Entry>, Fault>
        requires one { (mine.old.parts ≡ 1) × (Self.Own.parts ≡ 1) }
        requires whole { Self.Own.turns ≡ Self.turns }
        ensures counted { IfOk result (λ r. Counts Self.turns mine.old.amount r mine.new.amount) }
        ensures kept { OnErr result (mine.new.amount ≡ mine.old.amount) }
        ensures parts { mine.new.parts ≡ mine.old.parts };
}

impl<S: Of, C: Side, A: Side, B: Side> Takes<Client> for Desk<S, C, A, B> {
    type Own = C;

    ghost turns = { length (sub client S.plan.choices) };

    fn actor() -> Actor {
        Actor::C
    }

    fn step<W: Allowance>(
        &mut self,
        mine: &mut Share<C>,
        allowance: &W,
    ) -> Result<Option<Entry>, Fault> {
        let Desk {
            board,
            c: book,
            a: _,
            b: _,
            of: _,
        } = self;
        take_turn(board, book, mine, Actor::C, allowance)
    }
}

impl<S: Of, C: Side, A: Side, B: Side> Takes<NodeA> for Desk<S, C, A, B> {
    type Own = A;

    ghost turns = { length (sub node_a S.plan.choices) };

    fn actor() -> Actor {
        Actor::A
    }

    fn step<W: Allowance>(
        &mut self,
        mine: &mut Share<A>,
        allowance: &W,
    ) -> Result<Option<Entry>, Fault> {
        let Desk {
            board,
            c: _,
            a: book,
            b: _,
            of: _,
        } = self;
        take_turn(board, book, mine, Actor::A, allowance)
    }
}

impl<S: Of, C: Side, A: Side, B: Side> Takes<NodeB> for Desk<S, C, A, B> {
    type Own = B;

    ghost turns = { length (sub node_b S.plan.choices) };

    fn actor() -> Actor {
        Actor::B
    }

    fn step<W: Allowance>(
        &mut self,
        mine: &mut Share<B>,
        allowance: &W,
    ) -> Result<Option<Entry>, Fault> {
        let Desk {
            board,
            c: _,
            a: _,
            b: book,
            of: _,
        } = self;
        take_turn(board, book, mine, Actor::B, allowance)
    }
}
