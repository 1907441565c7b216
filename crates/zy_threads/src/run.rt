//! Three workers on one board.
ghost use Rattle.std.specs.Prelude.{◌≡◌, IfOk};
ghost use Rattle.zy_isa.specs.declared.node.Actor.TheVariants.{C as client, A as node_a, B as node_b};
ghost use Rattle.zy_laws.specs.Throughout.{CanEndThroughout, OwnedThroughout, SerialThroughout, StrictThroughout};
ghost use Rattle.zy_machine.specs.Histories.{choices_of};
ghost use Rattle.zy_threads.specs.Orders.{IsRunOf, reordered};
ghost use Rattle.zy_threads.specs.Turns.{IsLedgerOf, IsMerge};

use crate::board::Board;
use crate::desk::{Client, Desk, NodeA, NodeB, Of, Side};
use crate::gate::{Allowance, Gate, Unlimited};
use crate::work::{Done, Seat, take_seat, work};
use std::alloc::{AllocError, Global};
use std::marker::{Brand, PhantomData};
use std::sync::ledger::{Blank, Book};
use std::sync::{Mutex, Wait};
use std::thread;
use std::thread::Threads;
use zy_isa::{Actor, Scenario};
use zy_laws::laws::{no_dead_end, one_owner, serializable, strictly_serializable};
use zy_machine::{Fault, Machine};

/// Something for each actor: the client, node A and node B.
#[derive(Drop)]
struct PerActor<C, A, B> {
    c: C,
    a: A,
    b: B,
}

impl<C: Drop, A: Drop, B: Drop> PerActor<Option<C>, Option<A>, Option<B>> {
    /// What each actor has; nothing where one of them has nothing.
    fn whole(self) -> Option<PerActor<C, A, B>> {
        let PerActor { c, a, b } = self;
        let c = c?;
        let a = a?;
        let b = b?;
        Some(PerActor { c, a, b })
    }
}

/// The desk of a board on which nobody has taken a turn.
fn open_desk<S: Of, C: Side, A: Side, B: Side>(
    board: Board,
    books: PerActor<Book<C>, Book<A>, Book<B>>,
) -> Desk<S, C, A, B>
    requires cursors { (books.c.total ≡ board.c.cursor) × (books.a.total ≡ board.a.cursor)
        × (books.b.total ≡ board.b.cursor) }
    requires plan { board.machine.scenario ≡ S.plan }
{
    let PerActor { c, a, b } = books;
    Desk {
        board,
        c,
        a,
        b,
        of: PhantomData,
    }
}

/// The machine of a board on which every choice was taken.
fn close<S: Of, C: Side, A: Side, B: Side>(
    desk: Desk<S, C, A, B>,
    done: PerActor<Done<C>, Done<A>, Done<B>>,
) -> Result<Machine, Fault>
    requires c { IsLedgerOf client S.plan.choices C.parts C.turns }
    requires a { IsLedgerOf node_a S.plan.choices A.parts A.turns }
    requires b { IsLedgerOf node_b S.plan.choices B.parts B.turns }
    ensures scenario { IfOk result (λ m. m.scenario ≡ S.plan) }
    ensures merge { IfOk result (λ m. IsMerge (choices_of m.entries) S.plan.choices) }
{
    let PerActor { c, a, b } = done;
    if c.refused || a.refused || b.refused {
        drop(desk);
        return Err(AllocError);
    }
    let Desk {
        board,
        c: mut book_c,
        a: mut book_a,
        b: mut book_b,
        of: _,
    } = desk;
    let Done {
        share: mut share_c,
        taken: _,
        refused: _,
    } = c;
    let Done {
        share: mut share_a,
        taken: _,
        refused: _,
    } = a;
    let Done {
        share: mut share_b,
        taken: _,
        refused: _,
    } = b;
    // Proof: what each worker has counted is its actor's cursor.
    book_c.audit(&mut share_c);
    book_a.audit(&mut share_a);
    book_b.audit(&mut share_b);
    Ok(board.finished())
}

/// What the three workers hand back: nothing where a worker could not be started.
type Crew<C, A, B> = PerActor<Option<Done<C>>, Option<Done<A>>, Option<Done<B>>>;

/// Starts the three workers, and waits for each that was started.
fn run_crew<'x, S, C, A, B, R, G, W>(
    rt: &'x R,
    gate: &'x G,
    allowance: &'x W,
    desk: &'x Mutex<Desk<S, C, A, B>>,
    seats: PerActor<Seat<C>, Seat<A>, Seat<B>>,
) -> Crew<C, A, B>
where
    S: Of + Send + Sync,
    C: Side + Send + Sync,
    A: Side + Send + Sync,
    B: Side + Send + Sync,
    R: Threads + Wait + Sync,
    G: Gate + Sync,
    W: Allowance + Sync,
    requires c { IsLedgerOf client S.plan.choices C.parts C.turns × (seats.c.turns ≡ C.turns) }
    requires a { IsLedgerOf node_a S.plan.choices A.parts A.turns × (seats.a.turns ≡ A.turns) }
    requires b { IsLedgerOf node_b S.plan.choices B.parts B.turns × (seats.b.turns ≡ B.turns) }
{
    let PerActor { c, a, b } = seats;
    thread::scope(
        thread::scope_env(),
        rt,
        move |scope| -> Crew<C, A, B>
            requires c { IsLedgerOf client S.plan.choices C.parts C.turns × (c.turns ≡ C.turns) }
            requires a { IsLedgerOf node_a S.plan.choices A.parts A.turns × (a.turns ≡ A.turns) }
            requires b { IsLedgerOf node_b S.plan.choices B.parts B.turns × (b.turns ≡ B.turns) }
        {
            let one = scope.spawn(
                move || -> Done<C>
                    requires { IsLedgerOf client S.plan.choices C.parts C.turns × (c.turns ≡ C.turns) }
                { work::<Client, _, _, _, _>(rt, gate, allowance, desk, c) },
            );
            let two = scope.spawn(
                move || -> Done<A>
                    requires { IsLedgerOf node_a S.plan.choices A.parts A.turns × (a.turns ≡ A.turns) }
                { work::<NodeA, _, _, _, _>(rt, gate, allowance, desk, a) },
            );
            let three = scope.spawn(
                move || -> Done<B>
                    requires { IsLedgerOf node_b S.plan.choices B.parts B.turns × (b.turns ≡ B.turns) }
                { work::<NodeB, _, _, _, _>(rt, gate, allowance, desk, b) },
            );
            PerActor {
                c: one.ok().map(|thread| thread.join(rt)),
                a: two.ok().map(|thread| thread.join(rt)),
                b: three.ok().map(|thread| thread.join(rt)),
            }
        },
    )
}

/// As `run_allowed`, under the names that the three ledgers have.
fn run_named<S, C, A, B, R, G, W>(
    rt: &R,
    board: Board,
    gate: &G,
    allowance: &W,
    blanks: PerActor<Blank, Blank, Blank>,
) -> Result<Machine, Fault>
where
    S: Of + Send + Sync,
    C: Side + Send + Sync,
    A: Side + Send + Sync,
    B: Side + Send + Sync,
    R: Threads + Wait + Sync,
    G: Gate + Sync,
    W: Allowance + Sync,
    requires board { (board.machine.scenario ≡ S.plan) × (board.c.cursor ≡ 0) × (board.a.cursor ≡ 0)
        × (board.b.cursor ≡ 0) }
    requires c { (blanks.c.name ≡ C.name) × (blanks.c.parts ≡ C.parts)
        × IsLedgerOf client S.plan.choices C.parts C.turns }
    requires a { (blanks.a.name ≡ A.name) × (blanks.a.parts ≡ A.parts)
        × IsLedgerOf node_a S.plan.choices A.parts A.turns }
    requires b { (blanks.b.name ≡ B.name) × (blanks.b.parts ≡ B.parts)
        × IsLedgerOf node_b S.plan.choices B.parts B.turns }
    ensures scenario { IfOk result (λ m. m.scenario ≡ S.plan) }
    ensures merge { IfOk result (λ m. IsMerge (choices_of m.entries) S.plan.choices) }
{
    let PerActor { c, a, b } = blanks;
    let (book_c, share_c) = c.open::<C>();
    let (book_a, share_a) = a.open::<A>();
    let (book_b, share_b) = b.open::<B>();
    let seats = PerActor {
        c: take_seat(share_c, board.turns(Actor::C)),
        a: take_seat(share_a, board.turns(Actor::A)),
        b: take_seat(share_b, board.turns(Actor::B)),
    };
    let books = PerActor {
        c: book_c,
        a: book_a,
        b: book_b,
    };
    let desk = Mutex::new(open_desk::<S, C, A, B>(board, books));
    let crew = run_crew(rt, gate, allowance, &desk, seats);
    let Some(done) = crew.whole() else {
        return Err(AllocError);
    };
    close(desk.into_inner(), done)
}

/// Makes all choices of a scenario by three threads, one for each actor. Where one of them is out of memory it stops,
/// the others go on to their ends, and the answer is out of memory; so it is where a thread cannot be started. It
/// returns once all have ended.
pub fn run_threads(
    rt: &(impl Threads + Wait + Sync),
    alloc: Global,
    scenario: Scenario,
    gate: &(impl Gate + Sync),
) -> Result<Machine, Fault>
    ensures scenario { IfOk result (λ m. m.scenario ≡ scenario) }
    ensures merge { IfOk result (λ m. IsMerge (choices_of m.entries) scenario.choices) }
    // One thread that makes the choices in the order that was taken comes to the same.
    ensures run { IfOk result (λ m. IsRunOf (reordered m.scenario (choices_of m.entries)) m) }
    // At every point of it each page is in one place, the run is strictly serializable, under `held` the database is
    // that of the commits one by one, and the migration can be ended.
    ensures owned { IfOk result (λ m. OwnedThroughout m.scenario (choices_of m.entries)) }
    ensures strict { IfOk result (λ m. StrictThroughout m.scenario (choices_of m.entries)) }
    ensures serial { IfOk result (λ m. SerialThroughout m.scenario (choices_of m.entries)) }
    ensures ends { IfOk result (λ m. CanEndThroughout m.scenario (choices_of m.entries)) }
{
    // Proof: all of this holds at every point of every schedule.
    one_owner();
    strictly_serializable();
    serializable();
    no_dead_end();
    let machine = run_allowed(rt, alloc, scenario, gate, &Unlimited)?;
    // Proof: the machine's state is the replay of its history.
    machine.entries();
    Ok(machine)
}

/// As `run_threads`, under an allowance: a worker whose step it refuses stops, as one that is refused memory does.
pub fn run_allowed<R: Threads + Wait + Sync, G: Gate + Sync, W: Allowance + Sync>(
    rt: &R,
    alloc: Global,
    scenario: Scenario,
    gate: &G,
    allowance: &W,
) -> Result<Machine, Fault>
    ensures scenario { IfOk result (λ m. m.scenario ≡ scenario) }
    ensures merge { IfOk result (λ m. IsMerge (choices_of m.entries) scenario.choices) }
{
    let board = Board::new(alloc, scenario)?;
    let blanks = PerActor {
        c: Blank::new(1),
        a: Blank::new(1),
        b: Blank::new(1),
    };
    run_named::<Brand, Brand, Brand, Brand, R, G, W>(rt, board, gate, allowance, blanks)
}
