//! Which numbers of a state's parts a choice reads, and which it writes.
ghost use Rattle.std.specs.Prelude.{◌≡◌, ◌==◌, ◌&&◌, ◌+◌, ◌*◌, ◌<◌, ℕ, List, drop, length, map};
ghost use Rattle.zy_isa.specs.declared.choice.Choice.TheVariants.{Run};
ghost use Rattle.zy_step_cache.specs.Places as spec;
ghost use Rattle.zy_step_cache.specs.Places.{numbers_end};
ghost use Rattle.zy_step_cache.specs.Rests as rests;
ghost use Rattle.zy_state_ids.specs.Codes as codes;
ghost use Rattle.zy_table.specs.State as table;

use zy_isa::{Choice, Node};
use zy_model::NodeMode;
use zy_state_ids::PartTable;
use zy_state_ids::codes::{mode_code, node_code};

/// What a run reads and writes beside its node and its transaction.
#[derive(Clone, Copy, PartialEq, Eq)]
pub enum Scope {
    /// Nothing.
    Own,
    /// The link from its node.
    Link,
    /// The commits.
    Commits,
}

/// What a choice reads of the numbers of a state: those at four places, and one beside them.
#[derive(Clone, Copy, PartialEq, Eq)]
pub struct Read {
    /// What it reads beside: the modes, the lowest active transaction, the scope of a run, or 0.
    pub beside: u32,
    /// The number at the first of its places.
    pub first: u32,
    /// The number at the second one.
    pub second: u32,
    /// The number at the third one.
    pub third: u32,
    /// The number at the fourth one.
    pub fourth: u32,
}

/// The place of a node.
#[inline(always)]
pub fn node_place(n: Node) -> usize
    ensures { result ≡ spec.node_place n }
{
    match n {
        Node::A => 0,
        Node::B => 1,
    }
}

/// The place of the link from a node.
#[inline(always)]
pub fn link_place(n: Node) -> usize
    ensures { result ≡ spec.link_place n }
{
    match n {
        Node::A => 2,
        Node::B => 3,
    }
}

/// The node that a node is not.
#[inline(always)]
fn other(n: Node) -> Node
    ensures { result ≡ table.other n }
{
    match n {
        Node::A => Node::B,
        Node::B => Node::A,
    }
}

/// The place of the commits.
pub const COMMITS_PLACE: usize = 4;

/// The place of a transaction.
#[inline(always)]
pub fn txn_place(t: u8) -> usize
    ensures { result ≡ spec.txn_place t }
{
    5 + usize::from(t)
}

/// The number at a place, or 0.
#[inline(always)]
pub fn at(numbers: &[u32], place: usize) -> u32
    ensures { result ≡ spec.at numbers.now place }
{
    match numbers.get(place) {
        Some(number) => *number,
        None => 0,
    }
}

/// A byte of the part that has a number, or 0.
fn byte_of(table: &PartTable, number: u32, i: usize) -> u8
    ensures { result ≡ spec.byte_of table.now number i }
{
    match table.bytes(number) {
        Some(bytes) => match bytes.get(i) {
            Some(byte) => *byte,
            None => 0,
        },
        None => 0,
    }
}

/// Whether the transaction whose part has a number is active.
fn is_active_in(table: &PartTable, number: u32) -> bool
    ensures { result ≡ spec.is_active_in table.now number }
{
    byte_of(table, number, 0) == 1
}

/// The place of its node, if it is.
fn home_in(table: &PartTable, number: u32) -> usize
    ensures { result ≡ spec.home_in table.now number }
{
    usize::from(byte_of(table, number, 2))
}

/// Whether the transaction whose part has a number is active at a node.
fn is_active_at(table: &PartTable, n: Node, number: u32) -> bool
    ensures { result ≡ (spec.is_active_in table.now number && (spec.home_in table.now number == codes.node_code n)) }
{
    is_active_in(table, number) && home_in(table, number) == node_code(n) as usize
}

/// Whether the transaction whose part has a number has not begun.
fn is_new_in(table: &PartTable, number: u32) -> bool
    ensures { result ≡ rests.is_new_in table.now number }
{
    byte_of(table, number, 0) == 0
}

/// Whether there is a transaction with this number.
#[inline(always)]
fn has_txn(numbers: &[u32], t: u8) -> bool
    ensures { result ≡ rests.has_txn numbers.now t }
{
    txn_place(t) < numbers.len()
}

/// Whether a link is empty: its part begins with how many messages there are.
fn is_empty_in(table: &PartTable, number: u32) -> bool
    ensures { result ≡ rests.is_empty_in table.now number }
{
    byte_of(table, number, 0) == 0
}

/// Whether the node whose part has a number is in a mode.
fn is_mode_in(table: &PartTable, number: u32, mode: NodeMode) -> bool
    ensures { result ≡ rests.is_mode_in table.now number mode }
{
    u64::from(mode_in(table, number)) == mode_code(mode)
}

/// Whether a migration may start from one node to another, by the numbers of their parts.
fn may_start_in(table: &PartTable, from: u32, to: u32) -> bool
    ensures { result ≡ rests.may_start_in table.now from to }
{
    is_mode_in(table, from, NodeMode::Normal) && is_mode_in(table, to, NodeMode::Empty)
}

/// Whether nothing comes of a choice, by a byte or two of the parts that it reads: of a begin of a transaction that has begun, of a
/// kill of one that is not active, of a run of one that is not active at the run's node, of a take from an empty link, and of a
/// start, a finish and a push in another mode.
pub fn rests(table: &PartTable, choice: Choice, numbers: &[u32]) -> bool
    ensures { result ≡ rests.rests table.now choice numbers.now }
{
    match choice {
        Choice::Start => {
            let (a, b) = (at(numbers, 0), at(numbers, 1));
            !may_start_in(table, a, b) && !may_start_in(table, b, a)
        }
        Choice::Begin(t) => has_txn(numbers, t) && !is_new_in(table, at(numbers, txn_place(t))),
        Choice::Kill(t) => has_txn(numbers, t) && !is_active_in(table, at(numbers, txn_place(t))),
        Choice::Run(n, t) => {
            has_txn(numbers, t) && !is_active_at(table, n, at(numbers, txn_place(t)))
        }
        Choice::Take(n) => is_empty_in(table, at(numbers, link_place(other(n)))),
        Choice::Finish(n) => !is_mode_in(table, at(numbers, node_place(n)), NodeMode::SDual),
        Choice::Push(n) => !is_mode_in(table, at(numbers, node_place(n)), NodeMode::SFinish),
    }
}

/// The lowest of some transactions that is active at a node, plus 1, or 0.
fn lowest_in(table: &PartTable, n: Node, numbers: &[u32]) -> u32
    requires { length numbers.now < numbers_end }
    ensures { result ≡ spec.lowest_in table.now n 0 numbers.now }
{
    for t in 0..numbers.len() {
        if is_active_at(table, n, numbers[t]) {
            return t as u32 + 1;
        }
    }
    0
}

/// The places that a run writes.
fn run_places(n: Node, t: u8, scope: Scope) -> [usize; 4]
    ensures { result ≡ spec.run_places n t scope }
{
    let (node, txn) = (node_place(n), txn_place(t));
    match scope {
        Scope::Own => [node, txn, txn, txn],
        Scope::Link => [node, txn, link_place(n), link_place(n)],
        Scope::Commits => [node, txn, COMMITS_PLACE, COMMITS_PLACE],
    }
}

/// The places that a kill writes.
fn kill_places(table: &PartTable, place: usize, number: u32) -> [usize; 4]
    ensures { result ≡ spec.kill_places table.now place number }
{
    let home = if is_active_in(table, number) {
        home_in(table, number)
    } else {
        place
    };
    [place, home, home, home]
}

/// The places that a choice writes, some of them twice; it reads what is there.
pub fn places(table: &PartTable, choice: Choice, scope: Scope, numbers: &[u32]) -> [usize; 4]
    ensures { result ≡ spec.places table.now choice scope numbers.now }
{
    match choice {
        Choice::Start => [0, 1, 2, 3],
        Choice::Begin(t) => [txn_place(t); 4],
        Choice::Kill(t) => kill_places(table, txn_place(t), at(numbers, txn_place(t))),
        Choice::Run(n, t) => run_places(n, t, scope),
        Choice::Take(n) => [
            node_place(n),
            link_place(n),
            link_place(other(n)),
            link_place(other(n)),
        ],
        Choice::Finish(n) => [node_place(n), link_place(n), link_place(n), link_place(n)],
        Choice::Push(n) => [node_place(n), link_place(n), link_place(n), link_place(n)],
    }
}

/// The code of the mode of the node whose part has a number.
fn mode_in(table: &PartTable, number: u32) -> u32
    ensures value { result ≡ spec.mode_in table.now number }
    ensures few { result < 256 }
{
    u32::from(byte_of(table, number, 0))
}

/// The codes of the modes of both nodes, as one number.
fn modes_in(table: &PartTable, numbers: &[u32]) -> u32
    ensures { result ≡ spec.mode_in table.now (spec.at numbers.now 0) * 256 + spec.mode_in table.now (spec.at numbers.now 1) }
{
    mode_in(table, at(numbers, 0)) * 256 + mode_in(table, at(numbers, 1))
}

/// The numbers of transactions among those of a state.
fn txns_of(numbers: &[u32]) -> &[u32]
    ensures { result.now ≡ drop 5 numbers.entry.now }
{
    match numbers.get(5..) {
        Some(txns) => txns,
        None => &[],
    }
}

/// The number of a scope.
#[inline(always)]
fn scope_code(scope: Scope) -> u32
    ensures { result ≡ spec.scope_code scope }
{
    match scope {
        Scope::Own => 0,
        Scope::Link => 1,
        Scope::Commits => 2,
    }
}

/// What a choice reads beside: the modes, the lowest active transaction, the scope of a run, or 0.
fn beside(table: &PartTable, choice: Choice, scope: Scope, numbers: &[u32]) -> u32
    requires { length numbers.now < numbers_end }
    ensures { result ≡ spec.beside table.now choice scope numbers.now }
{
    match choice {
        Choice::Begin(_) => modes_in(table, numbers),
        Choice::Finish(n) => lowest_in(table, n, txns_of(numbers)),
        Choice::Run(_, _) => scope_code(scope),
        Choice::Start => 0,
        Choice::Kill(_) => 0,
        Choice::Take(_) => 0,
        Choice::Push(_) => 0,
    }
}

/// The numbers at four places.
pub fn at_places(numbers: &[u32], places: [usize; 4]) -> [u32; 4]
    ensures { result ≡ map (spec.at numbers.now) places }
{
    [
        at(numbers, places[0]),
        at(numbers, places[1]),
        at(numbers, places[2]),
        at(numbers, places[3]),
    ]
}

/// What is read at the four places, and beside.
fn reads_of_most(table: &PartTable, choice: Choice, scope: Scope, numbers: &[u32]) -> Read
    requires { length numbers.now < numbers_end }
    ensures { result ≡ spec.reads table.now choice scope numbers.now }
{
    let [first, second, third, fourth] = at_places(numbers, places(table, choice, scope, numbers));
    Read {
        beside: beside(table, choice, scope, numbers),
        first,
        second,
        third,
        fourth,
    }
}

/// What is read at the four places, and beside, by a run, which has a function of its own since most choices are runs.
fn reads_of_run(n: Node, t: u8, scope: Scope, numbers: &[u32]) -> Read
    ensures { (table : List (List ℕ)) → result ≡ spec.reads table (Run n t) scope numbers.now }
{
    let txn = at(numbers, txn_place(t));
    let last = match scope {
        Scope::Own => txn,
        Scope::Link => at(numbers, link_place(n)),
        Scope::Commits => at(numbers, COMMITS_PLACE),
    };
    Read {
        beside: scope_code(scope),
        first: at(numbers, node_place(n)),
        second: txn,
        third: last,
        fourth: last,
    }
}

/// All that a choice reads.
pub fn reads(table: &PartTable, choice: Choice, scope: Scope, numbers: &[u32]) -> Read
    requires { length numbers.now < numbers_end }
    ensures { result ≡ spec.reads table.now choice scope numbers.now }
{
    match choice {
        Choice::Run(n, t) => reads_of_run(n, t, scope, numbers),
        _ => reads_of_most(table, choice, scope, numbers),
    }
}
