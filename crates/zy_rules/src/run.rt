//! `n run t`, line by line: each function is the line of its name, on the node and the book, whatever the rest of the
//! state.
ghost use Rattle.std.specs.Prelude.{◌≡◌, ◌<◌, ◌≤◌, ◌⊎◌, ◌∷◌, [], None, Ok, Some, IfOk, IsOk, IsSome, length, slice_get};
ghost use Rattle.std.specs.Prelude.{unwrap_or, if◌then◌else◌, true, false};
ghost use Rattle.zy_isa.specs.Limits.{max_pages};
ghost use Rattle.zy_isa.specs.Rows.{get_row};
ghost use Rattle.zy_locks.specs.LockTable.{HasPlaces};
ghost use Rattle.zy_model.specs.declared.lock.LockKind.TheVariants.{Shared, Exclusive};
ghost use Rattle.zy_model.specs.Table.{may_split};
ghost use Rattle.zy_table.specs.State.{View};
ghost use Rattle.zy_table.specs.Pages.{rows_of};
ghost use Rattle.zy_table.specs.Change.{txn_at, locked, shares};
ghost use Rattle.zy_table.specs.Ranges.{range_pages};
ghost use Rattle.zy_table.specs.Run.{first_absent, first_taken, program_of};
ghost use Rattle.zy_table.specs.Run as table;
ghost use Rattle.zy_node.specs.Nodes.{node_shown, IsFree};
ghost use Rattle.zy_node.specs.Wireframes.{lows_in};
ghost use Rattle.zy_txns.specs.Books.{txn_in, with_book, Countable};
ghost use Rattle.zy_rules.specs.Parts.{Does, Runs};
ghost use Rattle.zy_table.specs.Answers.{move_of};
ghost use Rattle.zy_rules.specs.Memory.{AbsentNeedsNone, CommitNeedsNone, EffectNeedsNone, InstrNeedsNone, IsUncut};
ghost use Rattle.zy_rules.specs.Memory.{KeyNeedsNone, PageNeedsNone, PagesNeedNone, RunNeedsNone, SumNeedsNone};
ghost use Rattle.zy_rules.specs.Ready.{IsFull, IsPageFor, IsReady, IsWritable, Rooms};
ghost use Rattle.zy_rules.specs.Ready.{MayAccess, MayShare, MayStep, MaySum};

use crate::sum::sum;
use std::alloc::{AllocError, Global};
use zy_isa::{Instr, Node, Reg, Scenario};
use zy_model::{Kind, LockKind};
use zy_node::NodeStore;
use zy_node::node_store::{fewer_new_rows, gone_page};
use zy_node::wireframe::{page_count, page_of};
use zy_table::{Access, Answer, Effect, Outcome, Why, with_effect};
use zy_txns::{Book, Txn};

/// The lines of a node's run.
#[inline(always)]
#[tactic(auto, unfolding(zy_table::specs::Run::run_step, zy_table::specs::Change::txn_at))]
pub fn run_step(
    scenario: &Scenario,
    alloc: Global,
    n: Node,
    me: &mut NodeStore,
    book: &mut Book,
    t: u8,
) -> Result<Answer, AllocError>
    requires { IsReady scenario.now n t me.old book.old }
    ensures line { Runs me.old book.old me.new book.new result (table.run_step scenario.now n t) }
    ensures memory { RunNeedsNone scenario.now t me.old book.old → IsOk result }
{
    let txn = book.txn(t);
    if !txn.is_active() {
        return Ok(Answer::quiet(Outcome::Idle));
    }
    if txn.node() != n {
        return Ok(Answer::quiet(Outcome::Elsewhere));
    }
    if me.mode.is_waiting() {
        return Ok(Answer::quiet(Outcome::NotYet));
    }
    let instr = next_instr(scenario, t, txn.pc());
    instr_step(scenario, alloc, me, book, t, instr)
}

/// The lines of one instruction.
#[inline(always)]
#[tactic(auto, unfolding(zy_table::specs::Run::instr_step, zy_table::specs::Change::txn_at))]
fn instr_step(
    scenario: &Scenario,
    alloc: Global,
    me: &mut NodeStore,
    book: &mut Book,
    t: u8,
    instr: Instr,
) -> Result<Answer, AllocError>
    requires { MayStep scenario.now t me.old book.old }
    ensures line { Runs me.old book.old me.new book.new result
        (λ v. table.instr_step scenario.now t (Some instr) (txn_at v t).regs v) }
    ensures memory { InstrNeedsNone scenario.now t instr (txn_in t book.old).regs me.old book.old → IsOk result }
{
    with_effect!(instr, book.txn(t).regs(), |effect| {
        effect_step(scenario, alloc, me, book, t, effect)
    })
}

/// The lines of an effect.
#[inline(always)]
#[tactic(auto, unfolding(zy_table::specs::Run::effect_step))]
fn effect_step(
    scenario: &Scenario,
    alloc: Global,
    me: &mut NodeStore,
    book: &mut Book,
    t: u8,
    effect: Effect,
) -> Result<Answer, AllocError>
    requires { MayStep scenario.now t me.old book.old }
    ensures line { Runs me.old book.old me.new book.new result (table.effect_step scenario.now t effect) }
    ensures memory { EffectNeedsNone scenario.now t effect me.old book.old → IsOk result }
{
    match effect {
        Effect::Sets(r, value) => Ok(set_step(book, t, r, value)),
        Effect::Jumps(taken, target) => Ok(jump_step(book, t, taken, target)),
        Effect::Accesses(access, key) => key_step(scenario, alloc, me, book, t, access, key),
        Effect::Sums(r, first, last) => range_step(scenario, me, book, t, r, first, last),
        Effect::Commits => commit_step(me, book, t),
        Effect::Aborts => Ok(abort_step(me, book, t, Why::Own)),
    }
}

/// An abort.
#[inline(never)]
#[tactic(auto, unfolding(zy_table::specs::Run::abort_step, zy_table::specs::Change::aborted, zy_table::specs::Change::txn_at))]
pub fn abort_step(me: &mut NodeStore, book: &mut Book, t: u8, why: Why) -> Answer
    requires { t < length book.old.txns }
    ensures line { Does me.old book.old me.new book.new result (table.abort_step t why) }
{
    me.release(t);
    book.abort(t, why);
    Answer::quiet(Outcome::Aborted(why))
}

/// `set` and `add`: a register gets a value.
#[tactic(auto, unfolding(zy_table::specs::Run::set_step, zy_table::specs::Change::did, zy_table::specs::Change::txn_at))]
fn set_step(book: &mut Book, t: u8, r: Reg, value: u32) -> Answer
    requires { Countable t book.old }
    ensures { (v : View) → move_of result (with_book book.new v) ≡ table.set_step t r value (with_book book.old v) }
{
    book.set(t, r, value);
    Answer::quiet(Outcome::Did)
}

/// `beq`.
#[tactic(auto, unfolding(zy_table::specs::Run::jump_step, zy_table::specs::Change::did, zy_table::specs::Change::txn_at))]
fn jump_step(book: &mut Book, t: u8, taken: bool, target: u32) -> Answer
    requires { Countable t book.old }
    ensures { (v : View) → move_of result (with_book book.new v)
        ≡ table.jump_step t taken target (with_book book.old v) }
{
    let next = book.txn(t).pc() + 1;
    book.go_to(t, pc_after(taken, target, next));
    Answer::quiet(Outcome::Did)
}

/// `commit`.
#[inline(never)]
#[tactic(auto, unfolding(zy_table::specs::Run::commit_step, zy_table::specs::Run::commit_or_gone, zy_table::specs::Change::committed, zy_table::specs::Change::txn_at))]
fn commit_step(me: &mut NodeStore, book: &mut Book, t: u8) -> Result<Answer, AllocError>
    requires counts { Countable t book.old }
    requires room { Rooms t me.old book.old }
    ensures line { Runs me.old book.old me.new book.new result (table.commit_step t) }
    ensures memory { CommitNeedsNone t me.old book.old → IsOk result }
{
    if let Some(p) = gone_page(me, book.txn(t).rows()) {
        return Ok(abort_step(me, book, t, Why::Gone(p)));
    }
    let place = book.commits().len() as u8 + 1;
    book.reserve_commit()?;
    me.install(book.txn(t).rows());
    me.release(t);
    book.commit(t);
    Ok(Answer::quiet(Outcome::Committed(place)))
}

/// A key and its page.
#[inline(never)]
#[tactic(auto, unfolding(zy_table::specs::Run::key_step))]
fn key_step(
    scenario: &Scenario,
    alloc: Global,
    me: &mut NodeStore,
    book: &mut Book,
    t: u8,
    access: Access,
    key: u32,
) -> Result<Answer, AllocError>
    requires { MayAccess scenario.now t me.old book.old }
    ensures line { Runs me.old book.old me.new book.new result (table.key_step scenario.now t access key) }
    ensures memory { KeyNeedsNone scenario.now t access key me.old book.old → IsOk result }
{
    let Ok(key) = u16::try_from(key) else {
        return Ok(abort_step(me, book, t, Why::BadKey));
    };
    let p = page_of(&me.wire, key);
    page_step(scenario, alloc, me, book, t, access, key, p)
}

/// `sum`: no key, a number that is not a key, or the pages of the keys.
#[inline(never)]
#[tactic(auto, unfolding(zy_table::specs::Run::range_step))]
fn range_step(
    scenario: &Scenario,
    me: &mut NodeStore,
    book: &mut Book,
    t: u8,
    r: Reg,
    first: u32,
    last: u32,
) -> Result<Answer, AllocError>
    requires { MaySum scenario.now t me.old book.old }
    ensures line { Runs me.old book.old me.new book.new result (table.range_step t r first last) }
    ensures memory { SumNeedsNone t first last me.old → IsOk result }
{
    if last < first {
        return Ok(set_step(book, t, r, 0));
    }
    match u16::try_from(last) {
        Ok(last) => sum_or_asks(scenario, me, book, t, r, first as u16, last),
        Err(_) => Ok(abort_step(me, book, t, Why::BadKey)),
    }
}

/// `sum`, by the first page that is not here.
#[tactic(auto, unfolding(zy_table::specs::Run::sum_or_asks))]
fn sum_or_asks(
    scenario: &Scenario,
    me: &mut NodeStore,
    book: &mut Book,
    t: u8,
    r: Reg,
    first: u16,
    last: u16,
) -> Result<Answer, AllocError>
    requires may { MaySum scenario.now t me.old book.old }
    requires rises { first ≤ last }
    ensures line { Runs me.old book.old me.new book.new result
        (λ v. table.sum_or_asks t r first last (first_absent v.me.pages (range_pages v.me.lows first last)) v) }
    ensures memory { PagesNeedNone t first last me.old → IsOk result }
{
    match me.absent_page(first, last) {
        Some(p) => absent_step(me, book, t, p),
        None => sum_or_waits(me, book, t, r, first, last),
    }
}

/// `sum` where each page is here, by the first that another has for itself.
#[tactic(auto, unfolding(zy_table::specs::Run::sum_or_waits))]
fn sum_or_waits(
    me: &mut NodeStore,
    book: &mut Book,
    t: u8,
    r: Reg,
    first: u16,
    last: u16,
) -> Result<Answer, AllocError>
    requires counts { Countable t book.old }
    requires rises { first ≤ last }
    ensures line { Runs me.old book.old me.new book.new result
        (λ v. table.sum_or_waits t r first last (first_taken v.me.locks t (range_pages v.me.lows first last)) v) }
    ensures memory { let ps = range_pages (lows_in me.old.wire) first last in
        (first_taken me.old.locks.locks t ps ≡ None → HasPlaces ps t me.old.locks) → IsOk result }
{
    if let Some(p) = me.taken_page(t, first, last) {
        return Ok(Answer::quiet(Outcome::Waits(p)));
    }
    me.reserve_locks(t, first, last)?;
    Ok(sum_step(me, book, t, r, first, last))
}

/// `sum` on pages that are free to be shared.
#[tactic(auto, unfolding(zy_table::specs::Run::sum_step, zy_table::specs::Run::set_step, zy_table::specs::Change::shares, zy_table::specs::Change::did, zy_table::specs::Change::txn_at))]
fn sum_step(me: &mut NodeStore, book: &mut Book, t: u8, r: Reg, first: u16, last: u16) -> Answer
    requires counts { Countable t book.old }
    requires rises { first ≤ last }
    requires pages { MayShare t first last me.old }
    ensures line { Does me.old book.old me.new book.new result
        (λ v. table.sum_step t r first last (shares t (range_pages (lows_in me.old.wire) first last) v)) }
{
    let sum = sum(me, book.txn(t), first, last);
    me.share(t, first, last);
    book.set(t, r, sum);
    Answer::quiet(Outcome::Did)
}

/// A page that is not here: it is asked for, or the transaction has lost it.
#[tactic(auto, unfolding(zy_table::specs::Run::absent_step, zy_table::specs::Change::asks))]
fn absent_step(me: &mut NodeStore, book: &mut Book, t: u8, p: u16) -> Result<Answer, AllocError>
    requires there { t < length book.old.txns }
    requires few { p < max_pages }
    ensures line { Runs me.old book.old me.new book.new result (table.absent_step t p) }
    ensures memory { AbsentNeedsNone p me.old → IsOk result }
{
    if !me.mode.may_pull() {
        return Ok(abort_step(me, book, t, Why::Gone(p)));
    }
    if me.asked.has(p) {
        return Ok(Answer::quiet(Outcome::Awaits(p)));
    }
    me.reserve_post()?;
    me.ask(p);
    Ok(Answer::sends(Outcome::Pulls(p), Kind::Pull))
}

/// `read` on a page that is free for it.
#[tactic(auto, unfolding(zy_table::specs::Run::read_step, zy_table::specs::Change::locked, zy_table::specs::Change::did, zy_table::specs::Change::txn_at))]
fn read_step(
    me: &mut NodeStore,
    book: &mut Book,
    t: u8,
    r: Reg,
    key: u16,
    p: u16,
    at: usize,
) -> Result<Answer, AllocError>
    requires counts { Countable t book.old }
    requires free { IsFree at p t Shared me.old }
    ensures line { Runs me.old book.old me.new book.new result (λ v. table.read_step t r key p (locked t p Shared v)) }
    ensures memory { HasPlaces (p ∷ []) t me.old.locks → IsOk result }
{
    me.reserve_lock(at, p, t)?;
    let value = value(me, book.txn(t), key, p);
    me.lock_at(at, p, t, LockKind::Shared);
    book.set(t, r, value);
    Ok(Answer::quiet(Outcome::Did))
}

/// `write` on a page that is free for it.
#[tactic(auto, unfolding(zy_table::specs::Run::write_step, zy_table::specs::Change::locked, zy_table::specs::Change::did, zy_table::specs::Change::txn_at))]
fn write_step(
    me: &mut NodeStore,
    book: &mut Book,
    t: u8,
    key: u16,
    value: u32,
    p: u16,
    at: usize,
) -> Result<Answer, AllocError>
    requires counts { Countable t book.old }
    requires free { IsFree at p t Exclusive me.old }
    ensures line { Runs me.old book.old me.new book.new result
        (λ v. table.write_step t key value p (locked t p Exclusive v)) }
    ensures memory { let y = txn_in t book.old in (table.is_there key p (node_shown me.old) y ≡ false)
        ⊎ (HasPlaces (p ∷ []) t me.old.locks × IsSome (get_row y.rows key)) → IsOk result }
{
    if !is_there(me, book.txn(t), key, p) {
        return Ok(abort_step(me, book, t, Why::Missing));
    }
    me.reserve_lock(at, p, t)?;
    book.put(t, key, value)?;
    me.lock_at(at, p, t, LockKind::Exclusive);
    Ok(Answer::quiet(Outcome::Did))
}

/// `insert` on a page that is free for it.
#[tactic(auto, unfolding(zy_table::specs::Run::insert_step, zy_table::specs::Change::locked, zy_table::specs::Change::did, zy_table::specs::Change::txn_at))]
fn insert_step(
    scenario: &Scenario,
    alloc: Global,
    me: &mut NodeStore,
    book: &mut Book,
    t: u8,
    key: u16,
    value: u32,
    p: u16,
    at: usize,
) -> Result<Answer, AllocError>
    requires access { MayAccess scenario.now t me.old book.old }
    requires page { IsWritable t key p at me.old }
    ensures line { Runs me.old book.old me.new book.new result
        (λ v. table.insert_step scenario.now t key value p (locked t p Exclusive v)) }
    ensures memory { let y = txn_in t book.old in (table.is_there key p (node_shown me.old) y ≡ true)
        ⊎ ((table.has_room scenario.now p (node_shown me.old) y ≡ false) × IsUncut scenario.now me.old) → IsOk result }
{
    if is_there(me, book.txn(t), key, p) {
        return Ok(abort_step(me, book, t, Why::Duplicate));
    }
    if !has_room(scenario, me, book.txn(t), p) {
        return full_step(scenario, alloc, me, book, t, key, p, at);
    }
    me.reserve_lock(at, p, t)?;
    book.put(t, key, value)?;
    me.lock_at(at, p, t, LockKind::Exclusive);
    Ok(Answer::quiet(Outcome::Did))
}

/// An insert on a full page that is free for it.
#[tactic(auto, unfolding(zy_table::specs::Run::full_step, zy_table::specs::Change::locked))]
fn full_step(
    scenario: &Scenario,
    alloc: Global,
    me: &mut NodeStore,
    book: &mut Book,
    t: u8,
    key: u16,
    p: u16,
    at: usize,
) -> Result<Answer, AllocError>
    requires { IsFull scenario.now t key p at me.old book.old }
    ensures line { Runs me.old book.old me.new book.new result
        (λ v. table.full_step scenario.now t key p (locked t p Exclusive v)) }
    ensures memory { IsUncut scenario.now me.old → IsOk result }
{
    if !me.mode.may_split() {
        return Ok(abort_step(me, book, t, Why::Frozen(p)));
    }
    if page_count(&me.wire) >= usize::from(scenario.pages()) {
        return Ok(abort_step(me, book, t, Why::NoPage));
    }
    split_step(scenario, alloc, me, book, t, key, p, at)
}

/// A full page that is free for it is cut.
fn split_step(
    scenario: &Scenario,
    alloc: Global,
    me: &mut NodeStore,
    book: &Book,
    t: u8,
    key: u16,
    p: u16,
    at: usize,
) -> Result<Answer, AllocError>
    requires full { IsFull scenario.now t key p at me.old book.now }
    requires normal { may_split me.old.mode ≡ true }
    requires more { length (lows_in me.old.wire) < scenario.now.pages }
    ensures { Runs me.old book.now me.new book.now result
        (λ v. table.split_step scenario.now t key p (locked t p Exclusive v)) }
{
    let new_page = page_count(&me.wire) as u16;
    let boundary = boundary(scenario, alloc, me, book.txn(t), p, key)?;
    me.cut(t, p, at, boundary)?;
    Ok(Answer::quiet(Outcome::Split {
        page: p,
        new_page,
        boundary,
    }))
}

/// The page: not here, or another's lock is in the way, or the lock is to be taken, at the place that was found for it.
#[tactic(auto, unfolding(zy_table::specs::Run::page_step, zy_table::specs::Run::access_step))]
fn page_step(
    scenario: &Scenario,
    alloc: Global,
    me: &mut NodeStore,
    book: &mut Book,
    t: u8,
    access: Access,
    key: u16,
    p: u16,
) -> Result<Answer, AllocError>
    requires access { MayAccess scenario.now t me.old book.old }
    requires page { IsPageFor key p me.old }
    ensures line { Runs me.old book.old me.new book.new result (table.page_step scenario.now t access key p) }
    ensures memory { PageNeedsNone scenario.now t access key p me.old book.old → IsOk result }
{
    if !me.pages.owns(p) {
        return absent_step(me, book, t, p);
    }
    let Some(at) = me.locks.free_place(p, t, access.lock()) else {
        return Ok(Answer::quiet(Outcome::Waits(p)));
    };
    match access {
        Access::Reads(r) => read_step(me, book, t, r, key, p, at),
        Access::Writes(value) => write_step(me, book, t, key, value, p, at),
        Access::Inserts(value) => insert_step(scenario, alloc, me, book, t, key, value, p, at),
    }
}

/// Whether a key is private to a transaction or committed on a page.
fn is_there(me: &NodeStore, txn: &Txn, key: u16, p: u16) -> bool
    ensures { result ≡ table.is_there key p (node_shown me.now) txn.now }
{
    txn.get(key).is_some() || me.value(p, key).is_some()
}

/// What a transaction reads at a key: the private row, else the committed row, else 0.
fn value(me: &NodeStore, txn: &Txn, key: u16, p: u16) -> u32
    ensures { result ≡ unwrap_or (get_row txn.now.rows key) (unwrap_or (get_row (rows_of me.now.pages p) key) 0) }
{
    match txn.get(key) {
        Some(value) => value,
        None => me.value(p, key).unwrap_or(0),
    }
}

/// Whether a page has room for a row more, beside the transaction's own new rows.
fn has_room(scenario: &Scenario, me: &NodeStore, txn: &Txn, p: u16) -> bool
    ensures { result ≡ table.has_room scenario.now p (node_shown me.now) txn.now }
{
    let free = usize::from(scenario.cap()).saturating_sub(me.page_len(p));
    let rows = txn.rows();
    rows.len() < free || fewer_new_rows(me, p, rows, free)
}

/// The key at which a full page is split for an insert: that at index `(cap + 1) / 2` among the keys of the page,
/// of the transaction's new rows there, and this one.
fn boundary(
    scenario: &Scenario,
    alloc: Global,
    me: &NodeStore,
    txn: &Txn,
    p: u16,
    key: u16,
) -> Result<u16, AllocError>
    requires { table.has_room scenario.now p (node_shown me.now) txn.now ≡ false }
    ensures { IfOk result (λ b. b ≡ table.boundary scenario.now key p (node_shown me.now) txn.now) }
{
    let cap = usize::from(scenario.cap());
    let keys = me.keys_with(alloc, p, txn.rows(), key)?;
    Ok(keys[(cap + 1) / 2])
}

/// Where a jump goes: to its target where it is taken, else to the next instruction.
fn pc_after(taken: bool, target: u32, next: u32) -> u32
    ensures { result ≡ (if taken then target else next) }
{
    if taken { target } else { next }
}

/// The instruction at a program counter of a transaction.
fn next_instr(scenario: &Scenario, t: u8, pc: u32) -> Instr
    requires program { t < length scenario.now.programs }
    requires pc { pc < length (program_of scenario.now t) }
    ensures { slice_get (program_of scenario.now t) pc ≡ Some result }
{
    scenario.programs()[usize::from(t)].instr(pc as usize)
}
