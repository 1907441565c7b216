//! The locks of one node.
ghost use Rattle.std.specs.Prelude.{◌≡◌, ◌==◌, ◌+◌, ◌<◌, ◌≤◌, IfOk, OnOk, OnErr, IsOk, IsSome, true, false, [], ◌∷◌};
ghost use Rattle.std.specs.Prelude.{length, slice_index_or};
ghost use Rattle.zy_model.specs.Locks.{add_lock, conflict, is_locked, holds_alone, unheld, drop_locks};
ghost use Rattle.zy_model.specs.Locks as locks_locks;
ghost use Rattle.zy_locks.specs.LockTable.{Attempts, HasPlaces};
ghost use Rattle.zy_locks.specs.declared.attempt.Attempt.TheVariants.{Granted};
ghost use Rattle.zy_model.specs.Order.{LocksRise, IsLockPlace, IsFreePlace};
ghost use Rattle.zy_model.specs.Order as locks_order;

use crate::attempt::Attempt;
use std::alloc::{AllocError, Global};
use std::marker::Model;
use zy_model::{Lock, LockKind};

/// The locks of one node, in order of page and then transaction, so that a page's locks are together.
#[derive(Drop)]
pub struct Locks {
    locks: Vec<Lock>,
}

impl Model for Locks {
    ghost use Rattle.std.specs.Prelude.{◌-◌, length};
    ghost use Rattle.std.specs.Vec.{vec_capacity};
    ghost use Rattle.zy_locks.specs.LockTable.{LockTable};
    ghost use Rattle.zy_model.specs.Locks.{LocksAgree};
    ghost use Rattle.zy_model.specs.Order.{LocksRise};

    ghost Value = { LockTable };

    ghost view = { λ a. record { locks = a.locks.items; spare = vec_capacity a.locks - length a.locks.items } };

    ghost invariant = { λ a. LocksRise a.locks.items × LocksAgree a.locks.items };
}

impl Locks {
    /// No locks. It takes no memory.
    pub fn new(alloc: Global) -> Locks
        ensures { result ≡ record { locks = []; spare = 0 } }
    {
        Locks {
            locks: Vec::new(alloc),
        }
    }

    /// Makes room for `n` more locks.
    pub fn reserve(&mut self, n: usize) -> Result<(), AllocError>
        ensures locks { self.new.locks ≡ self.old.locks }
        ensures room { OnOk result (n ≤ self.new.spare) }
        ensures grows { self.old.spare ≤ self.new.spare }
        ensures kept { OnErr result (self.new ≡ self.old) }
        ensures succeeds { n ≤ self.old.spare → IsOk result }
    {
        self.locks.reserve(n)
    }

    /// How many locks there are.
    pub fn len(&self) -> usize
        ensures { result ≡ length self.now.locks }
    {
        self.locks.len()
    }

    /// Whether there are none.
    pub fn is_empty(&self) -> bool
        ensures { result ≡ (length self.now.locks == 0) }
    {
        self.locks.is_empty()
    }

    /// The locks, in order of page and then transaction.
    pub fn locks(&self) -> &[Lock]
        ensures value { result.now ≡ self.now.locks }
        ensures rise { LocksRise self.now.locks }
    {
        self.locks.as_slice()
    }

    /// The lock at index `i`.
    pub fn lock_at(&self, i: usize) -> Lock
        requires { i < length self.now.locks }
        ensures { result ≡ slice_index_or self.now.locks i result }
    {
        self.locks[i]
    }

    /// Whether anyone holds the page.
    pub fn locked(&self, page: u16) -> bool
        ensures { result ≡ is_locked self.now.locks page }
    {
        let at = place(&self.locks, page, 0);
        at < self.len() && self.locks[at].page == page
    }

    /// Where `txn`'s lock on the page is or would be; none where another's lock is in the way.
    pub fn free_place(&self, page: u16, txn: u8, kind: LockKind) -> Option<usize>
        ensures place { IsFreePlace page txn kind self.now.locks result }
        ensures alone { holds_alone self.now.locks page txn ≡ true → IsSome result }
    {
        let at = place(&self.locks, page, txn);
        // Others' locks on the page agree with each other, so those beside the place decide.
        let near = &self.locks[at.saturating_sub(1)..self.len().min(at + 2)];
        if any_clashes(near, page, txn, kind) {
            None
        } else {
            Some(at)
        }
    }

    /// Whether `txn` has a lock on the page.
    pub fn holds(&self, page: u16, txn: u8) -> bool
        ensures { result ≡ locks_locks.holds self.now.locks page txn }
    {
        let at = place(&self.locks, page, txn);
        self.holds_at(at, page, txn)
    }

    /// Whether `txn` has a lock on the page, where its place is known.
    pub fn holds_at(&self, at: usize, page: u16, txn: u8) -> bool
        requires { IsLockPlace page txn self.now.locks at }
        ensures { result ≡ locks_locks.holds self.now.locks page txn }
    {
        at < self.len() && is_held_by(&self.locks[at], page, txn)
    }

    /// Makes room for `txn`'s lock on the page, which is or would be at `at`. A lock that is there has its place.
    pub fn reserve_at(&mut self, at: usize, page: u16, txn: u8) -> Result<(), AllocError>
        requires { IsLockPlace page txn self.old.locks at }
        ensures locks { self.new.locks ≡ self.old.locks }
        ensures room { OnOk result (HasPlaces (page ∷ []) txn self.new) }
        ensures grows { self.old.spare ≤ self.new.spare }
        ensures kept { OnErr result (self.new ≡ self.old) }
        ensures succeeds { HasPlaces (page ∷ []) txn self.old → IsOk result }
    {
        if self.holds_at(at, page, txn) {
            Ok(())
        } else {
            self.reserve(1)
        }
    }

    /// Locks the page for `txn`, or makes the lock that it has stronger, if no other's is in the way: one call for a
    /// caller with nothing else to test or to make room for. One that has looks for the place by `free_place`, makes
    /// all of its room, and takes the lock by `put_at`, which cannot fail.
    #[tactic(auto, using(crate::proofs::Alone::alone_has_place))]
    pub fn try_lock(&mut self, page: u16, txn: u8, kind: LockKind) -> Attempt
        ensures attempt { Attempts page txn kind self.old self.new result }
        ensures alone { holds_alone self.old.locks page txn ≡ true → (result ≡ Granted)
            × (self.new.locks ≡ self.old.locks) }
        ensures room { self.old.spare ≤ self.new.spare + 1 }
    {
        let Some(at) = self.free_place(page, txn, kind) else {
            return Attempt::Conflict;
        };
        if self.reserve_at(at, page, txn).is_err() {
            return Attempt::Memory;
        }
        self.put_at(at, page, txn, kind);
        Attempt::Granted
    }

    /// Locks the page for `txn`, or makes the lock that it has stronger, where nothing is in the way and the lock has a
    /// place. It takes no memory.
    pub fn lock(&mut self, page: u16, txn: u8, kind: LockKind)
        requires free { conflict self.old.locks page txn kind ≡ false }
        requires room { HasPlaces (page ∷ []) txn self.old }
        ensures locks { self.new.locks ≡ add_lock page txn kind self.old.locks }
        ensures room { self.new.spare + length (unheld (page ∷ []) txn self.old.locks) ≡ self.old.spare }
    {
        let at = place(&self.locks, page, txn);
        self.put_at(at, page, txn, kind);
    }

    /// Locks the page like [`Locks::lock`], where the place of the lock is known. Who has the page alone keeps it so,
    /// whatever is asked for.
    pub fn put_at(&mut self, at: usize, page: u16, txn: u8, kind: LockKind)
        requires place { IsLockPlace page txn self.old.locks at }
        requires free { conflict self.old.locks page txn kind ≡ false }
        requires room { HasPlaces (page ∷ []) txn self.old }
        ensures locks { self.new.locks ≡ add_lock page txn kind self.old.locks }
        ensures room { self.new.spare + length (unheld (page ∷ []) txn self.old.locks) ≡ self.old.spare }
        ensures alone { holds_alone self.old.locks page txn ≡ true → self.new.locks ≡ self.old.locks }
    {
        if self.holds_at(at, page, txn) {
            self.locks[at].kind = stronger(self.locks[at].kind, kind);
        } else {
            self.locks.insert(at, Lock { page, txn, kind }).unwrap();
        }
    }

    /// Drops every lock of `txn`, and keeps the room.
    pub fn release_all(&mut self, txn: u8)
        ensures locks { self.new.locks ≡ drop_locks txn self.old.locks }
        ensures room { length self.new.locks + self.new.spare ≡ length self.old.locks + self.old.spare }
    {
        self.locks.retain(|lock| lock.txn != txn);
    }

    /// Makes room to become a copy of other locks.
    pub fn reserve_copy(&mut self, other: &Locks) -> Result<(), AllocError>
        ensures locks { self.new.locks ≡ self.old.locks }
        ensures room { OnOk result (length other.now.locks ≤ length self.new.locks + self.new.spare) }
        ensures grows { self.old.spare ≤ self.new.spare }
        ensures kept { OnErr result (self.new ≡ self.old) }
        ensures succeeds { length other.now.locks ≤ length self.old.locks + self.old.spare → IsOk result }
    {
        let more = other.len().saturating_sub(self.len());
        self.locks.reserve(more)
    }

    /// Becomes a copy of other locks, for which there is room. It takes no memory.
    pub fn set_to(&mut self, other: &Locks)
        requires { length other.now.locks ≤ length self.old.locks + self.old.spare }
        ensures { self.new.locks ≡ other.now.locks }
    {
        self.locks.clear();
        self.locks.extend_from_slice(&other.locks).unwrap();
    }

    /// A copy of the locks.
    pub fn copy(&self, alloc: Global) -> Result<Locks, AllocError>
        ensures { IfOk result (λ copy. copy.locks ≡ self.now.locks) }
    {
        let mut locks = Vec::with_capacity(alloc, self.len())?;
        locks.extend_from_slice(&self.locks)?;
        Ok(Locks { locks })
    }
}

/// Whether a lock comes before `txn`'s lock on the page.
fn comes_before(lock: &Lock, page: u16, txn: u8) -> bool
    ensures { result ≡ locks_order.comes_before lock.now page txn }
{
    lock.page < page || (lock.page == page && lock.txn < txn)
}

/// Whether it is `txn`'s lock on the page.
fn is_held_by(lock: &Lock, page: u16, txn: u8) -> bool
    ensures { result ≡ locks_order.is_held_by lock.now page txn }
{
    lock.page == page && lock.txn == txn
}

/// How many locks come before `txn`'s lock on the page.
fn place(locks: &[Lock], page: u16, txn: u8) -> usize
    requires { LocksRise locks.now }
    ensures { IsLockPlace page txn locks.now result }
{
    locks.partition_point(|lock| comes_before(lock, page, txn))
}

/// Whether a lock keeps `txn` from locking the page.
fn clashes(lock: &Lock, page: u16, txn: u8, kind: LockKind) -> bool
    ensures { result ≡ locks_locks.clashes page txn kind lock.now }
{
    lock.page == page && lock.txn != txn && !(is_shared(lock.kind) && is_shared(kind))
}

/// Whether one of some locks does.
fn any_clashes(locks: &[Lock], page: u16, txn: u8, kind: LockKind) -> bool
    ensures { result ≡ conflict locks.now page txn kind }
{
    locks.iter().any(|lock| clashes(lock, page, txn, kind))
}

fn is_shared(kind: LockKind) -> bool
    ensures { result ≡ locks_locks.is_shared kind }
{
    match kind {
        LockKind::Shared => true,
        LockKind::Exclusive => false,
    }
}

/// What a lock becomes by a further ask.
fn stronger(held: LockKind, asked: LockKind) -> LockKind
    ensures { result ≡ locks_locks.stronger held asked }
{
    match held {
        LockKind::Shared => asked,
        LockKind::Exclusive => LockKind::Exclusive,
    }
}
