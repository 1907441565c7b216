//! What a worker does.
ghost use Rattle.std.specs.Prelude.{◌≡◌, if◌then◌else◌};

use crate::desk::{Side, Takes};
use crate::gate::{Allowance, Gate};
use std::sync::ledger::Share;
use std::sync::{Mutex, Wait};

/// What a worker hands back. One that was not refused took all its turns.
#[derive(Drop)]
pub struct Done<L: Side> {
    pub share: Share<L>,
    pub taken: usize,
    pub refused: bool,
    pub ghost one_part: { share.parts ≡ 1 },
    pub ghost counted: { share.amount ≡ taken },
    pub ghost all: { taken ≡ (if refused then taken else L.turns) },
}

/// What is handed back after this number of turns.
fn finish<L: Side>(share: Share<L>, taken: usize, refused: bool) -> Done<L>
    requires { (share.parts ≡ 1) × (share.amount ≡ taken) × (taken ≡ (if refused then taken else L.turns)) }
{
    Done {
        share,
        taken,
        refused,
    }
}

/// What a worker is given: its share of the count, and how many turns it has.
#[derive(Drop)]
pub struct Seat<L: Side> {
    pub share: Share<L>,
    pub turns: usize,
    pub ghost one_part: { share.parts ≡ 1 },
    pub ghost none_taken: { share.amount ≡ 0 },
}

/// The seat of an actor that has taken nothing.
pub fn take_seat<L: Side>(share: Share<L>, turns: usize) -> Seat<L>
    requires { (share.parts ≡ 1) × (share.amount ≡ 0) }
    ensures { result.turns ≡ turns }
{
    Seat { share, turns }
}

/// Takes an actor's steps, each in one hold of the lock.
pub fn work<X, D: Takes<X>, R: Wait, G: Gate, W: Allowance>(
    rt: &R,
    gate: &G,
    allowance: &W,
    desk: &Mutex<D>,
    seat: Seat<D::Own>,
) -> Done<D::Own>
    requires { (D.Own.parts ≡ 1) × (D.Own.turns ≡ D.turns) × (seat.turns ≡ D.turns) }
{
    let Seat { mut share, turns } = seat;
    let mut last = None;
    for taken in 0..turns {
        gate.before(D::actor(), taken + 1, last.as_ref());
        let turn = desk.lock(rt).step(&mut share, allowance);
        match turn {
            Ok(Some(entry)) => last = Some(entry),
            Ok(None) => unreachable!(),
            Err(_) => return finish(share, taken, true),
        }
    }
    finish(share, turns, false)
}
