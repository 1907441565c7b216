//! Sixteen numbered stops.
ghost use Rattle.std.specs.Prelude.{◌≡◌, ◌<◌, IfSome, true, false, slice_get, length};
ghost use Rattle.zy_debug.specs.Slots.{free_slot, with_stop, without_stop, is_set};
ghost use Rattle.zy_debug.specs.Stops.{max_stops, no_stops};

use crate::stop::Stop;
use std::marker::Model;

/// How many stops there may be.
pub const MAX_STOPS: usize = 16;

/// The stops: slot `i`, from 0, is stop `i + 1`.
#[derive(Drop)]
pub struct Stops {
    slots: [Option<Stop>; MAX_STOPS],
}

impl Model for Stops {
    ghost use Rattle.zy_debug.specs.Stops.{Slots};

    ghost Value = { Slots };

    ghost view = { λ s. s.slots };
}

/// The lowest free slot.
fn first_free(slots: &[Option<Stop>]) -> Option<usize>
    ensures slot { result ≡ free_slot slots.now }
    ensures bound { IfSome result (λ i. i < length slots.now) }
{
    slots.iter().position(|slot| slot.is_none())
}

impl Stops {
    /// No stops.
    pub fn new() -> Stops
        ensures { result ≡ no_stops }
    {
        Stops {
            slots: [None; MAX_STOPS],
        }
    }

    /// A stop more, in the lowest free slot, which is returned; none where all are taken.
    pub fn add(&mut self, stop: Stop) -> Option<usize>
        ensures slot { result ≡ free_slot self.old }
        ensures bound { IfSome result (λ i. i < max_stops) }
        ensures stops { self.new ≡ with_stop stop self.old }
    {
        match first_free(&self.slots) {
            Some(i) => {
                self.slots[i] = Some(stop);
                Some(i)
            }
            None => None,
        }
    }

    /// Takes the stop of a slot away. Whether there was one.
    pub fn delete(&mut self, i: usize) -> bool
        ensures found { result ≡ is_set (slice_get self.old i) }
        ensures stops { self.new ≡ without_stop i self.old }
        ensures kept { result ≡ false → self.new ≡ self.old }
    {
        match self.slots.get(i) {
            Some(Some(_)) => {
                self.slots[i] = None;
                true
            }
            _ => false,
        }
    }

    /// The slots in order.
    pub fn slots(&self) -> &[Option<Stop>]
        ensures slots { result.now ≡ self.entry.now }
        ensures count { length result.now ≡ max_stops }
    {
        &self.slots
    }
}
