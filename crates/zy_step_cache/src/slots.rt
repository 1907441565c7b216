//! Where something that has a digest is looked for.

use std::alloc::{AllocError, Global};

/// Places, each in a slot near that of its digest, with the half of its digest that says which. Nothing is promised of them: what is
/// not found there costs time, and nothing else.
#[derive(Drop)]
pub struct Slots {
    slots: Vec<Slot>,
    taken: usize,
}

/// A place, and the upper half of its digest.
#[derive(Clone, Copy)]
struct Slot {
    place: u32,
    half: u32,
}

/// What is in a slot.
#[derive(Clone, Copy)]
pub enum Look {
    /// Nothing, and nothing in the slots behind it is looked for here.
    Free,
    /// Something that has another digest.
    Other,
    /// What stands at a place, which may have the digest.
    Place(usize),
}

/// How many slots there are at least, and how many for each place at least.
const LEAST_SLOTS: usize = 64;

const SLOTS_PER_PLACE: usize = 2;

/// How many there are at most, which is more than memory holds.
const MOST_SLOTS: usize = 1 << 40;

/// How many slots are looked at, from that of the digest on.
pub const MOST_LOOKS: usize = 64;

/// A slot that is free.
const FREE: Slot = Slot {
    place: u32::MAX,
    half: 0,
};

/// A digest with a number more.
#[inline(always)]
pub fn mixed(digest: u64, number: u64) -> u64 {
    (digest.rotate_left(5) ^ number).wrapping_mul(0x517c_c1b7_2722_0a95)
}

/// The half of a digest that says where to look.
#[inline(always)]
fn half_of(digest: u64) -> u32 {
    (digest >> 32) as u32
}

/// Free slots for this number of places, and for as many more.
fn free_for(alloc: Global, places: usize) -> Result<Vec<Slot>, AllocError> {
    let wanted = places
        .saturating_mul(2 * SLOTS_PER_PLACE)
        .max(LEAST_SLOTS)
        .min(MOST_SLOTS)
        .next_power_of_two();
    let mut slots = Vec::new(alloc);
    slots.resize(wanted, FREE)?;
    Ok(slots)
}

/// The number of the slot for a half of a digest, or of the one this far behind it, among some slots, whose number is a power of two.
#[inline(always)]
fn number_of(slots: usize, half: u32, behind: usize) -> usize {
    (half as usize).wrapping_add(behind) & slots.saturating_sub(1)
}

/// Puts a slot into the first of those for its digest that is free, if one is.
fn put_in(slots: &mut Vec<Slot>, slot: Slot) {
    for behind in 0..MOST_LOOKS {
        let number = number_of(slots.len(), slot.half, behind);
        if let Some(free) = slots.get_mut(number)
            && free.place == FREE.place
        {
            *free = slot;
            return;
        }
    }
}

impl Slots {
    /// No slot. It takes no memory.
    pub fn new(alloc: Global) -> Slots {
        Slots {
            slots: Vec::new(alloc),
            taken: 0,
        }
    }

    /// Makes room for a place more.
    pub fn reserve(&mut self, alloc: Global) -> Result<(), AllocError> {
        let wanted = self.taken.saturating_mul(SLOTS_PER_PLACE).max(LEAST_SLOTS);
        if wanted <= self.slots.len() {
            return Ok(());
        }
        let mut slots = free_for(alloc, self.taken)?;
        for slot in &self.slots {
            if slot.place != FREE.place {
                put_in(&mut slots, *slot);
            }
        }
        self.slots = slots;
        Ok(())
    }

    /// What is in the slot for a digest, or in the one this far behind it.
    #[inline(always)]
    pub fn look(&self, digest: u64, behind: usize) -> Look {
        let half = half_of(digest);
        match self.slots.get(number_of(self.slots.len(), half, behind)) {
            None => Look::Free,
            Some(slot) if slot.place == FREE.place => Look::Free,
            Some(slot) if slot.half == half => Look::Place(slot.place as usize),
            Some(_) => Look::Other,
        }
    }

    /// Puts a place into the first of the slots for a digest that is free, if one is. A place above the highest that a slot holds,
    /// which no search comes to, is not put there.
    pub fn put(&mut self, digest: u64, place: usize) {
        if FREE.place as usize <= place {
            return;
        }
        let slot = Slot {
            place: place as u32,
            half: half_of(digest),
        };
        put_in(&mut self.slots, slot);
        self.taken = self.taken.saturating_add(1);
    }
}
