//! Parts of a machine that grow: low keys, locks, messages and private rows.
ghost use Rattle.std.specs.Prelude.{◌≡◌};

use crate::sweeping::{Subject, Trouble};
use std::alloc::Global;
use zy_isa::Node;
use zy_links::{Link, Message};
use zy_locks::{Attempt, Locks};
use zy_model::LockKind;
use zy_txns::Txn;
use zy_wire::{Wire, WireFault};

/// How often each part grows. A wireframe of 20 pages has split tree nodes.
const COUNT: usize = 20;

/// The key for a place. The keys are in no order.
fn key_of(place: usize) -> u16 {
    (place % 23) as u16 * 7 % 23 * 100 + 50
}

/// Adds a page with this low key, unless a page has it.
fn grown(wire: &mut Wire, low: u16) -> Result<(), WireFault> {
    let page = wire.page_of(low);
    if wire.low_of(page) == low {
        return Ok(());
    }
    wire.grow(low)
}

impl Subject for Wire {
    fn make(alloc: Global, _input: &[u8]) -> Result<Wire, Trouble> {
        Ok(Wire::new(alloc, 512)?)
    }

    fn len(&self) -> usize {
        COUNT
    }

    fn call(&mut self, place: usize) -> Result<(), Trouble> {
        Ok(grown(self, key_of(place))?)
    }

    /// The low keys, and where the tree finds each of them.
    fn is_same(&self, other: &Wire) -> bool {
        let mut lows = self.lows().iter();
        self.depth() == other.depth()
            && self.lows() == other.lows()
            && lows.all(|low| self.page_of(*low) == other.page_of(*low))
    }
}

/// Two transactions share five pages, then both ask for exclusive locks on five others. The second request for each page
/// conflicts, and changes nothing.
impl Subject for Locks {
    fn make(alloc: Global, _input: &[u8]) -> Result<Locks, Trouble> {
        Ok(Locks::new(alloc))
    }

    fn len(&self) -> usize {
        COUNT
    }

    fn call(&mut self, place: usize) -> Result<(), Trouble> {
        let kind = if place < 10 {
            LockKind::Shared
        } else {
            LockKind::Exclusive
        };
        match self.try_lock(key_of(place / 2), (place % 2) as u8, kind) {
            Attempt::Granted | Attempt::Conflict => Ok(()),
            Attempt::Memory => Err(Trouble::Memory),
        }
    }

    fn is_same(&self, other: &Locks) -> bool {
        self.locks() == other.locks()
    }
}

/// The page that a message asks for.
fn page_of(message: &Message) -> Option<u16> {
    match message {
        Message::Pull(page) => Some(*page),
        _ => None,
    }
}

impl Subject for Link {
    fn make(alloc: Global, _input: &[u8]) -> Result<Link, Trouble> {
        Ok(Link::new(alloc))
    }

    fn len(&self) -> usize {
        COUNT
    }

    fn call(&mut self, place: usize) -> Result<(), Trouble> {
        self.reserve()?;
        self.send(Message::Pull(key_of(place)));
        Ok(())
    }

    fn is_same(&self, other: &Link) -> bool {
        let count = Link::len(self);
        if count != Link::len(other) {
            return false;
        }
        for i in 0..count {
            if page_of(self.message_at(i)) != page_of(other.message_at(i)) {
                return false;
            }
        }
        true
    }
}

impl Subject for Txn {
    fn make(alloc: Global, _input: &[u8]) -> Result<Txn, Trouble> {
        let mut txn = Txn::new(alloc);
        txn.begin(Node::B);
        Ok(txn)
    }

    fn len(&self) -> usize {
        COUNT
    }

    fn call(&mut self, place: usize) -> Result<(), Trouble> {
        if self.pc() > 1000 || self.done() > 1000 {
            return Err(Trouble::Fault);
        }
        Ok(self.put(key_of(place), 7)?)
    }

    fn is_same(&self, other: &Txn) -> bool {
        self.pc() == other.pc() && self.done() == other.done() && self.rows() == other.rows()
    }
}
