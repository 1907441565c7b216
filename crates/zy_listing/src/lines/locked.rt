//! A page with the locks on it.
ghost use Rattle.std.specs.Prelude.{◌≡◌, ◌++◌, OnOk};
ghost use Rattle.zy_listing.specs.Locked.{kind_word, lock_on, lock_text, locks_on};
ghost use Rattle.zy_listing.specs.Locked as spec;

use crate::lines::page::page_line;
use std::alloc::AllocError;
use zy_io::{Decimal, Line, LineBuffer, joined};
use zy_isa::Node;
use zy_machine::Machine;
use zy_model::{Lock, LockKind};
use zy_text::Canonical;

/// How a page is locked: `s` or `x`.
#[derive(Clone, Copy)]
struct LockKindText(LockKind);

impl Line for LockKindText {
    ghost text = { λ k. kind_word k.0 };

    fn append(&self, line: &mut LineBuffer) -> Result<(), AllocError> {
        match self.0 {
            LockKind::Shared => "s".append(line),
            LockKind::Exclusive => "x".append(line),
        }
    }
}

/// A lock of a node.
#[derive(Clone, Copy)]
struct LockText {
    node: Node,
    lock: Lock,
}

impl Line for LockText {
    ghost text = { λ l. lock_text l.node l.lock };

    fn append(&self, line: &mut LineBuffer) -> Result<(), AllocError> {
        let Lock { page: _, txn, kind } = self.lock;
        joined!(
            b' ',
            Canonical(self.node),
            b':',
            Decimal(txn),
            b':',
            LockKindText(kind),
        )
        .append(line)
    }
}

/// A lock of a node, where it is on this page.
#[derive(Clone, Copy)]
struct LockOn {
    node: Node,
    page: u16,
    lock: Lock,
}

impl Line for LockOn {
    ghost text = { λ l. lock_on l.node l.page l.lock };

    fn append(&self, line: &mut LineBuffer) -> Result<(), AllocError> {
        let LockOn { node, page, lock } = *self;
        if lock.page == page {
            LockText { node, lock }.append(line)
        } else {
            Ok(())
        }
    }
}

/// The locks of a node on a page.
#[derive(Clone, Copy)]
struct LocksOn<'a> {
    node: Node,
    page: u16,
    locks: &'a [Lock],
}

impl Line for LocksOn<'_> {
    ghost text = { λ l. locks_on l.node l.page l.locks.now };

    fn append(&self, line: &mut LineBuffer) -> Result<(), AllocError> {
        let (node, page) = (self.node, self.page);
        for lock in self.locks {
            LockOn {
                node,
                page,
                lock: *lock,
            }
            .append(line)?;
        }
        Ok(())
    }
}

/// Appends the line of a page with its locks, or that it is not there, without its end.
pub fn page_reply(machine: &Machine, page: u16, line: &mut LineBuffer) -> Result<(), AllocError>
    ensures { OnOk result (line.new ≡ line.old ++ spec.page_reply machine.now.state page) }
{
    if machine.page(page).is_none() {
        return joined!("page ", Decimal(page), " none").append(line);
    }
    let locks_of_a = LocksOn {
        node: Node::A,
        page,
        locks: machine.locks(Node::A),
    };
    let locks_of_b = LocksOn {
        node: Node::B,
        page,
        locks: machine.locks(Node::B),
    };
    page_line(machine, page, line)?;
    joined!(" locks", locks_of_a, locks_of_b).append(line)
}
