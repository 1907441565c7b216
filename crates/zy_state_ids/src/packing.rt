//! The bytes of what a state is made of, put behind what a `Vec` holds.
ghost use Rattle.std.specs.Prelude.{◌≡◌, ◌++◌, [], ℕ, List, OnOk};
ghost use Rattle.std.specs.List.{flat_map};
ghost use Rattle.zy_links.specs.Messages.{message_of, messages_of};
ghost use Rattle.zy_state_ids.specs.Codes.{bare};
ghost use Rattle.zy_state_ids.specs.Packed as spec;

use crate::codes::{lock_code, node_code, status_code, status_page};
use std::alloc::AllocError;
use zy_isa::Row;
use zy_links::{Link, Message};
use zy_model::Lock;
use zy_page::Page;
use zy_table::CommitRecord;
use zy_txns::Txn;

/// What has bytes.
pub trait Packed {
    // Its bytes.
    ghost bytes: { Self → List ℕ };

    /// Puts its bytes behind what the `Vec` holds. Out of memory, a prefix of them may be there.
    fn put(&self, out: &mut Vec<u8>) -> Result<(), AllocError>
        ensures { OnOk result (out.new.items ≡ out.old.items ++ bytes self.now) };
}

/// The four bytes of a number, from the highest down.
fn quad(number: u32) -> [u8; 4]
    ensures { result ≡ spec.quad number }
{
    let (high, low) = (number / 65536, number % 65536);
    [
        (high / 256) as u8,
        (high % 256) as u8,
        (low / 256) as u8,
        (low % 256) as u8,
    ]
}

/// Puts a number that two bytes do not hold.
fn put_long(number: u64, out: &mut Vec<u8>) -> Result<(), AllocError>
    ensures { OnOk result (out.new.items ≡ out.old.items ++ spec.long number) }
{
    out.push(255)?;
    out.extend_from_slice(&quad((number / 4_294_967_296) as u32))?;
    out.extend_from_slice(&quad((number % 4_294_967_296) as u32))
}

/// Puts a number.
pub fn put_number(number: u64, out: &mut Vec<u8>) -> Result<(), AllocError>
    ensures { OnOk result (out.new.items ≡ out.old.items ++ spec.number number) }
{
    if number < 254 {
        out.push(number as u8)?;
        return Ok(());
    }
    if number < 65536 {
        return out.extend_from_slice(&[254, (number / 256) as u8, (number % 256) as u8]);
    }
    put_long(number, out)
}

/// Puts how many items there are, and each of them.
pub fn put_items<P: Packed>(items: &[P], out: &mut Vec<u8>) -> Result<(), AllocError>
    ensures { OnOk result (out.new.items ≡ out.old.items ++ spec.items P.bytes items.now) }
{
    put_number(items.len() as u64, out)?;
    for item in items {
        item.put(out)?;
    }
    Ok(())
}

impl Packed for u16 {
    ghost bytes = { spec.number };

    fn put(&self, out: &mut Vec<u8>) -> Result<(), AllocError> {
        put_number(u64::from(*self), out)
    }
}

impl Packed for u32 {
    ghost bytes = { spec.number };

    fn put(&self, out: &mut Vec<u8>) -> Result<(), AllocError> {
        put_number(u64::from(*self), out)
    }
}

impl Packed for Row {
    ghost bytes = { spec.row };

    fn put(&self, out: &mut Vec<u8>) -> Result<(), AllocError> {
        self.key.put(out)?;
        self.value.put(out)
    }
}

impl Packed for Page {
    ghost bytes = { spec.leaf };

    fn put(&self, out: &mut Vec<u8>) -> Result<(), AllocError> {
        self.number().put(out)?;
        self.low().put(out)?;
        put_items(self.rows(), out)
    }
}

impl Packed for Lock {
    ghost bytes = { spec.lock };

    fn put(&self, out: &mut Vec<u8>) -> Result<(), AllocError> {
        self.page.put(out)?;
        put_number(u64::from(self.txn), out)?;
        put_number(lock_code(self.kind), out)
    }
}

impl Packed for CommitRecord {
    ghost bytes = { spec.commit };

    fn put(&self, out: &mut Vec<u8>) -> Result<(), AllocError> {
        put_number(u64::from(self.txn), out)?;
        self.done.put(out)
    }
}

impl Packed for Txn {
    ghost bytes = { spec.txn };

    fn put(&self, out: &mut Vec<u8>) -> Result<(), AllocError> {
        put_number(status_code(self.status()), out)?;
        status_page(self.status()).put(out)?;
        put_number(node_code(self.node()), out)?;
        put_progress(self, out)
    }
}

/// Puts how far a transaction is: its place, registers and private rows, and how much it has done.
fn put_progress(txn: &Txn, out: &mut Vec<u8>) -> Result<(), AllocError>
    ensures { OnOk result (out.new.items ≡ out.old.items ++ (spec.number txn.now.pc
        ++ (spec.numbers txn.now.regs ++ (spec.items spec.row txn.now.rows ++ spec.number txn.now.done)))) }
{
    txn.pc().put(out)?;
    put_items(txn.regs(), out)?;
    put_items(txn.rows(), out)?;
    txn.done().put(out)
}

/// Puts a message with nothing but its number, and that of the page that it asks for, or 0.
fn put_plain(code: u64, page: u16, out: &mut Vec<u8>) -> Result<(), AllocError>
    ensures { OnOk result (out.new.items ≡ out.old.items
        ++ (spec.number code ++ (spec.numbers [] ++ spec.leaf (bare page)))) }
{
    put_number(code, out)?;
    put_number(0, out)?;
    put_bare(page, out)
}

/// Puts a page with this number, and nothing else.
fn put_bare(page: u16, out: &mut Vec<u8>) -> Result<(), AllocError>
    ensures { OnOk result (out.new.items ≡ out.old.items ++ spec.leaf (bare page)) }
{
    page.put(out)?;
    put_number(0, out)?;
    put_number(0, out)
}

impl Packed for Message {
    ghost bytes = { λ m. spec.message (message_of m) };

    fn put(&self, out: &mut Vec<u8>) -> Result<(), AllocError> {
        match self {
            Message::Wire(wire) => {
                put_number(0, out)?;
                put_items(wire.lows(), out)?;
                put_bare(0, out)
            }
            Message::Ready => put_plain(1, 0, out),
            Message::Dual => put_plain(2, 0, out),
            Message::Pull(page) => put_plain(3, *page, out),
            Message::Page(page) => {
                put_number(4, out)?;
                put_number(0, out)?;
                page.put(out)
            }
            Message::Finish => put_plain(5, 0, out),
            Message::Done => put_plain(6, 0, out),
        }
    }
}

impl Packed for Link {
    ghost bytes = { λ l. spec.items spec.message (messages_of l.messages) };

    fn put(&self, out: &mut Vec<u8>) -> Result<(), AllocError> {
        put_number(self.len() as u64, out)?;
        for i in 0..self.len() {
            self.message_at(i).put(out)?;
        }
        Ok(())
    }
}
