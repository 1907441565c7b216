//! A transaction.
ghost use Rattle.std.specs.Prelude.{◌≡◌, ◌==◌, ◌<◌, IfSome, length, position};
ghost use Rattle.zy_io.specs.Writing.{Appended};
ghost use Rattle.zy_listing.specs.Texts.{done_text, active_text, committed_text, aborted_text, status_text, txn_text};
ghost use Rattle.zy_listing.specs.Texts as spec;
ghost use Rattle.zy_listing.specs.Listing.{txn_texts};

use crate::lines::rows::{Regs, Rows};
use crate::lines::words::WhyText;
use std::alloc::AllocError;
use zy_io::{Decimal, Line, LineBuffer, Lines, joined};
use zy_machine::Machine;
use zy_table::{CommitRecord, Status, Why};
use zy_text::Canonical;
use zy_txns::Txn;

/// The index of a transaction's commit.
fn commit_index(t: u8, commits: &[CommitRecord]) -> Option<usize>
    ensures value { result ≡ position (λ c. c.txn == t) commits.now }
    ensures bound { IfSome result (λ i. i < length commits.now) }
{
    commits.iter().position(|commit| commit.txn == t)
}

/// The place of a transaction in commit order, from 1; 0 where it is not there.
fn commit_place(t: u8, commits: &[CommitRecord]) -> usize
    ensures { result ≡ spec.commit_place t commits.now }
{
    match commit_index(t, commits) {
        Some(index) => index + 1,
        None => 0,
    }
}

/// How much a transaction did, and its registers.
#[derive(Clone, Copy)]
struct DoneText<'a>(&'a Txn);

impl Line for DoneText<'_> {
    ghost text = { λ d. done_text d.0.now };

    fn append(&self, line: &mut LineBuffer) -> Result<(), AllocError> {
        let txn = self.0;
        joined!(" done ", Decimal(txn.done()), " regs", Regs(txn.regs())).append(line)
    }
}

/// What the line says of one that runs.
#[derive(Clone, Copy)]
struct ActiveText<'a>(&'a Txn);

impl Line for ActiveText<'_> {
    ghost text = { λ a. active_text a.0.now };

    fn append(&self, line: &mut LineBuffer) -> Result<(), AllocError> {
        let txn = self.0;
        joined!(
            " active ",
            Canonical(txn.node()),
            " pc ",
            Decimal(txn.pc()),
            DoneText(txn),
            " private",
            Rows(txn.rows()),
        )
        .append(line)
    }
}

/// What the line says of one that was committed, with its place in commit order.
#[derive(Clone, Copy)]
struct CommittedText<'a> {
    txn: &'a Txn,
    place: usize,
}

impl Line for CommittedText<'_> {
    ghost text = { λ c. committed_text c.txn.now c.place };

    fn append(&self, line: &mut LineBuffer) -> Result<(), AllocError> {
        let CommittedText { txn, place } = *self;
        joined!(
            " committed ",
            Canonical(txn.node()),
            b' ',
            Decimal(place),
            DoneText(txn),
        )
        .append(line)
    }
}

/// What the line says of one that was aborted.
#[derive(Clone, Copy)]
struct AbortedText<'a> {
    txn: &'a Txn,
    why: Why,
}

impl Line for AbortedText<'_> {
    ghost text = { λ a. aborted_text a.txn.now a.why };

    fn append(&self, line: &mut LineBuffer) -> Result<(), AllocError> {
        let AbortedText { txn, why } = *self;
        joined!(
            " aborted ",
            Canonical(txn.node()),
            b' ',
            WhyText(why),
            DoneText(txn),
        )
        .append(line)
    }
}

/// What the line says of a transaction, by how far it is.
#[derive(Clone, Copy)]
struct StatusText<'a> {
    commits: &'a [CommitRecord],
    t: u8,
    txn: &'a Txn,
}

impl Line for StatusText<'_> {
    ghost text = { λ s. status_text s.commits.now s.t s.txn.now s.txn.now.status };

    fn append(&self, line: &mut LineBuffer) -> Result<(), AllocError> {
        let txn = self.txn;
        match txn.status() {
            Status::New => " new".append(line),
            Status::Active => ActiveText(txn).append(line),
            Status::Committed => {
                let place = commit_place(self.t, self.commits);
                CommittedText { txn, place }.append(line)
            }
            Status::Aborted(why) => AbortedText { txn, why }.append(line),
        }
    }
}

/// Appends the line of a transaction, without its end. At an error a prefix of it may be there.
pub fn txn_line(machine: &Machine, t: u8, line: &mut LineBuffer) -> Result<(), AllocError>
    requires { t < length machine.now.state.txns }
    ensures { Appended result line.old line.new (txn_text machine.now.state t) }
{
    let status = StatusText {
        commits: machine.commits(),
        t,
        txn: machine.txn(t),
    };
    joined!("txn ", Decimal(t), status).append(line)
}

/// All transactions, by number.
#[derive(Clone, Copy)]
pub(crate) struct Txns<'a>(pub &'a Machine);

impl Lines for Txns<'_> {
    ghost texts = { λ s. txn_texts s.0.now.state };

    fn len(&self) -> usize {
        self.0.txn_count()
    }

    fn append(&self, place: usize, line: &mut LineBuffer) -> Result<(), AllocError> {
        // Proof: there are at most 64 transactions.
        let _count = self.0.txn_count();
        txn_line(self.0, place as u8, line)
    }
}
