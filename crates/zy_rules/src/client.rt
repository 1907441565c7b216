//! The client's lines: each function is the line of its name.
ghost use Rattle.std.specs.Prelude.{◌≡◌, ◌<◌, IsOk, length, true, false};
ghost use Rattle.zy_model.specs.Table.{may_start};
ghost use Rattle.zy_node.specs.Nodes.{IsLimited};
ghost use Rattle.zy_node.specs.Wireframes.{lows_in};
ghost use Rattle.zy_table.specs.State.{View};
ghost use Rattle.zy_table.specs.Client as client;
ghost use Rattle.zy_txns.specs.Books.{with_book};
ghost use Rattle.zy_rules.specs.Parts.{Does, MakesLine};
ghost use Rattle.zy_table.specs.Answers.{move_of};
ghost use Rattle.zy_rules.specs.Sides.{beside};

use crate::run::abort_step;
use std::alloc::{AllocError, Global};
use zy_links::Message;
use zy_model::table::home_of;
use zy_model::{Kind, NodeMode};
use zy_node::NodeStore;
use zy_node::wireframe::copy;
use zy_table::{Answer, Outcome, Why};
use zy_txns::Book;

/// `C start`, at the node that starts, beside the other.
#[tactic(auto, unfolding(zy_table::specs::Client::start_step))]
pub fn start_step(alloc: Global, me: &mut NodeStore, them: &NodeStore) -> Result<Answer, AllocError>
    requires some { may_start me.old.mode them.now.mode ≡ true → 0 < length (lows_in me.old.wire) }
    requires limited { IsLimited me.old.outbox.pages me.old }
    ensures line { MakesLine me.old me.new (beside me.old them.now) (beside me.new them.now) result client.start_step }
    ensures memory { may_start me.old.mode them.now.mode ≡ false → IsOk result }
{
    if !me.mode.may_start(them.mode) {
        return Ok(Answer::quiet(Outcome::BadMode));
    }
    me.reserve_post()?;
    let Some(wire) = copy(&me.wire, alloc)? else {
        unreachable!();
    };
    me.mode = NodeMode::SInit;
    me.outbox.send(Message::Wire(wire));
    Ok(Answer::sends(Outcome::Started, Kind::Wire))
}

/// `C begin t`, at A beside B.
#[tactic(auto, unfolding(zy_table::specs::Client::begin_step, zy_table::specs::Client::begin_at, zy_table::specs::Change::begun, zy_table::specs::Change::txn_at))]
pub fn begin_step(me: &NodeStore, them: &NodeStore, book: &mut Book, t: u8) -> Answer
    requires { t < length book.old.txns }
    ensures { (v : View) → move_of result (beside me.now them.now (with_book book.new v))
        ≡ client.begin_step t (beside me.now them.now (with_book book.old v)) }
{
    if !book.txn(t).is_new() {
        return Answer::quiet(Outcome::Idle);
    }
    match home_of(me.mode, them.mode) {
        Some(n) => {
            book.begin(t, n);
            Answer::quiet(Outcome::Began(n))
        }
        None => Answer::quiet(Outcome::Idle),
    }
}

/// `C kill t`, at its node.
#[tactic(auto, unfolding(zy_table::specs::Client::kill_step, zy_table::specs::Run::abort_step, zy_table::specs::Change::txn_at))]
pub fn kill_step(me: &mut NodeStore, book: &mut Book, t: u8) -> Answer
    requires { t < length book.old.txns }
    ensures line { Does me.old book.old me.new book.new result (client.kill_step t) }
{
    if !book.txn(t).is_active() {
        return Answer::quiet(Outcome::Idle);
    }
    abort_step(me, book, t, Why::Killed)
}
