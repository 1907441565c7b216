//! `n push` and `n finish`.
ghost use Rattle.std.specs.Prelude.{◌≡◌, ◌≤◌, IsOk, length};
ghost use Rattle.zy_isa.specs.Limits.{max_txns};
ghost use Rattle.zy_model.specs.Messages.{Finish};
ghost use Rattle.zy_model.specs.declared.mode.NodeMode.TheVariants.{SFinish};
ghost use Rattle.zy_table.specs.State.{View};
ghost use Rattle.zy_table.specs.Push as push;
ghost use Rattle.zy_node.specs.Mail.{with_message};
ghost use Rattle.zy_node.specs.Nodes.{with_node};
ghost use Rattle.zy_rules.specs.Memory.{SendNeedsNone};
ghost use Rattle.zy_rules.specs.Parts.{here, MakesLine, Runs};

use crate::take::leave;
use std::alloc::AllocError;
use zy_isa::Node;
use zy_links::Message;
use zy_model::table::on_finish;
use zy_model::{FinishLine, Kind, NodeMode};
use zy_node::NodeStore;
use zy_table::{Answer, Outcome};
use zy_txns::Book;

/// `n push`.
#[tactic(auto, unfolding(zy_table::specs::Push::push_step, zy_table::specs::Push::push_if, zy_table::specs::Change::leaves))]
pub fn push_step(me: &mut NodeStore) -> Result<Answer, AllocError>
    ensures line { MakesLine me.old me.new (with_node me.old) (with_node me.new) result push.push_step }
    ensures memory { (v : View) → SendNeedsNone me.old (push.push_step (with_node me.old v)) → IsOk result }
{
    if !me.mode.may_push() {
        return Ok(Answer::quiet(Outcome::BadMode));
    }
    let Some(p) = me.pages.lowest() else {
        return Ok(Answer::quiet(Outcome::NoPush));
    };
    me.reserve_post()?;
    leave(me, p);
    Ok(Answer::sends(Outcome::Pushed(p), Kind::Page))
}

/// Says that the node has finished.
fn finish(me: &mut NodeStore)
    requires { 1 ≤ me.old.outbox.spare }
    ensures { let x = me.old in me.new ≡ record x { mode = SFinish; outbox = with_message Finish x.outbox } }
{
    me.mode = NodeMode::SFinish;
    me.outbox.send(Message::Finish);
}

/// `n finish`.
#[tactic(auto, unfolding(zy_table::specs::Push::finish_step, zy_table::specs::Push::finish_if))]
pub fn finish_step(n: Node, me: &mut NodeStore, book: &Book) -> Result<Answer, AllocError>
    requires { length book.now.txns ≤ max_txns }
    ensures line { Runs me.old book.now me.new book.now result (push.finish_step n) }
    ensures memory { (v : View) → SendNeedsNone me.old (push.finish_step n (here me.old book.now v)) → IsOk result }
{
    let lowest = book.lowest_active(n);
    match on_finish(me.mode, lowest.is_some()) {
        FinishLine::BadMode => Ok(Answer::quiet(Outcome::BadMode)),
        FinishLine::Active => Ok(Answer::quiet(Outcome::Active(lowest.unwrap_or(0)))),
        FinishLine::Finishing => {
            me.reserve_post()?;
            finish(me);
            Ok(Answer::sends(Outcome::Finishing, Kind::Finish))
        }
    }
}
