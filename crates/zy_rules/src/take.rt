//! `n take`: each function is the lines of its name.
ghost use Rattle.std.specs.Prelude.{◌≡◌, ◌≤◌, ◌+◌, ◌==◌, ◌⊎◌, IsOk, None, OnOk, Some, true, false};
ghost use Rattle.std.specs.Prelude.{is_some, length, slice_get};
ghost use Rattle.zy_model.specs.Messages.{Message as AMessage, Page, kind_of};
ghost use Rattle.zy_links.specs.Messages.{message_of};
ghost use Rattle.zy_model.specs.Table as modes;
ghost use Rattle.zy_model.specs.declared.table.MessageLine.TheVariants.{Turns};
ghost use Rattle.zy_table.specs.Order.{NumbersRise};
ghost use Rattle.zy_table.specs.Pages.{leaf_at, numbers, without};
ghost use Rattle.zy_table.specs.Pages as table_pages;
ghost use Rattle.zy_table.specs.Take.{all_here, with_brought, with_answer};
ghost use Rattle.zy_table.specs.Take as table_take;
ghost use Rattle.zy_node.specs.Mail.{with_message, HasRoom};
ghost use Rattle.zy_node.specs.Nodes.{node_shown, limits_of, KeepsLink};
ghost use Rattle.zy_node.specs.Wireframes.{lows_in};
ghost use Rattle.zy_rules.specs.Arrivals.{IsFitting, IsNamed, IsNew, MayTake, MayTakeFrom};
ghost use Rattle.zy_rules.specs.Fronts.{front_of, rest, IsFront, Takes, TakesInRoom};

use std::alloc::AllocError;
use zy_isa::{Rule, Scenario};
use zy_links::Message;
use zy_model::table::on_message;
use zy_model::{Kind, MessageLine, NodeMode};
use zy_node::wireframe::page_count;
use zy_node::{Mailbox, NodeStore};
use zy_table::{Answer, Outcome};

/// Whether a locked page stays.
fn is_held(rule: Rule) -> bool
    ensures { result ≡ table_take.is_held rule }
{
    match rule {
        Rule::Held => true,
        Rule::Loose => false,
    }
}

/// The outcome of a message that the node's mode knows.
fn outcome_of(message: &Message) -> Outcome
    ensures { result ≡ table_take.outcome_of (message_of message.now) }
{
    match message {
        Message::Wire(_) => Outcome::GotWire,
        Message::Ready => Outcome::GotReady,
        Message::Dual => Outcome::GotDual,
        Message::Pull(p) => Outcome::GotPull(*p),
        Message::Page(page) => Outcome::GotPage(page.number()),
        Message::Finish => Outcome::GotFinish,
        Message::Done => Outcome::GotDone,
    }
}

/// Whether this number of pages is all that is missing of the wireframe.
fn lacks(me: &NodeStore, more: usize) -> bool
    requires { more ≤ 1 }
    ensures value { result ≡ (length me.now.pages + more == length (lows_in me.now.wire)) }
    ensures rise { NumbersRise 0 (numbers me.now.pages) }
{
    me.pages.len() + more == page_count(&me.wire)
}

/// The line of the mode table for a message.
fn line(scenario: &Scenario, me: &NodeStore, message: &Message) -> MessageLine
    requires named { IsNamed (node_shown me.now) }
    requires new { IsNew (message_of message.now) (node_shown me.now) }
    ensures { let m = message_of message.now in let x = node_shown me.now in
        result ≡ modes.on_message x.mode (kind_of m) (all_here (with_brought m x)) }
{
    // The table asks it of these two messages alone.
    let all = match message {
        Message::Page(_) => lacks(me, 1),
        Message::Finish => lacks(me, 0),
        Message::Wire(_) => false,
        Message::Ready => false,
        Message::Dual => false,
        Message::Pull(_) => false,
        Message::Done => false,
    };
    on_message(me.mode, message.kind(), all, scenario.version())
}

/// Keeps what a message brings.
fn bring(me: &mut NodeStore, message: Message)
    requires { IsFitting message me.old }
    ensures node { node_shown me.new ≡ with_brought (message_of message) (node_shown me.old) }
    ensures link { KeepsLink me.old me.new }
{
    match message {
        Message::Wire(wire) => me.wire = Some(wire),
        Message::Ready => (),
        Message::Dual => (),
        Message::Pull(_) => (),
        Message::Page(page) => {
            // Proof: there is a mark and a slot for each number of the wireframe.
            let _ = page_count(&me.wire);
            me.asked.drop(page.number());
            me.pages.put(page);
        }
        Message::Finish => (),
        Message::Done => me.wire = None,
    }
}

/// Sends the answer that the mode table asks for.
fn answer(me: &mut NodeStore, sent: Option<Kind>)
    requires { HasRoom sent me.old.outbox }
    ensures { let x = me.old in me.new ≡ record x {
      outbox = record x.outbox {
        messages = with_answer sent x.outbox.messages;
        spare = me.new.outbox.spare;
      };
    } }
{
    match sent {
        Some(Kind::Ready) => me.outbox.send(Message::Ready),
        Some(Kind::Dual) => me.outbox.send(Message::Dual),
        Some(Kind::Done) => me.outbox.send(Message::Done),
        Some(Kind::Wire) => (),
        Some(Kind::Pull) => (),
        Some(Kind::Page) => (),
        Some(Kind::Finish) => (),
        None => (),
    }
}

/// Hands a page over.
pub(crate) fn leave(me: &mut NodeStore, p: u16)
    requires owned { table_pages.owns me.old.pages p ≡ true }
    requires room { 1 ≤ me.old.outbox.spare }
    ensures { let x = me.old in me.new
        ≡ record x { pages = without p x.pages; outbox = with_message (Page (leaf_at x.pages p)) x.outbox } }
{
    let page = me.pages.take(p);
    me.outbox.send(Message::Page(page));
}

/// Keeps what a message brings, turns to a mode, and sends the answer.
fn take_in(me: &mut NodeStore, message: Message, mode: NodeMode, sent: Option<Kind>)
    requires fits { IsFitting message me.old }
    requires room { HasRoom sent me.old.outbox }
    ensures node { let x = with_brought (message_of message) (node_shown me.old) in
        node_shown me.new ≡ record x { mode = mode } }
    ensures outbox { me.new.outbox.messages ≡ with_answer sent me.old.outbox.messages }
    ensures limits { limits_of me.new ≡ limits_of me.old }
{
    bring(me, message);
    me.mode = mode;
    answer(me, sent);
}

/// What is at the front of a link, and the line of the mode table for it.
#[derive(Clone, Copy)]
pub(crate) enum Front {
    /// No message.
    Nothing,
    /// This page is asked for.
    Asks(u16, MessageLine),
    /// Another message.
    Brings(MessageLine),
}

impl Front {
    /// A message, with the line of the mode table for it.
    fn of(message: &Message, line: MessageLine) -> Front
        ensures { result ≡ front_of (message_of message.now) line }
    {
        match message {
            Message::Wire(_) => Front::Brings(line),
            Message::Ready => Front::Brings(line),
            Message::Dual => Front::Brings(line),
            Message::Pull(p) => Front::Asks(*p, line),
            Message::Page(_) => Front::Brings(line),
            Message::Finish => Front::Brings(line),
            Message::Done => Front::Brings(line),
        }
    }
}

/// What is at the front of the link to a node.
fn at_front(scenario: &Scenario, me: &NodeStore, inbox: &Mailbox) -> Front
    requires { MayTake inbox.now.messages (node_shown me.now) }
    ensures { IsFront result (node_shown me.now) inbox.now.messages }
{
    let Some(message) = inbox.front() else {
        return Front::Nothing;
    };
    Front::of(message, line(scenario, me, message))
}

/// Makes room for the answer, if there is one.
fn reserve_answer(me: &mut NodeStore, sent: Option<Kind>) -> Result<(), AllocError>
    ensures others { let x = me.old in me.new ≡ record x { outbox = record x.outbox { spare = me.new.outbox.spare } } }
    ensures room { OnOk result (HasRoom sent me.new.outbox) }
    ensures succeeds { (sent ≡ None) ⊎ (1 ≤ me.old.outbox.spare) → IsOk result }
{
    match sent {
        Some(_) => me.reserve_post(),
        None => Ok(()),
    }
}

/// The lines of `n take`, at a node and the link to it.
pub fn take_step(
    scenario: &Scenario,
    me: &mut NodeStore,
    inbox: &mut Mailbox,
) -> Result<Answer, AllocError>
    requires { MayTakeFrom inbox.old me.old }
    ensures line { Takes me.old inbox.old me.new inbox.new result (table_take.take_step scenario.now) }
    ensures memory { TakesInRoom me.old inbox.old result (table_take.take_step scenario.now) }
{
    match at_front(scenario, me, inbox) {
        Front::Nothing => Ok(Answer::quiet(Outcome::NoMessage)),
        Front::Asks(p, line) => pull_step(scenario, me, inbox, p, line),
        Front::Brings(line) => arrival_step(me, inbox, line),
    }
}

/// A message that the mode table speaks of.
#[tactic(auto, unfolding(zy_table::specs::Take::arrival_step))]
fn arrival_step(
    me: &mut NodeStore,
    inbox: &mut Mailbox,
    line: MessageLine,
) -> Result<Answer, AllocError>
    requires may { MayTakeFrom inbox.old me.old }
    requires some { is_some (slice_get inbox.old.messages 0) ≡ true }
    ensures line { (m : AMessage) → slice_get inbox.old.messages 0 ≡ Some m
        → Takes me.old inbox.old me.new inbox.new result (λ v. table_take.arrival_step line m v (rest v)) }
    ensures memory { (m : AMessage)
        → TakesInRoom me.old inbox.old result (λ v. table_take.arrival_step line m v (rest v)) }
{
    match line {
        MessageLine::Stray => Ok(Answer::quiet(Outcome::Stray)),
        MessageLine::Turns(mode, sent) => turn_step(me, inbox, mode, sent),
    }
}

/// A message that the node's mode knows.
fn turn_step(
    me: &mut NodeStore,
    inbox: &mut Mailbox,
    mode: NodeMode,
    sent: Option<Kind>,
) -> Result<Answer, AllocError>
    requires may { MayTakeFrom inbox.old me.old }
    requires some { is_some (slice_get inbox.old.messages 0) ≡ true }
    ensures line { (m : AMessage) → slice_get inbox.old.messages 0 ≡ Some m
        → Takes me.old inbox.old me.new inbox.new result (λ v. table_take.arrival_step (Turns mode sent) m v (rest v)) }
    ensures memory { (sent ≡ None) ⊎ (1 ≤ me.old.outbox.spare) → IsOk result }
{
    reserve_answer(me, sent)?;
    let Some(message) = inbox.take() else {
        unreachable!();
    };
    let outcome = outcome_of(&message);
    take_in(me, message, mode, sent);
    Ok(Answer { outcome, sent })
}

/// A page is asked for.
#[tactic(auto, unfolding(zy_table::specs::Take::pull_step, zy_table::specs::Change::leaves))]
fn pull_step(
    scenario: &Scenario,
    me: &mut NodeStore,
    inbox: &mut Mailbox,
    p: u16,
    line: MessageLine,
) -> Result<Answer, AllocError>
    ensures line { Takes me.old inbox.old me.new inbox.new result
        (λ v. table_take.pull_step scenario.now p line v (rest v)) }
    ensures memory { TakesInRoom me.old inbox.old result (λ v. table_take.pull_step scenario.now p line v (rest v)) }
{
    let MessageLine::Turns(_, _) = line else {
        return Ok(Answer::quiet(Outcome::Stray));
    };
    if !me.pages.owns(p) {
        let _ = inbox.take();
        return Ok(Answer::quiet(Outcome::Stale(p)));
    }
    if is_held(scenario.rule()) && me.locks.locked(p) {
        return Ok(Answer::quiet(Outcome::Held(p)));
    }
    me.reserve_post()?;
    let _ = inbox.take();
    leave(me, p);
    Ok(Answer::sends(Outcome::GotPull(p), Kind::Page))
}
