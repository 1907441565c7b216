//! The state of both nodes.
ghost use Rattle.std.specs.Prelude.{◌≡◌, ◌≤◌, ◌<◌, ℕ, IfOk, OnOk, OnErr, length};
ghost use Rattle.zy_isa.specs.Limits.{max_txns};
ghost use Rattle.zy_isa.specs.declared.node.Node.TheVariants.{A};
ghost use Rattle.zy_table.specs.State.{facing};
ghost use Rattle.zy_table.specs.Client as table_client;
ghost use Rattle.zy_table.specs.Push as table_push;
ghost use Rattle.zy_isa.specs.declared.choice.Choice.TheVariants.{Start};
ghost use Rattle.zy_table.specs.Play.{side_of};
ghost use Rattle.zy_table.specs.Play as table_play;
ghost use Rattle.zy_txns.specs.Books.{txn_in};
ghost use Rattle.zy_table.specs.Run as table_run;
ghost use Rattle.zy_table.specs.Take as table_take;
ghost use Rattle.zy_rules.specs.Arrivals.{MayTake};
ghost use Rattle.zy_machine.specs.NodePairs.{state_of, limits_in, AreLimited, IsMade, IsPossible, IsReady, MakesAt};
ghost use Rattle.zy_machine.specs.NodePairs.{MayStart, Steps};

use crate::node_copy::{become_copy, changed_parts};
use std::alloc::{AllocError, Global};
use zy_isa::{Choice, Node, Scenario};
use zy_model::table::on_start;
use zy_node::NodeStore;
use zy_rules::client::{begin_step, kill_step, start_step};
use zy_rules::push::{finish_step, push_step};
use zy_rules::run::run_step;
use zy_rules::take::take_step;
use zy_table::Answer;
use zy_txns::Book;

/// The state: both nodes, the transactions and commits; and where new pages come from.
#[derive(Drop)]
pub(crate) struct NodePair {
    pub alloc: Global,
    pub a: NodeStore,
    pub b: NodeStore,
    pub book: Book,
}

impl NodePair {
    /// A copy of the state.
    pub(crate) fn copy(&self, alloc: Global) -> Result<NodePair, AllocError>
        ensures state { IfOk result (λ copy. state_of copy ≡ state_of self.now) }
        ensures limits { IfOk result (λ copy. limits_in copy ≡ limits_in self.now) }
    {
        let book = self.book.copy(alloc)?;
        let a = self.a.copy(alloc)?;
        let b = self.b.copy(alloc)?;
        Ok(NodePair { alloc, a, b, book })
    }

    /// Becomes a copy of another state. Out of memory, nothing changes. A wireframe and messages that are the same are not
    /// copied, and all else goes into the room that is there, as far as it suffices.
    pub(crate) fn set_to(&mut self, other: &NodePair) -> Result<(), AllocError>
        ensures ok { OnOk result (state_of self.new ≡ state_of other.now) }
        ensures err { OnErr result (state_of self.new ≡ state_of self.old) }
        ensures limits { (n : ℕ) → AreLimited n self.old → AreLimited n other.now → AreLimited n self.new }
    {
        let alloc = self.alloc;
        let a = changed_parts(alloc, &mut self.a, &other.a)?;
        let b = changed_parts(alloc, &mut self.b, &other.b)?;
        self.book.set_to(alloc, &other.book)?;
        become_copy(&mut self.a, &other.a, a);
        become_copy(&mut self.b, &other.b, b);
        Ok(())
    }

    /// The lines of a node's run.
    #[inline(always)]
    fn run_step(&mut self, scenario: &Scenario, n: Node, t: u8) -> Result<Answer, AllocError>
        requires { IsReady scenario.now n t self.old }
        ensures { MakesAt n self.old self.new result (table_run.run_step scenario.now n t
            (facing n (state_of self.old))) }
    {
        match n {
            Node::A => run_step(scenario, self.alloc, n, &mut self.a, &mut self.book, t),
            Node::B => run_step(scenario, self.alloc, n, &mut self.b, &mut self.book, t),
        }
    }

    /// The lines of `n take`.
    fn take_step(&mut self, scenario: &Scenario, n: Node) -> Result<Answer, AllocError>
        requires may { let v = facing n (state_of self.old) in MayTake v.inbox v.me }
        requires limited { AreLimited scenario.now.pages self.old }
        ensures { MakesAt n self.old self.new result (table_take.take_step scenario.now
            (facing n (state_of self.old))) }
    {
        match n {
            Node::A => take_step(scenario, &mut self.a, &mut self.b.outbox),
            Node::B => take_step(scenario, &mut self.b, &mut self.a.outbox),
        }
    }

    /// `n push`.
    fn push_step(&mut self, n: Node) -> Result<Answer, AllocError>
        ensures { MakesAt n self.old self.new result (table_push.push_step (facing n (state_of self.old))) }
    {
        match n {
            Node::A => push_step(&mut self.a),
            Node::B => push_step(&mut self.b),
        }
    }

    /// `n finish`.
    fn finish_step(&mut self, n: Node) -> Result<Answer, AllocError>
        requires { length self.old.book.txns ≤ max_txns }
        ensures { MakesAt n self.old self.new result (table_push.finish_step n (facing n (state_of self.old))) }
    {
        match n {
            Node::A => finish_step(n, &mut self.a, &self.book),
            Node::B => finish_step(n, &mut self.b, &self.book),
        }
    }

    /// `C start`, at the node that the mode table names.
    fn start_step(&mut self, scenario: &Scenario) -> Result<Answer, AllocError>
        requires may { MayStart self.old }
        requires limited { AreLimited scenario.now.pages self.old }
        ensures { let n = side_of scenario.now Start (state_of self.old) in
            MakesAt n self.old self.new result (table_client.start_step (facing n (state_of self.old))) }
    {
        let source = on_start(self.a.mode, self.b.mode, scenario.version());
        match source.unwrap_or(Node::A) {
            Node::A => start_step(self.alloc, &mut self.a, &self.b),
            Node::B => start_step(self.alloc, &mut self.b, &self.a),
        }
    }

    /// `C begin t`.
    fn begin_step(&mut self, t: u8) -> Answer
        requires { t < length self.old.book.txns }
        ensures { IsMade A self.old self.new result (table_client.begin_step t (facing A (state_of self.old))) }
    {
        begin_step(&self.a, &self.b, &mut self.book, t)
    }

    /// `C kill t`.
    fn kill_step(&mut self, t: u8) -> Answer
        requires { t < length self.old.book.txns }
        ensures { let n = (txn_in t self.old.book).node in
            IsMade n self.old self.new result (table_client.kill_step t (facing n (state_of self.old))) }
    {
        match self.book.txn(t).node() {
            Node::A => kill_step(&mut self.a, &mut self.book, t),
            Node::B => kill_step(&mut self.b, &mut self.book, t),
        }
    }

    /// The step that a choice makes. A run, as most of them are, goes in line, so that a loop over choices is short.
    #[inline(always)]
    pub(crate) fn step(&mut self, scenario: &Scenario, choice: Choice) -> Result<Answer, AllocError>
        requires possible { IsPossible scenario.now choice self.old }
        requires limited { AreLimited scenario.now.pages self.old }
        ensures { Steps self.old self.new result (table_play.step scenario.now choice (state_of self.old)) }
    {
        if let Choice::Run(n, t) = choice {
            return self.run_step(scenario, n, t);
        }
        self.any_step(scenario, choice)
    }

    /// The step that a choice of any kind makes, out of line.
    #[inline(never)]
    fn any_step(&mut self, scenario: &Scenario, choice: Choice) -> Result<Answer, AllocError>
        requires possible { IsPossible scenario.now choice self.old }
        requires limited { AreLimited scenario.now.pages self.old }
        ensures { Steps self.old self.new result (table_play.step scenario.now choice (state_of self.old)) }
    {
        match choice {
            Choice::Start => self.start_step(scenario),
            Choice::Begin(t) => Ok(self.begin_step(t)),
            Choice::Kill(t) => Ok(self.kill_step(t)),
            Choice::Run(n, t) => self.run_step(scenario, n, t),
            Choice::Take(n) => self.take_step(scenario, n),
            Choice::Finish(n) => self.finish_step(n),
            Choice::Push(n) => self.push_step(n),
        }
    }
}
