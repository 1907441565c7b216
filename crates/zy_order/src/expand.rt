//! What the next lines and missing steps lead to where a path leads.
ghost use Rattle.std.specs.Prelude.{◌≡◌, IfOk, OnOk, true};
ghost use Rattle.zy_order.specs.Machines.{IsPlaced};
ghost use Rattle.zy_order.specs.Reaches.{cursors_at, IsMet, IsMetWith, AreMet, FollowsAll, IsComplete, IsFollowed, IsAt, IsDue, StandsAt, Adds};

use crate::line::Met;
use crate::placed_machine::PlacedMachine;
use crate::plan::Plan;
use crate::search::{Position, Search};
use crate::tellers::Tellers;
use crate::turns::turns_by;
use crate::walk::go_to;
use zy_isa::{Actor, Node};
use zy_machine::Fault;

impl Search {
    /// Meets the lines of these logs that come next at a position. It answers no where there is no room for what they lead to.
    fn meet(&mut self, here: Position, by: Tellers) -> Result<bool, Fault>
        requires { IsAt here self.old }
        ensures adds { OnOk result (Adds here.entry.plan.now self.old self.new) }
        ensures met { let p = here.entry.plan.now in
            IfOk result (λ b. b ≡ true → IsMet p.start p.logs self.new.reached here.entry.at by) }
    {
        let version = here.plan.start.scenario().version();
        let cursors = self.reached.cursors_at(here.at);
        let Some(lines) = here.plan.logs.next_by(version, cursors, by) else {
            return Ok(true);
        };
        match self.meet_lines(here, &lines)? {
            Met::Unfit => Ok(true),
            Met::Known => Ok(true),
            Met::Spent => Ok(false),
        }
    }

    /// Meets the next line of an actor, and that of a node with the client's.
    fn meet_with(&mut self, here: Position, actor: Actor) -> Result<bool, Fault>
        requires { IsAt here self.old }
        ensures adds { OnOk result (Adds here.entry.plan.now self.old self.new) }
        ensures met { let p = here.entry.plan.now in
            IfOk result (λ b. b ≡ true → IsMetWith p.start p.logs self.new.reached here.entry.at actor) }
    {
        if !self.meet(here, Tellers::One(actor))? {
            return Ok(false);
        }
        match actor {
            Actor::C => Ok(true),
            Actor::A => self.meet(here, Tellers::Both(Node::A)),
            Actor::B => self.meet(here, Tellers::Both(Node::B)),
        }
    }

    /// Meets each actor's next line, alone or with the client's.
    fn meet_each(&mut self, here: Position) -> Result<bool, Fault>
        requires { IsAt here self.old }
        ensures adds { OnOk result (Adds here.entry.plan.now self.old self.new) }
        ensures met { let p = here.entry.plan.now in
            IfOk result (λ b. b ≡ true → AreMet p.start p.logs self.new.reached here.entry.at) }
    {
        let turns = turns_by(&here.plan.logs, self.reached.cursors_at(here.at));
        if !self.meet_with(here, turns.first)? {
            return Ok(false);
        }
        if !self.meet_with(here, turns.second)? {
            return Ok(false);
        }
        self.meet_with(here, turns.third)
    }

    /// Makes each choice that may be that of a missing step, and then that of each actor's next line, at a position. It
    /// answers no where there is no room for what one of them leads to. What the lines lead to is followed first.
    fn follow_each(&mut self, here: Position) -> Result<bool, Fault>
        requires { IsAt here self.old }
        ensures adds { OnOk result (Adds here.entry.plan.now self.old self.new) }
        ensures followed { let p = here.entry.plan.now in
            IfOk result (λ b. b ≡ true → FollowsAll p.start p.logs self.new.reached here.entry.at) }
    {
        if !self.try_each(here)? {
            return Ok(false);
        }
        self.meet_each(here)
    }

    /// Brings a machine to where the path at a place leads.
    pub(crate) fn arrive(
        &mut self,
        plan: &Plan,
        at: u32,
        machine: &mut PlacedMachine,
    ) -> Result<(), Fault>
        requires { IsDue plan.now self.old at machine.old }
        ensures reached { OnOk result (self.new.reached ≡ self.old.reached) }
        ensures there { OnOk result (StandsAt plan.now self.new at machine.new.machine) }
        ensures placed { OnOk result (IsPlaced plan.now.start self.new.reached.visited machine.new) }
    {
        self.recent.take(at, machine);
        let checkpoints = &mut self.recent.checkpoints;
        go_to(plan, &self.reached, checkpoints, at, machine)?;
        checkpoints.pass(plan.alloc, at, &machine.machine)?;
        Ok(())
    }

    /// Follows the steps that go on from where the path at a place leads: one line alone, if that may be, and else all of them. It
    /// answers no where there is no room for what one of them leads to.
    pub(crate) fn expand(
        &mut self,
        plan: &Plan,
        at: u32,
        machine: &mut PlacedMachine,
    ) -> Result<bool, Fault>
        requires at { StandsAt plan.now self.old at machine.old.machine }
        requires placed { IsPlaced plan.now.start self.old.reached.visited machine.old }
        requires part { IsComplete plan.now (cursors_at self.old.reached at) machine.old.machine.state → ⊥ }
        ensures adds { OnOk result (Adds plan.now self.old self.new) }
        ensures followed { IfOk result (λ b. b ≡ true → IsFollowed plan.now self.new.reached at) }
        ensures placed { OnOk result (IsPlaced plan.now.start self.new.reached.visited machine.new) }
    {
        match self.follow_alone(plan, at, machine)? {
            Met::Known => Ok(true),
            Met::Spent => Ok(false),
            Met::Unfit => {
                let machine = &machine.machine;
                self.follow_each(Position { plan, at, machine })
            }
        }
    }
}
