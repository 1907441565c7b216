//! What the steps of a machine show.
ghost use Rattle.std.specs.Prelude.{◌≡◌, ◌<◌, ◌++◌, ◌∷◌, [], true, IfOk, OnOk, OnErr, length};
ghost use Rattle.zy_isa.specs.Limits.{max_choices};
ghost use Rattle.zy_isa.specs.Choices.{names_below};
ghost use Rattle.zy_table.specs.Observations as spec;
ghost use Rattle.zy_table.specs.Observations.{observation_at};
ghost use Rattle.zy_table.specs.Play as table;

use crate::machine::{Fault, Machine};
use zy_isa::{Choice, Node, Reg};
use zy_model::table::on_start;
use zy_page::PageRows;
use zy_table::{Observation, Outcome, client_node, moved_page, shown_register};

impl Machine {
    /// The register that a choice shows: that of the instruction which its transaction does next.
    fn register_of(&self, choice: Choice) -> Option<Reg>
        requires { names_below (length self.now.scenario.programs) choice ≡ true }
        ensures { result ≡ spec.register_of self.now.scenario self.now.state choice }
    {
        let Choice::Run(_, t) = choice else {
            return None;
        };
        let program = &self.scenario().programs()[usize::from(t)];
        let pc = self.txn(t).pc() as usize;
        if pc < program.len() {
            shown_register(program.instr(pc))
        } else {
            None
        }
    }

    /// What this register holds where a choice has led, if its transaction did its instruction.
    fn value_after(&self, choice: Choice, outcome: Outcome, register: Option<Reg>) -> Option<u32>
        requires { names_below (length self.now.scenario.programs) choice ≡ true }
        ensures { result ≡ spec.value_after choice self.now.state outcome register }
    {
        // Proof: there is a transaction for each program of its scenario.
        let _ = self.scenario();
        match (choice, outcome, register) {
            (Choice::Run(_, t), Outcome::Did, Some(register)) => {
                Some(self.txn(t).regs()[register.index()])
            }
            _ => None,
        }
    }

    /// The rows of the page that a step with this outcome moved, where the machine is after it.
    fn rows_after(&self, outcome: Outcome) -> Option<PageRows>
        ensures { result ≡ spec.rows_after self.now.state outcome }
    {
        let number = moved_page(outcome)?;
        match self.page(number) {
            Some(page) => Some(PageRows::of(page.rows())),
            None => Some(PageRows::new()),
        }
    }

    /// The node from whose side a choice is made.
    fn side_of(&self, choice: Choice) -> Node
        requires { names_below (length self.now.scenario.programs) choice ≡ true }
        ensures { result ≡ table.side_of self.now.scenario choice self.now.state }
    {
        let version = self.scenario().version();
        match choice {
            Choice::Start => {
                on_start(self.mode(Node::A), self.mode(Node::B), version).unwrap_or(Node::A)
            }
            Choice::Begin(_) => Node::A,
            Choice::Kill(t) => self.txn(t).node(),
            Choice::Run(n, _) | Choice::Take(n) | Choice::Finish(n) | Choice::Push(n) => n,
        }
    }

    /// Makes a choice, and returns what its step shows. Out of memory, nothing changes.
    pub fn observe(&mut self, choice: Choice) -> Result<Observation, Fault>
        requires named { names_below (length self.old.scenario.programs) choice ≡ true }
        requires room { length self.old.entries < max_choices }
        ensures observation { IfOk result (λ o. o ≡ observation_at self.old.scenario self.old.state choice) }
        ensures history { IfOk result (λ o. self.new.entries ≡ self.old.entries ++ o.entry ∷ []) }
        ensures state { OnOk result (self.new.state ≡ (table.step self.old.scenario choice self.old.state).after) }
        ensures scenario { self.new.scenario ≡ self.old.scenario }
        ensures memory { OnErr result (self.new ≡ self.old) }
    {
        let register = self.register_of(choice);
        let side = self.side_of(choice);
        let entry = self.step(choice)?;
        Ok(Observation {
            entry,
            value: self.value_after(choice, entry.outcome, register),
            rows: self.rows_after(entry.outcome),
            node: client_node(choice, side, entry.outcome),
        })
    }
}
