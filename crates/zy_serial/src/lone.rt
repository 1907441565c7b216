//! One program, run alone on a table.
ghost use Rattle.std.specs.Prelude.{◌≡◌, ◌+◌, ◌<◌, ◌%◌, ◌^◌, [], true, false, IfOk, IsOk, IsSome, OnOk, if◌then◌else◌};
ghost use Rattle.std.specs.Prelude.{slice_get};
ghost use Rattle.std.specs.FinMap.{get};
ghost use Rattle.zy_isa.specs.Rows.{get_row, put_row};
ghost use Rattle.zy_table.specs.Change.{fresh_registers, with_reg};
ghost use Rattle.zy_table.specs.Database.{laid};
ghost use Rattle.zy_table.specs.declared.effect.Effect.TheVariants.{Accesses, Sums};
ghost use Rattle.zy_table.specs.declared.access.Access.TheVariants.{Reads, Writes, Inserts};
ghost use Rattle.zy_table.specs.Serial.{alone, alone_access, alone_effect, alone_instr, value_in};
ghost use Rattle.zy_table.specs.Ranges.{range, total};
ghost use Rattle.zy_serial.specs.Lone.{map_of, on_map};

use crate::table::Table;
use std::alloc::{AllocError, Global};
use std::marker::Model;
use zy_isa::{Program, REGISTERS, Reg};
use zy_node::sums::sum_of_rows;
use zy_page::RowList;
use zy_table::effect::effect_of;
use zy_table::{Access, Effect};

/// The rows that a program writes when it is run alone on a table, for this number of instructions or to its end: none
/// where it gives up.
pub(crate) fn written(
    alloc: Global,
    table: &Table,
    program: &Program,
    done: u32,
) -> Result<RowList, AllocError>
    ensures { IfOk result (λ rows.
        laid rows.rows (map_of table.now) ≡ (alone (map_of table.now) program.now done).map) }
{
    let mut run = LoneRun::new(alloc);
    for _ in 0..done {
        if run.is_over() {
            break;
        }
        run.step(table, program)?;
    }
    Ok(run.into_rows())
}

/// A run so far. What it writes is kept from the table until it ends.
#[derive(Drop)]
struct LoneRun {
    regs: [u32; REGISTERS],
    pc: u32,
    rows: RowList,
    over: bool,
}

impl Model for LoneRun {
    ghost use Rattle.zy_serial.specs.Lone.{Lone};

    ghost Value = { Lone };

    ghost view = { λ x. record { regs = x.regs; pc = x.pc; rows = x.rows.rows; over = x.over } };
}

impl LoneRun {
    /// A run before its first instruction. It takes no memory.
    fn new(alloc: Global) -> LoneRun
        ensures { result ≡ record { regs = fresh_registers; pc = 0; rows = []; over = false } }
    {
        LoneRun {
            regs: [0; REGISTERS],
            pc: 0,
            rows: RowList::new(alloc),
            over: false,
        }
    }

    /// Whether it ended.
    fn is_over(&self) -> bool
        ensures { result ≡ self.now.over }
    {
        self.over
    }

    /// The rows that it wrote.
    fn into_rows(self) -> RowList
        ensures { result.rows ≡ self.rows }
    {
        let LoneRun { rows, .. } = self;
        rows
    }

    /// The next instruction. Past the last one the run gives up.
    #[tactic(auto, unfolding(zy_table::specs::Serial::alone_instr))]
    fn step(&mut self, table: &Table, program: &Program) -> Result<(), AllocError>
        requires { self.old.over ≡ false }
        ensures { OnOk result (let m = map_of table.now in
            on_map m self.new ≡ alone_instr m (slice_get program.now self.old.pc) (on_map m self.old)) }
    {
        let pc = self.pc as usize;
        if pc < program.len() {
            let effect = effect_of(program.instr(pc), &self.regs);
            return self.effect(table, effect);
        }
        self.give_up();
        Ok(())
    }

    /// The effect of an instruction.
    fn effect(&mut self, table: &Table, effect: Effect) -> Result<(), AllocError>
        requires on { self.old.over ≡ false }
        requires pc { self.old.pc + 1 < 2 ^ 32 }
        ensures { OnOk result (let m = map_of table.now in
            on_map m self.new ≡ alone_effect m effect (on_map m self.old)) }
    {
        match effect {
            Effect::Sets(r, value) => self.set(r, value),
            Effect::Jumps(taken, target) => self.jump(taken, target),
            Effect::Accesses(access, key) => return self.access(table, access, key),
            Effect::Sums(r, first, last) => self.sum(table, r, first, last),
            Effect::Commits => self.over = true,
            Effect::Aborts => self.give_up(),
        }
        Ok(())
    }

    /// An access, if its key is one.
    fn access(&mut self, table: &Table, access: Access, key: u32) -> Result<(), AllocError>
        requires on { self.old.over ≡ false }
        requires pc { self.old.pc + 1 < 2 ^ 32 }
        ensures { OnOk result (let m = map_of table.now in
            on_map m self.new ≡ alone_effect m (Accesses access key) (on_map m self.old)) }
    {
        let Ok(key) = u16::try_from(key) else {
            self.give_up();
            return Ok(());
        };
        match access {
            Access::Reads(r) => {
                self.read(table, r, key);
                Ok(())
            }
            Access::Writes(value) => self.write(table, key, value),
            Access::Inserts(value) => self.insert(table, key, value),
        }
    }

    /// `read` at a key.
    fn read(&mut self, table: &Table, r: Reg, key: u16)
        requires on { self.old.over ≡ false }
        requires pc { self.old.pc + 1 < 2 ^ 32 }
        ensures { let m = map_of table.now in on_map m self.new ≡ alone_access m (Reads r) key (on_map m self.old) }
    {
        let value = self.value(table, key).unwrap_or(0);
        self.set(r, value);
    }

    /// `write` at a key.
    fn write(&mut self, table: &Table, key: u16, value: u32) -> Result<(), AllocError>
        requires on { self.old.over ≡ false }
        requires pc { self.old.pc + 1 < 2 ^ 32 }
        ensures { OnOk result (let m = map_of table.now in
            on_map m self.new ≡ alone_access m (Writes value) key (on_map m self.old)) }
    {
        if self.value(table, key).is_none() {
            self.give_up();
            return Ok(());
        }
        self.put(key, value)
    }

    /// `insert` at a key.
    fn insert(&mut self, table: &Table, key: u16, value: u32) -> Result<(), AllocError>
        requires on { self.old.over ≡ false }
        requires pc { self.old.pc + 1 < 2 ^ 32 }
        ensures { OnOk result (let m = map_of table.now in
            on_map m self.new ≡ alone_access m (Inserts value) key (on_map m self.old)) }
    {
        if self.value(table, key).is_some() {
            self.give_up();
            return Ok(());
        }
        self.put(key, value)
    }

    /// `sum` of the keys from one to another.
    fn sum(&mut self, table: &Table, r: Reg, first: u32, last: u32)
        requires on { self.old.over ≡ false }
        requires pc { self.old.pc + 1 < 2 ^ 32 }
        ensures { let m = map_of table.now in
            on_map m self.new ≡ alone_effect m (Sums r first last) (on_map m self.old) }
    {
        if last < first {
            self.set(r, 0);
            return;
        }
        match u16::try_from(last) {
            Ok(last) => self.set(r, self.total(table, first as u16, last)),
            Err(_) => self.give_up(),
        }
    }

    /// What the run sees at a key: the row that it wrote, else the table's.
    fn value(&self, table: &Table, key: u16) -> Option<u32>
        ensures { result ≡ get (laid self.now.rows (map_of table.now)) key }
    {
        match self.rows.get(key) {
            Some(value) => Some(value),
            None => table.get(key),
        }
    }

    /// What the run sees at the keys from one to another, together, modulo 2^32.
    fn total(&self, table: &Table, first: u16, last: u16) -> u32
        ensures { result ≡ total (value_in (laid self.now.rows (map_of table.now))) (range first last) % 2 ^ 32 }
    {
        let own = self.rows.rows();
        sum_of_rows(own, &[], first, last).wrapping_add(sum_of_rows(table.rows(), own, first, last))
    }

    /// A register gets a value, and the run goes on.
    fn set(&mut self, r: Reg, value: u32)
        requires { self.old.pc + 1 < 2 ^ 32 }
        ensures { self.new ≡ record self.old { pc = self.old.pc + 1; regs = with_reg r value self.old.regs } }
    {
        self.regs[r.index()] = value;
        self.pc += 1;
    }

    /// The run goes on at a target, or where it is not taken at the next instruction.
    fn jump(&mut self, taken: bool, target: u32)
        requires { self.old.pc + 1 < 2 ^ 32 }
        ensures { self.new ≡ record self.old { pc = if taken then target else self.old.pc + 1 } }
    {
        self.pc = if taken { target } else { self.pc + 1 };
    }

    /// A row is written, and the run goes on.
    fn put(&mut self, key: u16, value: u32) -> Result<(), AllocError>
        requires { self.old.pc + 1 < 2 ^ 32 }
        ensures ok { OnOk result (self.new ≡ record self.old {
          pc = self.old.pc + 1;
          rows = put_row key value self.old.rows;
        }) }
        ensures over { IsSome (get_row self.old.rows key) → IsOk result }
    {
        self.rows.reserve_for(key)?;
        self.rows.put(key, value);
        self.pc += 1;
        Ok(())
    }

    /// The run ends, and what it wrote is dropped.
    fn give_up(&mut self)
        ensures { self.new ≡ record self.old { rows = []; over = true } }
    {
        self.rows.clear();
        self.over = true;
    }
}
