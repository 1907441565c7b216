//! The debugger: a position and sixteen stops.
ghost use Rattle.std.specs.Prelude.{◌≡◌, true, false, ◌≤◌, ◌<◌, ◌==◌, ◌&&◌, ◌-◌, IfOk, IfSome, OnOk, OnErr};
ghost use Rattle.std.specs.Prelude.{length, nat_le, nat_lt, option_copied};
ghost use Rattle.zy_isa.specs.Limits.{max_choices, max_key};
ghost use Rattle.zy_debug.specs.declared.stop.Stop.TheVariants as stop;
ghost use Rattle.zy_debug.specs.Scans.{Conts, RConts, LastIn};
ghost use Rattle.zy_debug.specs.Stops.{max_stops, no_stops};
ghost use Rattle.zy_debug.specs.Commands.{refusal, Does, Obeys, Moves, GoesOn, GoesBack, Sets, Deletes, Stays};
ghost use Rattle.zy_debug.specs.Commands.{has_room, has_room_in_range, has_stop, in_range, unless};
ghost use Rattle.zy_debug.specs.Checkpoints.{IsReplayOf};
ghost use Rattle.zy_debug.specs.declared.command.DebugFault.TheVariants as fault;
ghost use Rattle.zy_debug.specs.declared.command.Shown.TheVariants as shown;
ghost use Rattle.zy_debug.specs.Sessions.{Shows, goes};

use crate::checkpoints::{Checkpoints, farther};
use crate::command::{Command, DebugFault, Reply, Shown};
use crate::copies::Copies;
use crate::scan::{cont, last_firing};
use crate::{Stop, Stops};
use std::alloc::{AllocError, Global};
use std::marker::Model;
use std::mem::swap;
use zy_isa::Scenario;
use zy_machine::Machine;
use zy_machine::replay::{restart, start};

/// A scenario, a position in its choices, and stops.
#[derive(Drop)]
pub struct Debugger {
    alloc: Global,
    machine: Machine,
    stops: Stops,
    checkpoints: Checkpoints,
}

impl Model for Debugger {
    ghost use Rattle.std.specs.Prelude.{length};
    ghost use Rattle.zy_debug.specs.Sessions.{Session};
    ghost use Rattle.zy_machine.specs.Replays.{Follows};
    ghost use Rattle.zy_debug.specs.Checkpoints.{HoldReplaysOf};

    ghost Value = { Session };

    ghost view = { λ d. record {
      scenario = d.machine.scenario;
      position = length d.machine.entries;
      stops = d.stops;
    } };

    ghost invariant = { λ d. Follows d.machine × HoldReplaysOf d.machine.scenario d.checkpoints };
}

impl Debugger {
    /// A debugger at the start, without stops. It keeps up to `ring` copies of the machine at positions that replays
    /// pass. Some are spread over the scenario at multiples of `every`, some are the last multiples passed, and some
    /// halve the way to the position. The scenario is dropped where there is no memory.
    pub fn open(
        alloc: Global,
        scenario: Scenario,
        every: usize,
        ring: usize,
    ) -> Result<Debugger, AllocError>
        requires { 1 ≤ every }
        ensures { IfOk result (λ d. d ≡ record { scenario = scenario; position = 0; stops = no_stops }) }
    {
        let machine = start(alloc, scenario)?;
        let copies = Copies::new(machine.scenario().choices().len(), every, ring);
        match Checkpoints::new(alloc, copies) {
            Ok(checkpoints) => Ok(Debugger {
                alloc,
                machine,
                stops: Stops::new(),
                checkpoints,
            }),
            Err(fault) => {
                machine.discard();
                Err(fault)
            }
        }
    }

    /// How many choices are done.
    pub fn position(&self) -> usize
        ensures value { result ≡ self.now.position }
        ensures few { result ≤ max_choices }
        ensures most { result ≤ length self.now.scenario.choices }
    {
        self.machine.len()
    }

    /// How many choices there are.
    fn choices(&self) -> usize
        ensures { result ≡ length self.now.scenario.choices }
    {
        self.machine.scenario().choices().len()
    }

    /// The machine that has made the choices which are done.
    pub fn machine(&self) -> &Machine
        ensures { Shows self.entry.now result.now }
    {
        &self.machine
    }

    /// Does a command. Where it is rejected, and out of memory, position and stops are what they were.
    pub fn command(&mut self, command: Command) -> Result<Reply, DebugFault>
        ensures { Obeys (refusal self.old command) (Does self.old command) self.old self.new result }
    {
        match command {
            Command::Step(n) => self.go_to(self.position() + n as usize),
            Command::Back(n) => self.back(n as usize),
            Command::Goto(n) => self.go_to(n as usize),
            Command::Cont => self.go_on(),
            Command::RCont => self.go_back(),
            Command::BreakPage(p) => self.break_page(p),
            Command::BreakMode => self.set(Stop::Mode),
            Command::BreakAbort => self.set(Stop::Abort),
            Command::Watch(k) => self.watch(k),
            Command::Delete(i) => self.delete(i),
            Command::Page(p) => self.show_page(p),
            Command::Txn(t) => self.show_txn(t),
            Command::Node(n) => Ok(Reply::Shown(Shown::Node(n))),
            Command::Links => Ok(Reply::Shown(Shown::Links)),
            Command::Position => Ok(Reply::Shown(Shown::Position)),
        }
    }

    /// To a position.
    fn go_to(&mut self, target: usize) -> Result<Reply, DebugFault>
        ensures { Obeys (in_range (nat_le target (length self.old.scenario.choices)))
            (Moves self.old target) self.old self.new result }
    {
        if target <= self.choices() {
            self.go(target)?;
            Ok(Reply::At(target))
        } else {
            Err(DebugFault::Range)
        }
    }

    /// Goes this number of choices back.
    fn back(&mut self, n: usize) -> Result<Reply, DebugFault>
        ensures { Obeys (in_range (nat_le n self.old.position))
            (Moves self.old (self.old.position - n)) self.old self.new result }
    {
        let position = self.position();
        if n <= position {
            self.go(position - n)?;
            Ok(Reply::At(position - n))
        } else {
            Err(DebugFault::Range)
        }
    }

    /// On to the next position at which a stop fires, or to the end.
    fn go_on(&mut self) -> Result<Reply, DebugFault>
        ensures { Obeys None (GoesOn self.old) self.old self.new result }
    {
        match self.cont()? {
            Some(slot) => Ok(Reply::Stop(slot + 1, self.position())),
            None => Ok(Reply::At(self.position())),
        }
    }

    /// Back to the last position below at which a stop fires, or to the start.
    fn go_back(&mut self) -> Result<Reply, DebugFault>
        ensures { Obeys None (GoesBack self.old) self.old self.new result }
    {
        match self.rcont()? {
            Some(slot) => Ok(Reply::Stop(slot + 1, self.position())),
            None => Ok(Reply::At(self.position())),
        }
    }

    /// A stop where a page changes its place.
    fn break_page(&mut self, p: u32) -> Result<Reply, DebugFault>
        ensures { Obeys (has_room_in_range (nat_lt p self.old.scenario.pages) self.old)
            (Sets self.old (stop.Page p)) self.old self.new result }
    {
        if p < u32::from(self.machine.scenario().pages()) {
            self.set(Stop::Page(p as u16))
        } else {
            Err(DebugFault::Range)
        }
    }

    /// A stop where the committed value at a key changes.
    fn watch(&mut self, k: u32) -> Result<Reply, DebugFault>
        ensures { Obeys (has_room_in_range (nat_le k max_key) self.old)
            (Sets self.old (stop.Watch k)) self.old self.new result }
    {
        if k <= u32::from(u16::MAX) {
            self.set(Stop::Watch(k as u16))
        } else {
            Err(DebugFault::Range)
        }
    }

    /// A stop more, in the lowest free slot.
    fn set(&mut self, stop: Stop) -> Result<Reply, DebugFault>
        ensures { Obeys (has_room self.old) (Sets self.old stop) self.old self.new result }
    {
        match self.stops.add(stop) {
            Some(slot) => Ok(Reply::Set(slot + 1)),
            None => Err(DebugFault::TooManyStops),
        }
    }

    /// A stop less.
    fn delete(&mut self, n: u32) -> Result<Reply, DebugFault>
        ensures { Obeys (unless (has_stop n self.old.stops) fault.NoSuchStop)
            (Deletes self.old n) self.old self.new result }
    {
        if n != 0 && self.stops.delete(n as usize - 1) {
            Ok(Reply::Deleted(n))
        } else {
            Err(DebugFault::NoSuchStop)
        }
    }

    /// Shows a page.
    fn show_page(&self, p: u32) -> Result<Reply, DebugFault>
        ensures { Obeys (in_range (nat_lt p self.now.scenario.pages))
            (Stays self.now (shown.Page p)) self.now self.now result }
    {
        if p < u32::from(self.machine.scenario().pages()) {
            Ok(Reply::Shown(Shown::Page(p as u16)))
        } else {
            Err(DebugFault::Range)
        }
    }

    /// Shows a transaction.
    fn show_txn(&self, t: u32) -> Result<Reply, DebugFault>
        ensures { Obeys (in_range (nat_lt t (length self.now.scenario.programs)))
            (Stays self.now (shown.Txn t)) self.now self.now result }
    {
        if (t as usize) < self.machine.scenario().programs().len() {
            Ok(Reply::Shown(Shown::Txn(t as u8)))
        } else {
            Err(DebugFault::Range)
        }
    }

    /// Goes to a position: takes the kept machine that is there, or replays. A machine is large, and so it is moved
    /// straight to its place.
    fn go(&mut self, target: usize) -> Result<(), AllocError>
        requires { target ≤ length self.old.scenario.choices }
        ensures ok { OnOk result (self.new ≡ goes self.old target) }
        ensures err { OnErr result (self.new ≡ self.old) }
    {
        if self.checkpoints.has_close(target) && self.take_kept(target) {
            return Ok(());
        }
        self.replay(target)
    }

    /// Takes the kept machine that is at a position for that of the session, if there is one among those close to where
    /// a replay ended.
    fn take_kept(&mut self, target: usize) -> bool
        ensures taken { result ≡ true → self.new ≡ goes self.old target }
        ensures kept { result ≡ false → self.new ≡ self.old }
    {
        match self.checkpoints.take(target) {
            Some(mut machine) => {
                swap(&mut self.machine, &mut machine);
                machine.discard();
                true
            }
            None => false,
        }
    }

    /// Makes the choices up to a position from the nearest one below or at it, and keeps the copies that are due on the
    /// way.
    fn replay(&mut self, target: usize) -> Result<(), AllocError>
        requires { target ≤ length self.old.scenario.choices }
        ensures ok { OnOk result (self.new ≡ goes self.old target) }
        ensures err { OnErr result (self.new ≡ self.old) }
    {
        let mut machine = self.nearest(target)?;
        let outcome = self.checkpoints.replay_to(self.alloc, &mut machine, target);
        if outcome.is_ok() {
            swap(&mut self.machine, &mut machine);
        }
        machine.discard();
        outcome
    }

    /// A machine at the position that is nearest below or at another: that of the session, a kept one, or the start.
    fn nearest(&self, target: usize) -> Result<Machine, AllocError>
        ensures replay { IfOk result (IsReplayOf self.now.scenario) }
        ensures below { IfOk result (λ m. length m.entries ≤ target) }
    {
        match self.start_for(target) {
            Some(machine) => machine.copy(self.alloc),
            None => restart(self.alloc, &self.machine),
        }
    }

    /// The machine from which a position is nearest: that of the session or a kept one.
    fn start_for(&self, target: usize) -> Option<&Machine>
        ensures below { IfSome (option_copied result) (λ h. length h.entries ≤ target) }
        ensures replay { IfSome (option_copied result) (IsReplayOf self.entry.now.scenario) }
    {
        farther(self.checkpoints.nearest(target), self.here(target))
    }

    /// The machine of the session, where it is not above a position.
    fn here(&self, target: usize) -> Option<&Machine>
        ensures below { IfSome (option_copied result) (λ h. length h.entries ≤ target) }
        ensures replay { IfSome (option_copied result) (IsReplayOf self.entry.now.scenario) }
    {
        if self.machine.len() <= target {
            Some(&self.machine)
        } else {
            None
        }
    }

    /// Goes on to the next position at which a stop fires, and returns the lowest slot that does; else to the end.
    fn cont(&mut self) -> Result<Option<usize>, AllocError>
        ensures stops { IfOk result (λ i.
            Conts self.old.scenario self.old.stops self.old.position i self.new.position) }
        ensures slot { IfOk result (λ i. IfSome i (λ n. n < max_stops)) }
        ensures kept { self.new ≡ goes self.old self.new.position }
        ensures err { OnErr result (self.new ≡ self.old) }
    {
        let (m, slot) = self.find_next()?;
        self.go(m)?;
        Ok(slot)
    }

    /// The next position at which a stop fires, and the lowest slot that does; else the end.
    fn find_next(&self) -> Result<(usize, Option<usize>), AllocError>
        ensures found { IfOk result (λ found.
            Conts self.now.scenario self.now.stops self.now.position found.1 found.0) }
        ensures slot { IfOk result (λ found. IfSome found.1 (λ n. n < max_stops)) }
        ensures most { IfOk result (λ found. found.0 ≤ length self.now.scenario.choices) }
    {
        let mut machine = self.machine.copy(self.alloc)?;
        let slot = cont(self.alloc, &mut machine, self.stops.slots());
        let position = machine.len();
        machine.discard();
        Ok((position, slot?))
    }

    /// Goes back to the last position below at which a stop fires, and returns the lowest slot that does; else to the
    /// start.
    fn rcont(&mut self) -> Result<Option<usize>, AllocError>
        ensures stops { IfOk result (λ i.
            RConts self.old.scenario self.old.stops self.old.position i self.new.position) }
        ensures slot { IfOk result (λ i. IfSome i (λ n. n < max_stops)) }
        ensures kept { self.new ≡ goes self.old self.new.position }
        ensures err { OnErr result (self.new ≡ self.old) }
    {
        let found = self.find_back()?;
        match found {
            Some((m, slot)) => {
                self.go(m)?;
                Ok(Some(slot))
            }
            None => {
                self.go(0)?;
                Ok(None)
            }
        }
    }

    /// The last position below at which a stop fires, and the lowest slot that does.
    fn find_back(&self) -> Result<Option<(usize, usize)>, AllocError>
        ensures found { IfOk result (λ found. LastIn self.now.scenario self.now.stops 0 self.now.position found) }
        ensures slot { IfOk result (λ found. IfSome found (λ f. f.1 < max_stops)) }
        ensures most { self.now.position ≤ length self.now.scenario.choices }
    {
        if self.machine.len() == 0 {
            return Ok(None);
        }
        let mut machine = restart(self.alloc, &self.machine)?;
        let found = last_firing(
            self.alloc,
            &mut machine,
            self.stops.slots(),
            self.machine.len(),
        );
        machine.discard();
        found
    }
}
