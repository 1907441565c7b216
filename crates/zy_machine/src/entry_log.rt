//! What a machine keeps of the steps that were made.
ghost use Rattle.std.specs.Prelude.{◌≡◌, ◌<◌, ◌⊎◌, ◌++◌, ◌∷◌, [], IfOk, IsOk, OnOk, true, length, take};
ghost use Rattle.std.specs.Prelude.{drop, vec_capacity};
ghost use Rattle.zy_machine.specs.EntryLogs.{entries_of, ahead, IsReadyFor, MayFollow, HasRoomFor, IsReadyToBe};
ghost use Rattle.zy_machine.specs.Trails.{IsNextChoice};

use std::alloc::{AllocError, Global};
use std::marker::Model;
use std::sync::Arc;
use zy_isa::Choice;
use zy_table::Entry;

/// A prefix of a history that other machines have too.
#[derive(Drop)]
pub(crate) struct SharedLog {
    alloc: Global,
    all: Arc<Vec<Entry>, Global>,
    len: usize,
}

impl Model for SharedLog {
    ghost use Rattle.std.specs.Prelude.{◌≤◌, length, take, drop};
    ghost use Rattle.std.specs.Arc.{arc_value};
    ghost use Rattle.zy_machine.specs.Trails.{Trail};

    ghost Value = { Trail };

    ghost view = { λ k. record {
      made = take k.len (arc_value k.all).items;
      ahead = drop k.len (arc_value k.all).items;
    } };

    ghost invariant = { λ k. k.len ≤ length (arc_value k.all).items };
}

impl SharedLog {
    /// A history that was made to its end.
    fn whole(alloc: Global, entries: Vec<Entry>) -> Result<SharedLog, AllocError>
        ensures { IfOk result (λ k. k ≡ record { made = entries.items; ahead = [] }) }
    {
        let len = entries.len();
        let all = Arc::new(alloc, entries)?;
        Ok(SharedLog { alloc, all, len })
    }

    /// A copy of the prefix.
    fn copy(&self) -> Result<SharedLog, AllocError>
        ensures { IfOk result (λ k. k ≡ self.now) }
    {
        let all = Arc::try_clone(&self.all)?;
        Ok(SharedLog {
            alloc: self.alloc,
            all,
            len: self.len,
        })
    }

    /// This history, of which no step is made yet.
    fn restart(&self) -> Result<SharedLog, AllocError>
        ensures { IfOk result (λ k. k ≡ record { made = []; ahead = self.now.made ++ self.now.ahead }) }
    {
        let all = Arc::try_clone(&self.all)?;
        Ok(SharedLog {
            alloc: self.alloc,
            all,
            len: 0,
        })
    }

    /// The steps that were made.
    fn made(&self) -> &[Entry]
        ensures { result.now ≡ self.entry.now.made }
    {
        &self.all[..self.len]
    }

    /// Whether the next step is known, and is one by this choice.
    fn goes_on_by(&self, choice: Choice) -> bool
        ensures next { result ≡ true → IsNextChoice choice self.now.ahead }
        ensures only { IsNextChoice choice self.now.ahead → result ≡ true }
    {
        match self.all.get(self.len) {
            Some(entry) => entry.choice == choice,
            None => false,
        }
    }

    /// A copy of the steps that were made, with room for one more.
    fn own(&self) -> Result<Vec<Entry>, AllocError>
        ensures items { IfOk result (λ v. v.items ≡ self.now.made) }
        ensures room { IfOk result (λ v. length v.items < vec_capacity v) }
    {
        let made = self.made();
        let mut entries = Vec::with_capacity(self.alloc, made.len() + 1)?;
        entries.extend_from_slice(made)?;
        Ok(entries)
    }

    /// The next step is made.
    fn go_on(&mut self)
        requires { 0 < length self.old.ahead }
        ensures made { self.new.made ≡ self.old.made ++ take 1 self.old.ahead }
        ensures ahead { self.new.ahead ≡ drop 1 self.old.ahead }
    {
        self.len += 1;
    }
}

/// The steps that were made: a history of its own, or a prefix of one that others share.
#[derive(Drop)]
pub(crate) enum EntryLog {
    Own(Vec<Entry>),
    Shared(SharedLog),
}

impl EntryLog {
    /// No step yet.
    pub(crate) fn new(alloc: Global) -> EntryLog
        ensures made { entries_of result ≡ [] }
        ensures ahead { ahead result ≡ [] }
    {
        EntryLog::Own(Vec::new(alloc))
    }

    /// A copy of the steps. Where the history is shared it stays one.
    pub(crate) fn copy(&self, alloc: Global) -> Result<EntryLog, AllocError>
        ensures made { IfOk result (λ copy. entries_of copy ≡ entries_of self.now) }
        ensures ahead { IfOk result (λ copy. ahead copy ≡ ahead self.now) }
    {
        match self {
            EntryLog::Own(entries) => {
                let mut copy = Vec::with_capacity(alloc, entries.len() + 1)?;
                copy.extend_from_slice(entries)?;
                Ok(EntryLog::Own(copy))
            }
            EntryLog::Shared(shared) => Ok(EntryLog::Shared(shared.copy()?)),
        }
    }

    /// Prepares to become a copy of another history: makes room for its steps, or returns a copy to take the place.
    pub(crate) fn make_ready(
        &mut self,
        alloc: Global,
        other: &EntryLog,
    ) -> Result<Option<EntryLog>, AllocError>
        ensures made { entries_of self.new ≡ entries_of self.old }
        ensures ahead { ahead self.new ≡ ahead self.old }
        ensures ready { IfOk result (IsReadyToBe other.now self.new) }
    {
        match self {
            EntryLog::Own(mine) => match other {
                EntryLog::Own(theirs) => {
                    mine.reserve(theirs.len().saturating_sub(mine.len()))?;
                    Ok(None)
                }
                EntryLog::Shared(_) => Ok(Some(other.copy(alloc)?)),
            },
            EntryLog::Shared(_) => Ok(Some(other.copy(alloc)?)),
        }
    }

    /// Becomes a copy of another history, for which it is ready. It takes no memory.
    pub(crate) fn set_to(&mut self, other: &EntryLog, ready: Option<EntryLog>)
        requires { IsReadyToBe other.now self.old ready }
        ensures made { entries_of self.new ≡ entries_of other.now }
        ensures ahead { ahead self.new ≡ ahead other.now }
    {
        match ready {
            Some(copy) => *self = copy,
            None => self.set_own_to(other),
        }
    }

    /// Becomes a copy of another history, where both are their own.
    fn set_own_to(&mut self, other: &EntryLog)
        requires { HasRoomFor other.now self.old }
        ensures made { entries_of self.new ≡ entries_of other.now }
        ensures ahead { ahead self.new ≡ ahead other.now }
    {
        match self {
            EntryLog::Own(mine) => match other {
                EntryLog::Own(theirs) => {
                    mine.clear();
                    mine.extend_from_slice(theirs).unwrap();
                }
                EntryLog::Shared(_) => unreachable!(),
            },
            EntryLog::Shared(_) => unreachable!(),
        }
    }

    /// No step yet. Where the history is shared all of it is known.
    pub(crate) fn restart(&self, alloc: Global) -> Result<EntryLog, AllocError>
        ensures made { IfOk result (λ log. entries_of log ≡ []) }
        ensures ahead { IfOk result (λ log. (ahead log ≡ []) ⊎ (ahead log ≡ entries_of self.now ++ ahead self.now)) }
    {
        match self {
            EntryLog::Own(_) => Ok(EntryLog::Own(Vec::new(alloc))),
            EntryLog::Shared(shared) => Ok(EntryLog::Shared(shared.restart()?)),
        }
    }

    /// These steps, to be shared by all copies of what they are part of.
    pub(crate) fn share(self, alloc: Global) -> Result<EntryLog, AllocError>
        ensures made { IfOk result (λ log. entries_of log ≡ entries_of self) }
        ensures ahead { IfOk result (λ log. ahead log ≡ ahead self) }
    {
        match self {
            EntryLog::Own(entries) => Ok(EntryLog::Shared(SharedLog::whole(alloc, entries)?)),
            EntryLog::Shared(shared) => Ok(EntryLog::Shared(shared)),
        }
    }

    /// The steps in order.
    pub(crate) fn made(&self) -> &[Entry]
        ensures { result.now ≡ entries_of self.entry.now }
    {
        match self {
            EntryLog::Own(entries) => entries.as_slice(),
            EntryLog::Shared(shared) => shared.made(),
        }
    }

    /// How many steps were made.
    pub(crate) fn len(&self) -> usize
        ensures { result ≡ length (entries_of self.now) }
    {
        match self {
            EntryLog::Own(entries) => entries.len(),
            EntryLog::Shared(shared) => shared.len,
        }
    }

    /// Makes room for a step by a choice. A shared history that is not known to go on so becomes its own.
    #[inline(always)]
    pub(crate) fn make_room(&mut self, choice: Choice) -> Result<(), AllocError>
        ensures room { OnOk result (IsReadyFor choice self.new) }
        ensures succeeds { IsReadyFor choice self.old → IsOk result }
        ensures made { entries_of self.new ≡ entries_of self.old }
        ensures ahead { (ahead self.new ≡ []) ⊎ (ahead self.new ≡ ahead self.old) }
    {
        match self {
            EntryLog::Own(entries) => entries.reserve(1),
            EntryLog::Shared(shared) => {
                if shared.goes_on_by(choice) {
                    return Ok(());
                }
                let entries = shared.own()?;
                *self = EntryLog::Own(entries);
                Ok(())
            }
        }
    }

    /// Notes a step.
    #[inline(always)]
    pub(crate) fn push(&mut self, entry: Entry)
        requires { MayFollow entry self.old }
        ensures made { entries_of self.new ≡ entries_of self.old ++ entry ∷ [] }
        ensures ahead { ahead self.new ≡ drop 1 (ahead self.old) }
    {
        match self {
            EntryLog::Own(entries) => entries.push_reserved(entry),
            EntryLog::Shared(shared) => shared.go_on(),
        }
    }
}
