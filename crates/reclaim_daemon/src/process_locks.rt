//! The locks of a machine's processes.
//!
//! Neither the pager nor the slots can be reached from here: who is lent this part of a machine can take no lock but a process's.

ghost use Rattle.std.specs.Prelude.{◌≡◌, ◌+◌, ◌≤◌, ◌↔◌, [], vec_len, vec_capacity, OnOk, OnErr};
ghost use Rattle.std.specs.Prelude.{IfOk, IsErrOf, IsNone};
ghost use Rattle.elf_image.specs.Start.{start_of};
ghost use Rattle.machine_limits.specs.Limits.{most_processes};
ghost use Rattle.machine_sides.specs.Starting.{Begins};
ghost use Rattle.status_cell.specs.Counts.{nothing};
ghost use Rattle.status_cell.specs.ViewerValue.{viewer_value};

use elf_image::Image;
use hart_signals::Signals;
use held_machine::Held;
use machine_limits::MOST_PROCESSES;
use status_cell::Viewer;
use std::alloc::{AllocError, Global};
use std::marker::Model;
use std::snapshot::Snapshot;
use std::sync::Mutex;
use std::sync::atomic::{AtomicU64, Ordering};
use std::sync::ledger::Ledger;
use swap_slots::SwapSlot;
use thiserror::Error;

/// The processes of a machine, by rising number, with a lock each; and what threads let one another know of them without one.
#[derive(Drop)]
pub struct ProcessLocks<L: Ledger, S: SwapSlot> {
    all: Vec<Mutex<Held<L, S>>>,
    /// Who waits for what.
    signals: Signals,
    /// Above 0 where a process was not the one of its lock's number.
    misplaced: AtomicU64,
    most_tries: u64,
}

impl<L: Ledger, S: SwapSlot> Model for ProcessLocks<L, S> {
    ghost use Rattle.std.specs.Prelude.{◌≤◌, vec_len};
    ghost use Rattle.machine_limits.specs.Limits.{most_processes};
    ghost use Rattle.reclaim_daemon.specs.SharedValue.{LocksValue};

    ghost Value = { LocksValue };

    ghost view = { λ p. record { processes = vec_len p.all; most_tries = p.most_tries } };

    ghost invariant = { λ p. vec_len p.all ≤ most_processes };
}

/// A process that was added: what was put under its lock, as clauses see it, and a viewer of its counts.
#[derive(Drop)]
pub struct Added<L: Ledger, S: SwapSlot> {
    pub process: Snapshot<Held<L, S>>,
    pub viewer: Viewer,
}

/// Why a process was not added, in the order in which the reasons are tested.
#[derive(Clone, Copy, PartialEq, Eq, Debug, Error)]
pub enum AddRefusal {
    #[error("the machine has {most} processes", most = MOST_PROCESSES)]
    TooMany,
    #[error("out of memory")]
    NoMemory,
}

impl<L: Ledger, S: SwapSlot> ProcessLocks<L, S> {
    /// Those of a machine with no process, in which a process may be tried for so often.
    pub(crate) fn new(alloc: Global, most_tries: u64) -> Self
        ensures { result ≡ record { processes = 0; most_tries = most_tries } }
    {
        ProcessLocks {
            all: Vec::new(alloc),
            signals: Signals::new(alloc),
            misplaced: AtomicU64::new(0),
            most_tries,
        }
    }

    /// One more process, of the next number, that is to run an image on an input; and a viewer of its counts.
    pub(crate) fn add(
        &mut self,
        alloc: Global,
        image: Image,
        input: Vec<u8>,
    ) -> Result<Added<L, S>, AddRefusal>
        ensures added { OnOk result (self.new ≡ record self.old {
          processes = self.old.processes +
              1;
        }) }
        ensures begins { IfOk result (λ added. Begins self.old.processes
            (start_of image input.items) added.process.value.side) }
        ensures viewer { IfOk result (λ added. added.viewer ≡
            viewer_value added.process.value.writer.cell nothing) }
        ensures few { self.new.processes ≤ most_processes }
        ensures too_many { IsErrOf result AddRefusal.TooMany ↔
            (self.old.processes ≡ most_processes) }
        ensures err { OnErr result (self.new ≡ self.old) }
    {
        if self.all.len() >= MOST_PROCESSES {
            return Err(AddRefusal::TooMany);
        }
        let number = self.all.len() as u32;
        let Ok((held, viewer)) = Held::new(alloc, number, image, input) else {
            return Err(AddRefusal::NoMemory);
        };
        let process = Snapshot::of(&held);
        // Where the push after this one is refused the signs stay, and will do for the next process.
        if self.signals.add_process().is_err() {
            return Err(AddRefusal::NoMemory);
        }
        if self.all.push(Mutex::new(held)).is_err() {
            return Err(AddRefusal::NoMemory);
        }
        Ok(Added { process, viewer })
    }

    /// So many workers more, of the next numbers: hart `h` of process `p` falls to worker `(p + h) % workers`, whose bell rings where that hart
    /// may wait for something.
    pub(crate) fn add_workers(&mut self, count: u32) -> Result<(), AllocError>
        ensures { self.new ≡ self.old }
    {
        self.signals.add_workers(count)
    }

    /// How many processes there are.
    pub fn count(&self) -> u32
        ensures count { result ≡ self.now.processes }
        ensures few { result ≤ most_processes }
    {
        self.all.len() as u32
    }

    /// How often a process may be tried for.
    pub fn most_tries(&self) -> u64
        ensures { result ≡ self.now.most_tries }
    {
        self.most_tries
    }

    /// The lock of the process of this number, if there is one.
    pub(crate) fn get(&self, number: u32) -> Option<&Mutex<Held<L, S>>>
        ensures { IsNone result ↔ (self.now.processes ≤ number) }
    {
        self.all.get(number as usize)
    }

    /// Who waits for what.
    pub(crate) fn signals(&self) -> &Signals {
        &self.signals
    }

    /// A process was not the one of its lock's number.
    pub(crate) fn misplace(&self) {
        self.misplaced.store(1, Ordering::SeqCst);
    }

    pub(crate) fn is_misplaced(&self) -> bool {
        self.misplaced.load(Ordering::SeqCst) != 0
    }

    /// The processes, in a list whose room is there, and whether one was not that of its lock's number.
    pub(crate) fn into_all(self, room: Vec<Held<L, S>>) -> (Vec<Held<L, S>>, bool)
        requires empty { room.items ≡ [] }
        requires room { self.processes ≤ vec_capacity room }
        ensures many { vec_len result.0 ≡ self.processes }
        ensures few { vec_len result.0 ≤ most_processes }
    {
        let ProcessLocks {
            all,
            signals: _,
            misplaced,
            most_tries: _,
        } = self;
        (unlock_all(all, room), misplaced.into_inner() != 0)
    }
}

/// What these locks protected, in a list whose room is there.
fn unlock_all<T: Drop>(locks: Vec<Mutex<T>>, room: Vec<T>) -> Vec<T>
    requires empty { room.items ≡ [] }
    requires room { vec_len locks ≤ vec_capacity room }
    ensures { vec_len result ≡ vec_len locks }
{
    let mut all = room;
    for lock in locks {
        all.push_reserved(lock.into_inner());
    }
    all
}
