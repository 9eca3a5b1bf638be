//! The locks of a machine.

ghost use Rattle.std.specs.Prelude.{◌≡◌, ◌+◌, ◌*◌, ◌≤◌, ◌↔◌, [], false, true, vec_len};
ghost use Rattle.std.specs.Prelude.{vec_capacity, OnOk, OnErr, IfOk, IsErrOf};
ghost use Rattle.elf_image.specs.Start.{start_of};
ghost use Rattle.machine_limits.specs.Limits.{most_processes};
ghost use Rattle.machine_sides.specs.Starting.{Begins};
ghost use Rattle.reclaim_daemon.specs.SharedValue.{locks_of, tries_per_frame};
ghost use Rattle.status_cell.specs.Counts.{nothing};
ghost use Rattle.status_cell.specs.ViewerValue.{viewer_value};

use crate::process_locks::{AddRefusal, Added, ProcessLocks};
use clock_policy::Clock;
use elf_image::Image;
use held_machine::{Desk, Held, Parts};
use machine_limits::TRIES_PER_FRAME;
use std::alloc::{AllocError, Global};
use std::marker::Model;
use std::sync::Mutex;
use std::sync::ledger::Ledger;
use swap_slots::{SlotPool, SwapSlot};

/// A machine whose processes, pager and slots have a lock each. They are taken in the order pager, process, slots.
#[derive(Drop)]
pub struct Shared<L: Ledger, S: SwapSlot, C: Clock> {
    pub(crate) desk: Mutex<Desk<L, C>>,
    pub(crate) locks: ProcessLocks<L, S>,
    pub(crate) slots: Mutex<SlotPool<S>>,
    /// Of how many slots the machine was made.
    slot_count: usize,
    /// Whether the daemon writes changed pages ahead.
    pub(crate) ahead: bool,
}

impl<L: Ledger, S: SwapSlot, C: Clock> Model for Shared<L, S, C> {
    ghost use Rattle.std.specs.Prelude.{◌≤◌};
    ghost use Rattle.machine_limits.specs.Limits.{most_processes};
    ghost use Rattle.reclaim_daemon.specs.SharedValue.{SharedValue};

    ghost Value = { SharedValue };

    ghost view = { λ s. record {
      processes = s.locks.processes;
      slots = s.slot_count;
      most_tries = s.locks.most_tries;
      ahead = s.ahead;
    } };

    ghost invariant = { λ s. s.locks.processes ≤ most_processes };
}

impl<L: Ledger, S: SwapSlot, C: Clock> Shared<L, S, C> {
    /// A machine of this pager's frames and these slots, with no process. Its daemon writes no page ahead.
    pub fn new(alloc: Global, desk: Desk<L, C>, slots: Vec<S>) -> Self
        ensures processes { result.processes ≡ 0 }
        ensures slots { result.slots ≡ vec_len slots }
        ensures tries { result.most_tries ≡ tries_per_frame * desk.pager.pager.size }
        ensures ahead { result.ahead ≡ false }
    {
        let pool = SlotPool::new(slots);
        let most_tries = TRIES_PER_FRAME * u64::from(desk.pager().size());
        Shared {
            desk: Mutex::new(desk),
            locks: ProcessLocks::new(alloc, most_tries),
            slot_count: pool.size(),
            slots: Mutex::new(pool),
            ahead: false,
        }
    }

    /// The daemon is to write changed pages ahead while it has nothing else to do, or not to.
    pub fn set_ahead(&mut self, ahead: bool)
        ensures { self.new ≡ record self.old { ahead = ahead } }
    {
        self.ahead = ahead;
    }

    /// Whether the daemon writes changed pages ahead.
    pub fn is_ahead(&self) -> bool
        ensures { result ≡ self.now.ahead }
    {
        self.ahead
    }

    /// One more process, of the next number, that is to run an image on an input; and a viewer of its counts.
    pub fn add(
        &mut self,
        alloc: Global,
        image: Image,
        input: Vec<u8>,
    ) -> Result<Added<L, S>, AddRefusal>
        ensures added { OnOk result (self.new ≡ record self.old {
          processes = self.old.processes +
              1;
        }) }
        ensures begins { IfOk result (λ added. Begins self.old.processes
            (start_of image input.items) added.process.value.side) }
        ensures viewer { IfOk result (λ added. added.viewer ≡
            viewer_value added.process.value.writer.cell nothing) }
        ensures too_many { IsErrOf result AddRefusal.TooMany ↔
            (self.old.processes ≡ most_processes) }
        ensures err { OnErr result (self.new ≡ self.old) }
    {
        self.locks.add(alloc, image, input)
    }

    /// So many workers more, of the next numbers: hart `h` of process `p` falls to worker `(p + h) % workers`, whose bell rings where that hart
    /// may wait for something.
    pub fn add_workers(&mut self, count: u32) -> Result<(), AllocError>
        ensures { self.new ≡ self.old }
    {
        self.locks.add_workers(count)
    }

    /// Only the locks of its processes.
    pub fn locks(&self) -> &ProcessLocks<L, S>
        ensures { result.now ≡ locks_of self.now }
    {
        &self.locks
    }

    /// How many processes there are.
    pub fn processes(&self) -> u32
        ensures count { result ≡ self.now.processes }
        ensures few { result ≤ most_processes }
    {
        self.locks.count()
    }

    /// How often a process may be tried for.
    pub fn most_tries(&self) -> u64
        ensures { result ≡ self.now.most_tries }
    {
        self.locks.most_tries()
    }

    /// Of how many slots the machine was made.
    pub fn slots(&self) -> usize
        ensures { result ≡ self.now.slots }
    {
        self.slot_count
    }

    /// What the locks protected, the processes in a list whose room is there. A process that was not the one of its lock's number makes
    /// the machine unsound, and so does a pool of other slots than the machine was made of.
    pub fn into_parts(self, room: Vec<Held<L, S>>) -> Parts<L, S, C>
        requires empty { room.items ≡ [] }
        requires room { self.processes ≤ vec_capacity room }
        ensures many { vec_len result.processes ≡ self.processes }
        ensures few { vec_len result.processes ≤ most_processes }
        ensures slots { result.desk.sound ≡ true → result.slots.size ≡ self.slots }
    {
        let Shared {
            desk,
            locks,
            slots,
            slot_count,
            ahead: _,
        } = self;
        let mut desk = desk.into_inner();
        let (processes, is_misplaced) = locks.into_all(room);
        if is_misplaced {
            desk.mark_unsound();
        }
        let slots = slots.into_inner();
        if slots.size() != slot_count {
            desk.mark_unsound();
        }
        Parts {
            desk,
            processes,
            slots,
        }
    }
}
