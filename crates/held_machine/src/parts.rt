//! What the locks of a machine protected, once no other thread has it.

ghost use Rattle.std.specs.Prelude.{◌≡◌, ◌≤◌, vec_len};
ghost use Rattle.machine_limits.specs.Limits.{most_processes};
ghost use Rattle.held_machine.specs.Purging.{PurgesEach};

use crate::desk::Desk;
use crate::held::Held;
use clock_policy::Clock;
use std::sync::ledger::Ledger;
use swap_slots::{SlotPool, SwapSlot};

/// The pager's desk, the processes by rising number, and the slots that are free.
#[derive(Drop)]
pub struct Parts<L: Ledger, S: SwapSlot, C: Clock> {
    pub desk: Desk<L, C>,
    pub processes: Vec<Held<L, S>>,
    pub slots: SlotPool<S>,
}

impl<L: Ledger, S: SwapSlot, C: Clock> Parts<L, S, C> {
    /// Each process that has ended and has not given back what it has does so now, by rising number.
    pub fn purge_all(&mut self)
        requires few { vec_len self.old.processes ≤ most_processes }
        ensures many { vec_len self.new.processes ≡ vec_len self.old.processes }
        ensures purges { PurgesEach (vec_len self.old.processes) (record {
          desk = self.old.desk;
          held = self.old.processes.items;
          slots = self.old.slots;
        }) (record {
          desk = self.new.desk;
          held = self.new.processes.items;
          slots = self.new.slots;
        }) }
    {
        for number in 0..self.processes.len() {
            self.desk.purge(&mut self.processes[number], number as u32, &mut self.slots);
        }
    }
}
