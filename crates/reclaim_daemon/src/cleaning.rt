//! The hold by which a copy of a changed page goes out while the page is used. It takes no pager's lock; those by which a page's cleaning begins
//! and ends take only the process's.
//!
//! Where a process is not the one of its lock's number no call is made, and the machine is not sound from then on.

ghost use Rattle.std.specs.Prelude.{◌≡◌, ◌≤◌, ◌↔◌, IfSome, IsNone};
ghost use Rattle.held_machine.specs.Cleaning.{CopiesWhere};

use crate::holds::Change;
use crate::shared::Shared;
use clock_policy::{Clock, Key};
use held_machine::Held;
use machine_sides::{CopyBar, Copying};
use std::snapshot::Snapshot;
use std::sync::Wait;
use std::sync::ledger::Ledger;
use swap_slots::{SlotPool, SwapSlot};

/// A hold of a process's lock and the slots'.
#[derive(Drop)]
pub struct HoldWithSlots<L: Ledger, S: SwapSlot, A: Drop> {
    pub process: Change<Held<L, S>>,
    pub slots: Change<SlotPool<S>>,
    pub reply: A,
}

impl<L: Ledger, S: SwapSlot, C: Clock> Shared<L, S, C> {
    /// Copies a page whose cleaning has begun, if it may be. A slot is taken only for a page that has none.
    ///
    /// There is none where there is no such process, and no reply where the process is another one.
    pub fn copy_clean<R: Wait>(
        &self,
        rt: &R,
        key: Key,
    ) -> Option<HoldWithSlots<L, S, Option<Result<Copying<S>, CopyBar>>>>
        ensures none { IsNone result ↔ (self.now.processes ≤ key.process) }
        ensures some { IfSome result (λ hold. CopiesWhere key hold.reply
            hold.process.before.value hold.process.after.value hold.slots.before.value
            hold.slots.after.value) }
    {
        let lock = self.locks.get(key.process)?;
        let mut held = self.locks.lock_first(rt, key.process, lock);
        let mut slots = self.slots.lock(rt);
        let before = Snapshot::of(&*held);
        let slots_before = Snapshot::of(&*slots);
        let reply = held.copy_clean_of(key, &mut *slots);
        if reply.is_none() {
            self.locks.misplace();
        }
        Some(HoldWithSlots {
            process: Change::since(before, &*held),
            slots: Change::since(slots_before, &*slots),
            reply,
        })
    }

    /// How many slots are free.
    pub(crate) fn free_slots<R: Wait>(&self, rt: &R) -> usize {
        let slots = self.slots.lock(rt);
        slots.len()
    }
}
