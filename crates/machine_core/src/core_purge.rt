//! The event of a process that gives everything back.

ghost use Rattle.std.specs.Prelude.{◌≡◌, ◌⊎◌, ◌<◌, length};
ghost use Rattle.machine_core.specs.PurgeSteps.{HasRoomAt, PurgesAt};
ghost use Rattle.machine_core.specs.MachineRun.{RefusesEvent};
ghost use Rattle.machine_core.specs.PurgeEvent.{purge_reason, purge_refusal, PurgesOnce};

use crate::error::EventRefusal;
use crate::event::Reply;
use crate::machine::Core;
use clock_policy::Clock;
use machine_sides::{PagerSide, PurgeRefusal, purge, purge_bars};
use space_core::Space;
use std::sync::ledger::Ledger;
use swap_slots::{SlotPool, SwapSlot};

impl<L: Ledger, S: SwapSlot, C: Clock> Core<L, S, C> {
    /// An ended process gives its frames and slots back.
    pub(crate) fn purge(&mut self, process: u32) -> Reply
        ensures { RefusesEvent (purge_refusal process self.old.processes) self.old self.new
            result ⊎ PurgesOnce process self.old self.new result }
    {
        let refusal = purge_refusal(self.processes.as_slice(), process);
        if let Some(refusal) = refusal {
            return Reply::Refused(refusal);
        }
        // Nothing bars it.
        let _ = purge_at(
            &mut self.pager,
            self.processes.as_mut_slice(),
            process as usize,
            &mut self.slots,
        );
        Reply::Purged
    }
}

/// Why a process's purge is refused, if it is.
fn purge_refusal<L: Ledger, S: SwapSlot>(
    processes: &[Space<L, S>],
    process: u32,
) -> Option<EventRefusal>
    ensures { result ≡ purge_refusal process processes.now }
{
    let Some(side) = processes.get(process as usize) else {
        return Some(EventRefusal::NoProcess);
    };
    match purge_bars(side) {
        Some(reason) => Some(purge_reason(reason)),
        None => None,
    }
}

/// A process's reason to give nothing back as a refusal of the event.
fn purge_reason(reason: PurgeRefusal) -> EventRefusal
    ensures { result ≡ purge_reason reason }
{
    match reason {
        PurgeRefusal::NotEnded => EventRefusal::NotEnded,
        PurgeRefusal::SavingStill => EventRefusal::SavingStill,
        PurgeRefusal::AlreadyPurged => EventRefusal::Purged,
    }
}

/// A purge of the process of this number.
fn purge_at<L: Ledger, S: SwapSlot, C: Clock>(
    pager: &mut PagerSide<L, C>,
    processes: &mut [Space<L, S>],
    process: usize,
    slots: &mut SlotPool<S>,
) -> Result<(), PurgeRefusal>
    requires there { process < length processes.old }
    requires room { HasRoomAt process processes.old slots.old }
    ensures { PurgesAt pager.old pager.new process processes.old processes.new slots.old slots.new
        result }
{
    purge(pager, &mut processes[process], slots)
}
