//! The event of a save that is made and comes back.

ghost use Rattle.std.specs.Prelude.{◌≡◌, ◌⊎◌, ◌<◌, length};
ghost use Rattle.machine_core.specs.MachineRun.{RefusesEvent};
ghost use Rattle.machine_core.specs.CollectSteps.{CanReturnAt};
ghost use Rattle.machine_core.specs.SaveSteps.{IsOwn, RepliesTo, SavedAt};
ghost use Rattle.machine_core.specs.SavingOut.{saved_refusal, SavesOnce};

use crate::error::EventRefusal;
use crate::event::Reply;
use crate::jobs_out::write_out;
use crate::machine::Core;
use clock_policy::{Clock, Key};
use machine_sides::{PagerSide, SaveOutcome, is_saving, saved};
use page_store::SavedJob;
use space_core::Space;
use std::sync::ledger::Ledger;
use swap_slots::SwapSlot;

impl<L: Ledger, S: SwapSlot, C: Clock> Core<L, S, C> {
    /// A page's save is made and comes back.
    pub(crate) fn saved(&mut self, key: Key) -> Reply
        ensures { RefusesEvent (saved_refusal key self.old.processes) self.old self.new result ⊎
            SavesOnce S.content S.honest S.failures key self.old self.new result }
    {
        let refusal = saved_refusal(self.processes.as_slice(), key);
        if let Some(refusal) = refusal {
            return Reply::Refused(refusal);
        }
        let Some(job) = write_out(&mut self.jobs, key) else {
            unreachable!()
        };
        let outcome = saved_at(
            &mut self.pager,
            self.processes.as_mut_slice(),
            key.process as usize,
            job,
        );
        saved_reply(outcome)
    }
}

/// Why no save of a page comes back, if none does.
fn saved_refusal<L: Ledger, S: SwapSlot>(
    processes: &[Space<L, S>],
    key: Key,
) -> Option<EventRefusal>
    ensures { result ≡ saved_refusal key processes.now }
{
    let Some(side) = processes.get(key.process as usize) else {
        return Some(EventRefusal::NoProcess);
    };
    if is_saving(side, key.vpn) {
        return None;
    }
    Some(EventRefusal::NotSaving)
}

/// A save comes back to the pager and the process of this number.
fn saved_at<L: Ledger, S: SwapSlot, C: Clock>(
    pager: &mut PagerSide<L, C>,
    processes: &mut [Space<L, S>],
    process: usize,
    job: SavedJob<S>,
) -> SaveOutcome<S>
    requires there { process < length processes.old }
    requires listed { CanReturnAt process job.vpn pager.old processes.old }
    ensures { SavedAt S.content S.honest job pager.old pager.new process processes.old
        processes.new result }
{
    saved(pager, &mut processes[process], job)
}

/// What a save that the machine made itself is replied with.
fn saved_reply<S: SwapSlot>(outcome: SaveOutcome<S>) -> Reply
    requires { IsOwn outcome }
    ensures { RepliesTo outcome result }
{
    match outcome {
        SaveOutcome::Freed => Reply::Freed,
        SaveOutcome::WrongPage(_) => unreachable!(),
        SaveOutcome::ResidentAgain(_) => Reply::Device,
    }
}
