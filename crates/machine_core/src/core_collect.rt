//! The machine's event of a page that is to leave its frame.

ghost use Rattle.std.specs.Prelude.{◌≡◌, ◌⊎◌, ◌<◌, length, vec_len, vec_capacity};
ghost use Rattle.machine_core.specs.CollectSteps.{CanReturnAt, LooksAt, jobs_after, looked_reply};
ghost use Rattle.machine_core.specs.CollectEvent.{collect_refusal, CollectsOnce};
ghost use Rattle.machine_core.specs.MachineRun.{RefusesEvent};

use crate::error::EventRefusal;
use crate::event::Reply;
use crate::machine::Core;
use clock_policy::{Clock, Key};
use machine_sides::{Looked, PagerSide, collect, is_leaving};
use page_store::SaveJob;
use space_core::Space;
use std::sync::ledger::Ledger;
use swap_slots::{SlotPool, SwapSlot};

impl<L: Ledger, S: SwapSlot, C: Clock> Core<L, S, C> {
    /// A page that is to leave its frame is looked at: whether a cache holds it still, whether it is to be saved.
    pub(crate) fn collect(&mut self, key: Key) -> Reply
        ensures { RefusesEvent (collect_refusal key self.old.processes) self.old self.new result ⊎
            CollectsOnce S.content S.honest key self.old self.new result }
    {
        let refusal = collect_refusal(self.processes.as_slice(), key);
        if let Some(refusal) = refusal {
            return Reply::Refused(refusal);
        }
        let looked = collect_at(
            &mut self.pager,
            self.processes.as_mut_slice(),
            key,
            &mut self.slots,
        );
        keep(looked, &mut self.jobs)
    }
}

/// Why a look at a page is refused, if it is.
fn collect_refusal<L: Ledger, S: SwapSlot>(
    processes: &[Space<L, S>],
    key: Key,
) -> Option<EventRefusal>
    ensures { result ≡ collect_refusal key processes.now }
{
    let Some(side) = processes.get(key.process as usize) else {
        return Some(EventRefusal::NoProcess);
    };
    if is_leaving(side, key.vpn) {
        return None;
    }
    Some(EventRefusal::NotLeaving)
}

/// A look at a page of the process of its number.
fn collect_at<L: Ledger, S: SwapSlot, C: Clock>(
    pager: &mut PagerSide<L, C>,
    processes: &mut [Space<L, S>],
    key: Key,
    slots: &mut SlotPool<S>,
) -> Looked<S>
    requires there { key.process < length processes.old }
    requires listed { CanReturnAt key.process key.vpn pager.old processes.old }
    ensures { LooksAt S.content S.honest key.process key.vpn pager.old pager.new slots.old
        slots.new processes.old processes.new result }
{
    collect(pager, &mut processes[key.process as usize], key.vpn, slots)
}

/// Keeps the save of a changed page, and returns the reply.
fn keep<S: SwapSlot>(looked: Looked<S>, jobs: &mut Vec<SaveJob<S>>) -> Reply
    requires { vec_len jobs.old < vec_capacity jobs.old }
    ensures reply { result ≡ looked_reply looked }
    ensures jobs { jobs.new.items ≡ jobs_after looked jobs.old.items }
    ensures capacity { vec_capacity jobs.new ≡ vec_capacity jobs.old }
{
    match looked {
        Looked::NotLeaving => Reply::Refused(EventRefusal::NotLeaving),
        Looked::NotYet => Reply::NotYet,
        Looked::Freed => Reply::Freed,
        Looked::Dirty(job) => {
            jobs.push_reserved(job);
            Reply::Dirty
        }
        Looked::NoSlot => Reply::NoSlot,
    }
}
