//! The machine's events of a page that is cleaned while it is used.

ghost use Rattle.std.specs.Prelude.{◌≡◌, ◌⊎◌, ◌<◌, length, vec_len, vec_capacity, IfOk};
ghost use Rattle.machine_core.specs.CleaningEvents.{cleaned_refusal, clean_barred, clean_refusal};
ghost use Rattle.machine_core.specs.CleaningEvents.{copy_barred};
ghost use Rattle.machine_core.specs.CleaningSteps.{clean_reply, copies_after};
ghost use Rattle.machine_core.specs.CleaningEvents.{copy_refusal, CleanedOnce};
ghost use Rattle.machine_core.specs.CleaningSteps.{copy_reply};
ghost use Rattle.machine_core.specs.CleaningEvents.{CleansOnce, CopiesOnce};
ghost use Rattle.machine_core.specs.CleaningSteps.{CleansAt, CopiesAt};
ghost use Rattle.machine_core.specs.CleaningEvents.{RepliesBack};
ghost use Rattle.machine_core.specs.CleaningSteps.{CopyBackAt, IsOwnCopy};
ghost use Rattle.machine_core.specs.MachineRun.{RefusesEvent};

use crate::error::EventRefusal;
use crate::event::Reply;
use crate::jobs_out::write_out;
use crate::machine::Core;
use clock_policy::{Clock, Key};
use machine_sides::{CleanBar, CopyBar, Copying, begin_clean, cleaned, copy_clean};
use page_store::{CleanJob, Cleaned, CleanedJob};
use space_core::Space;
use std::sync::ledger::Ledger;
use swap_slots::{SlotPool, SwapSlot};

impl<L: Ledger, S: SwapSlot, C: Clock> Core<L, S, C> {
    /// A changed resident page's cleaning begins.
    pub(crate) fn clean(&mut self, key: Key) -> Reply
        ensures { RefusesEvent (clean_refusal key self.old.processes) self.old self.new result ⊎
            CleansOnce S.content key self.old self.new result }
    {
        let Some(_) = self.processes.get(key.process as usize) else {
            return Reply::Refused(EventRefusal::NoProcess);
        };
        let begun = clean_at(self.processes.as_mut_slice(), key);
        clean_reply(begun)
    }

    /// A copy of a page that is being cleaned is asked for.
    pub(crate) fn copy(&mut self, key: Key) -> Reply
        ensures { RefusesEvent (copy_refusal key self.old.processes) self.old self.new result ⊎
            CopiesOnce S.content key self.old self.new result }
    {
        let Some(_) = self.processes.get(key.process as usize) else {
            return Reply::Refused(EventRefusal::NoProcess);
        };
        let copied = copy_at(self.processes.as_mut_slice(), key, &mut self.slots);
        keep_copy(copied, &mut self.copies)
    }

    /// A copy of a page that is out is written, and comes back.
    pub(crate) fn cleaned(&mut self, key: Key) -> Reply
        ensures { RefusesEvent (cleaned_refusal key self.old) self.old self.new result ⊎
            CleanedOnce S.content S.honest S.failures key self.old self.new result }
    {
        let Some(_) = self.processes.get(key.process as usize) else {
            return Reply::Refused(EventRefusal::NoProcess);
        };
        let Some(job) = write_out(&mut self.copies, key) else {
            return Reply::Refused(EventRefusal::NotCopied);
        };
        let came = take_back(self.processes.as_mut_slice(), key.process as usize, job);
        cleaned_reply(came)
    }
}

/// A page's cleaning begins in the process of its number, or does not.
fn clean_at<L: Ledger, S: SwapSlot>(processes: &mut [Space<L, S>], key: Key) -> Result<(), CleanBar>
    requires { key.process < length processes.old }
    ensures { CleansAt S.content key.process key.vpn processes.old processes.new result }
{
    begin_clean(&mut processes[key.process as usize], key.vpn)
}

/// A copy of a page is asked for in the process of its number.
fn copy_at<L: Ledger, S: SwapSlot>(
    processes: &mut [Space<L, S>],
    key: Key,
    slots: &mut SlotPool<S>,
) -> Result<Copying<S>, CopyBar>
    requires { key.process < length processes.old }
    ensures { CopiesAt S.content key.process key.vpn slots.old slots.new processes.old
        processes.new result }
{
    copy_clean(&mut processes[key.process as usize], key.vpn, slots)
}

/// A copy comes back to the process of this number.
fn take_back<L: Ledger, S: SwapSlot>(
    processes: &mut [Space<L, S>],
    process: usize,
    job: CleanedJob<S>,
) -> Cleaned<S>
    requires { process < length processes.old }
    ensures { CopyBackAt S.content S.honest job process processes.old processes.new result }
{
    let side = &mut processes[process];
    side.coherent();
    cleaned(side, job)
}

fn clean_reply(begun: Result<(), CleanBar>) -> Reply
    ensures { result ≡ clean_reply begun }
{
    match begun {
        Ok(()) => Reply::Cleaning,
        Err(bar) => Reply::Refused(clean_barred(bar)),
    }
}

fn clean_barred(bar: CleanBar) -> EventRefusal
    ensures { result ≡ clean_barred bar }
{
    match bar {
        CleanBar::Ended => EventRefusal::Ended,
        CleanBar::NotResident => EventRefusal::NotResident,
        CleanBar::NotChanged => EventRefusal::NotChanged,
        CleanBar::AlreadyCleaning => EventRefusal::AlreadyCleaning,
    }
}

fn copy_barred(bar: CopyBar) -> EventRefusal
    ensures { result ≡ copy_barred bar }
{
    match bar {
        CopyBar::Ended => EventRefusal::Ended,
        CopyBar::NotCleaning => EventRefusal::NotCleaning,
    }
}

/// Keeps the copy of a page, and returns the reply.
fn keep_copy<S: SwapSlot>(
    copied: Result<Copying<S>, CopyBar>,
    copies: &mut Vec<CleanJob<S>>,
) -> Reply
    requires { IfOk copied (λ _. vec_len copies.old < vec_capacity copies.old) }
    ensures reply { result ≡ copy_reply copied }
    ensures copies { copies.new.items ≡ copies_after copied copies.old.items }
    ensures capacity { vec_capacity copies.new ≡ vec_capacity copies.old }
{
    match copied {
        Ok(Copying::Stored) => Reply::Stored,
        Ok(Copying::NotYet) => Reply::NotYet,
        Ok(Copying::NoSlot) => Reply::NoSlot,
        Ok(Copying::Copied(job)) => {
            copies.push_reserved(job);
            Reply::Copied
        }
        Err(bar) => Reply::Refused(copy_barred(bar)),
    }
}

/// What a copy that the machine wrote itself is replied with.
fn cleaned_reply<S: SwapSlot>(came: Cleaned<S>) -> Reply
    requires { IsOwnCopy came }
    ensures { RepliesBack came result }
{
    match came {
        Cleaned::WrongPage(_) => unreachable!(),
        Cleaned::Stored => Reply::Stored,
        Cleaned::Device => Reply::Device,
        Cleaned::Clean => Reply::Cleaned,
    }
}
