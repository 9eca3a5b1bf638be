//! The holds of a process's lock and no other: each makes one call, and returns what it found and what it left.
//!
//! Where a process is not the one of its lock's number no call is made, and the machine is not sound from then on.

ghost use Rattle.std.specs.Prelude.{◌≡◌, ◌≤◌, ◌↔◌, nat_le, IfSome, IsNone, Some};
ghost use Rattle.std.specs.Sync.Mutex.{mutex_guard_value};
ghost use Rattle.held_machine.specs.Cleaning.{BeginsWhere, CleansWhere};
ghost use Rattle.held_machine.specs.Holding.{RunsWhere, NoticesWhere, KillsNumberWhere};
ghost use Rattle.held_machine.specs.Holding.{KillsSpentWhere, PressesWhere};

use crate::holds::Change;
use crate::process_locks::ProcessLocks;
use flat_machine::KillCause;
use held_machine::{Begun, Held};
use page_store::{Cleaned, CleanedJob};
use space_core::Slice;
use std::snapshot::Snapshot;
use std::sync::ledger::Ledger;
use std::sync::{MutexGuard, Wait};
use swap_slots::SwapSlot;

/// A hold of a process's lock, and what its call was answered with.
#[derive(Drop)]
pub struct HoldOfProcess<L: Ledger, S: SwapSlot, A: Drop> {
    pub process: Change<Held<L, S>>,
    pub reply: A,
}

/// A process as it was when its lock was taken.
#[derive(Drop)]
struct Found<L: Ledger, S: SwapSlot> {
    process: Snapshot<Held<L, S>>,
    had_ended: bool,
}

impl<L: Ledger, S: SwapSlot> Found<L, S> {
    fn under(held: &Held<L, S>) -> Self
        ensures { result.process.value ≡ held.now }
    {
        Found {
            process: Snapshot::of(held),
            had_ended: held.side().end().is_some(),
        }
    }
}

impl<L: Ledger, S: SwapSlot> ProcessLocks<L, S> {
    /// A slice of a hart, after which it drops its translations that are to be dropped; how far the process has come is published.
    ///
    /// There is none where there is no such process, and no reply where the process is another one or another hart of it is pressed.
    pub fn slice<R: Wait>(
        &self,
        rt: &R,
        number: u32,
        hart: u32,
        budget: u32,
    ) -> Option<HoldOfProcess<L, S, Option<Slice>>>
        ensures none { IsNone result ↔ (self.now.processes ≤ number) }
        ensures some { IfSome result (λ hold. RunsWhere S.content S.honest number hart budget
            hold.reply hold.process.before.value hold.process.after.value) }
    {
        let lock = self.get(number)?;
        self.let_callers_pass(rt, number);
        let mut held = lock.lock(rt);
        let found = Found::under(&*held);
        let was_pressed = held.pressed().is_some();
        let reply = held.slice_of(rt, number, hart, budget);
        if was_pressed && held.pressed().is_none() {
            self.signals().end_press(number);
        }
        let hold = self.publish(number, held, found, reply);
        if has_run(&hold.reply) {
            self.signals().tell_ran(number);
        }
        Some(hold)
    }

    /// A page of a process could not leave while room is made for this hart of it. Until an instruction of that hart has run, no other one of the
    /// process runs: so the count of tries means what it means where one thread runs all. Where one is pressed already it stays the one.
    ///
    /// There is none where there is no such process; it answers whether the process is not another one.
    pub fn press<R: Wait>(
        &self,
        rt: &R,
        number: u32,
        hart: u32,
    ) -> Option<HoldOfProcess<L, S, bool>>
        ensures none { IsNone result ↔ (self.now.processes ≤ number) }
        ensures some { IfSome result (λ hold. PressesWhere number hart hold.reply
            hold.process.before.value hold.process.after.value) }
    {
        let lock = self.get(number)?;
        let mut held = self.lock_first(rt, number, lock);
        let before = Snapshot::of(&*held);
        let reply = held.press_of(number, hart);
        if reply {
            self.signals().press(number, hart);
        } else {
            self.misplace();
        }
        Some(let_go(held, before, reply))
    }

    /// A hart of a process drops its translations that are to be dropped.
    ///
    /// There is none where there is no such process; it answers whether the process is not another one.
    pub fn notice<R: Wait>(
        &self,
        rt: &R,
        number: u32,
        hart: u32,
    ) -> Option<HoldOfProcess<L, S, bool>>
        ensures none { IsNone result ↔ (self.now.processes ≤ number) }
        ensures some { IfSome result (λ hold. NoticesWhere number hart hold.reply
            hold.process.before.value hold.process.after.value) }
    {
        let lock = self.get(number)?;
        let mut held = self.lock_first(rt, number, lock);
        let before = Snapshot::of(&*held);
        let reply = held.take_notices_of(number, hart);
        if !reply {
            self.misplace();
        }
        Some(let_go(held, before, reply))
    }

    /// The machine ends a process, unless it has ended; how far it has come is published.
    ///
    /// There is none where there is no such process; it answers whether the process is not another one.
    pub fn kill<R: Wait>(
        &self,
        rt: &R,
        number: u32,
        cause: KillCause,
    ) -> Option<HoldOfProcess<L, S, bool>>
        ensures none { IsNone result ↔ (self.now.processes ≤ number) }
        ensures some { IfSome result (λ hold. KillsNumberWhere number cause hold.reply
            hold.process.before.value hold.process.after.value) }
    {
        let lock = self.get(number)?;
        let mut held = self.lock_first(rt, number, lock);
        let found = Found::under(&*held);
        let reply = held.kill_number(rt, number, cause);
        Some(self.publish(number, held, found, reply))
    }

    /// The machine ends a process for want of a place for its pages, where it was tried for as often as a process may be. Answers
    /// whether it was.
    ///
    /// There is none where there is no such process, and no reply where the process is another one.
    pub fn kill_if_spent<R: Wait>(
        &self,
        rt: &R,
        number: u32,
    ) -> Option<HoldOfProcess<L, S, Option<bool>>>
        ensures none { IsNone result ↔ (self.now.processes ≤ number) }
        ensures some { IfSome result (λ hold. KillsSpentWhere number self.now.most_tries hold.reply
            hold.process.before.value hold.process.after.value) }
    {
        let lock = self.get(number)?;
        let mut held = self.lock_first(rt, number, lock);
        let found = Found::under(&*held);
        let reply = held.kill_spent(rt, number, self.most_tries());
        Some(self.publish(number, held, found, reply))
    }

    /// Begins to clean the first page of a process from this number on that is resident and changed.
    ///
    /// There is none where there is no such process, and no reply where the process is another one.
    pub fn begin_clean<R: Wait>(
        &self,
        rt: &R,
        number: u32,
        from: u32,
    ) -> Option<HoldOfProcess<L, S, Option<Begun>>>
        ensures none { IsNone result ↔ (self.now.processes ≤ number) }
        ensures some { IfSome result (λ hold. BeginsWhere number from hold.reply
            hold.process.before.value hold.process.after.value) }
    {
        let lock = self.get(number)?;
        let mut held = self.lock_first(rt, number, lock);
        let before = Snapshot::of(&*held);
        let reply = held.begin_clean_of(number, from);
        if reply.is_none() {
            self.misplace();
        }
        Some(let_go(held, before, reply))
    }

    /// Ends the cleaning of a page whose slot was written under no lock. The machine is not sound where it is the copy of no page that is being
    /// cleaned.
    ///
    /// There is none where there is no such process, and no reply where the process is another one.
    pub fn cleaned<R: Wait>(
        &self,
        rt: &R,
        job: CleanedJob<S>,
    ) -> Option<HoldOfProcess<L, S, Option<Cleaned<S>>>>
        ensures none { IsNone result ↔ (self.now.processes ≤ job.process) }
        ensures some { IfSome result (λ hold. CleansWhere job hold.reply
            hold.process.before.value hold.process.after.value) }
    {
        let number = job.process();
        let lock = self.get(number)?;
        let mut held = self.lock_first(rt, number, lock);
        let before = Snapshot::of(&*held);
        let reply = held.cleaned_of(job);
        if is_lost(&reply) {
            self.misplace();
        }
        Some(let_go(held, before, reply))
    }

    /// Lets a process's lock go whose call may have ended it, and publishes how far it has come.
    fn publish<A: Drop>(
        &self,
        number: u32,
        held: MutexGuard<'_, Held<L, S>>,
        found: Found<L, S>,
        reply: A,
    ) -> HoldOfProcess<L, S, A>
        ensures before { result.process.before.value ≡ found.process.value }
        ensures after { result.process.after.value ≡ mutex_guard_value held.entry }
        ensures reply { result.reply ≡ reply }
    {
        let news = self.news(number, &*held, found.had_ended);
        let hold = let_go(held, found.process, reply);
        self.tell(number, news);
        hold
    }
}

/// Lets a process's lock go.
fn let_go<L: Ledger, S: SwapSlot, A: Drop>(
    held: MutexGuard<'_, Held<L, S>>,
    before: Snapshot<Held<L, S>>,
    reply: A,
) -> HoldOfProcess<L, S, A>
    ensures before { result.process.before.value ≡ before.value }
    ensures after { result.process.after.value ≡ mutex_guard_value held.entry }
    ensures reply { result.reply ≡ reply }
{
    let process = Change::since(before, &*held);
    drop(held);
    HoldOfProcess { process, reply }
}

/// Whether an instruction ran.
fn has_run(reply: &Option<Slice>) -> bool {
    match reply {
        Some(slice) => slice.ran != 0,
        None => false,
    }
}

/// Whether a copy came back that no page has out, or to another process.
fn is_lost<S: SwapSlot>(reply: &Option<Cleaned<S>>) -> bool {
    match reply {
        Some(answer) => matches!(answer, Cleaned::WrongPage(_)),
        None => true,
    }
}
