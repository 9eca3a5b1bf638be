//! The holds of the pager's lock and a process's: each takes the locks that it needs, makes one call, and returns what it found and what it
//! left.
//!
//! Where a process is not the one of its lock's number no call is made, and the machine is not sound from then on.

ghost use Rattle.std.specs.Prelude.{◌≡◌, ◌≤◌, ◌↔◌, IfOk, IfErr, IfSome, IsNone};
ghost use Rattle.held_machine.specs.Collecting.{CollectsHeld};
ghost use Rattle.held_machine.specs.Purging.{PurgesHeld};
ghost use Rattle.held_machine.specs.SavingBack.{SavesHeld};
ghost use Rattle.held_machine.specs.Sweeping.{SweepsHeld};
ghost use Rattle.reclaim_daemon.specs.Sweeping.{AsksNone};

use crate::locking::{ROUNDS, lock_held};
use crate::shared::Shared;
use clock_policy::{Clock, Key};
use held_machine::{Desk, Held};
use machine_sides::{Looked, PurgeRefusal, SaveOutcome, Swept};
use page_store::SavedJob;
use std::snapshot::Snapshot;
use std::sync::Wait;
use std::sync::ledger::Ledger;
use swap_slots::{SlotPool, SwapSlot};

/// What a lock protects, as clauses see it, before a hold's call and after it.
#[derive(Drop)]
pub struct Change<T> {
    pub before: Snapshot<T>,
    pub after: Snapshot<T>,
}

impl<T> Change<T> {
    /// From what was there to what is there now.
    pub(crate) fn since(before: Snapshot<T>, now: &T) -> Self
        ensures before { result.before.value ≡ before.value }
        ensures after { result.after.value ≡ now.now }
    {
        Change {
            before,
            after: Snapshot::of(now),
        }
    }
}

/// A hold of the pager's lock and a process's.
#[derive(Drop)]
pub struct HoldOfBoth<L: Ledger, S: SwapSlot, C: Clock, A: Drop> {
    pub desk: Change<Desk<L, C>>,
    pub process: Change<Held<L, S>>,
    pub reply: A,
}

/// A hold of only the pager's lock. Where a page of no process was met, the machine is not sound from then on.
#[derive(Drop)]
pub struct HoldOfDesk<L: Ledger, C: Clock> {
    pub desk: Change<Desk<L, C>>,
    pub is_lost: bool,
}

/// A hold of the pager's lock, a process's and the slots'.
#[derive(Drop)]
pub struct HoldOfAll<L: Ledger, S: SwapSlot, C: Clock, A: Drop> {
    pub desk: Change<Desk<L, C>>,
    pub process: Change<Held<L, S>>,
    pub slots: Change<SlotPool<S>>,
    pub reply: A,
}

/// What the three locks protected when they were taken.
#[derive(Drop)]
struct Found<L: Ledger, S: SwapSlot, C: Clock> {
    desk: Snapshot<Desk<L, C>>,
    process: Snapshot<Held<L, S>>,
    slots: Snapshot<SlotPool<S>>,
}

impl<L: Ledger, S: SwapSlot, C: Clock> Found<L, S, C> {
    fn under(desk: &Desk<L, C>, held: &Held<L, S>, slots: &SlotPool<S>) -> Self
        ensures desk { result.desk.value ≡ desk.now }
        ensures process { result.process.value ≡ held.now }
        ensures slots { result.slots.value ≡ slots.now }
    {
        Found {
            desk: Snapshot::of(desk),
            process: Snapshot::of(held),
            slots: Snapshot::of(slots),
        }
    }

    /// The hold whose call has left this under them.
    fn left<A: Drop>(
        self,
        desk: &Desk<L, C>,
        held: &Held<L, S>,
        slots: &SlotPool<S>,
        reply: A,
    ) -> HoldOfAll<L, S, C, A>
        ensures desk_before { result.desk.before.value ≡ self.desk.value }
        ensures desk_after { result.desk.after.value ≡ desk.now }
        ensures process_before { result.process.before.value ≡ self.process.value }
        ensures process_after { result.process.after.value ≡ held.now }
        ensures slots_before { result.slots.before.value ≡ self.slots.value }
        ensures slots_after { result.slots.after.value ≡ slots.now }
        ensures reply { result.reply ≡ reply }
    {
        HoldOfAll {
            desk: Change::since(self.desk, desk),
            process: Change::since(self.process, held),
            slots: Change::since(self.slots, slots),
            reply,
        }
    }
}

impl<L: Ledger, S: SwapSlot, C: Clock> Shared<L, S, C> {
    /// Asks the list, and answers with the accessed bit of the page that it names. A victim is unmapped.
    ///
    /// No process is held where no page is resident, or where the page is of no process that there is.
    pub fn sweep<R: Wait>(
        &self,
        rt: &R,
    ) -> Result<HoldOfBoth<L, S, C, Option<Swept>>, HoldOfDesk<L, C>>
        ensures held { IfOk result (λ hold.
            SweepsHeld hold.desk.before.value hold.desk.after.value
            hold.process.before.value hold.process.after.value hold.reply) }
        ensures none { IfErr result (λ hold. AsksNone self.now.processes hold.desk.before.value
            hold.desk.after.value hold.is_lost) }
    {
        let mut rounds = ROUNDS;
        for _ in rt.forever() {
            let mut desk = self.desk.lock(rt);
            let before = Snapshot::of(&*desk);
            let Some(key) = desk.pager().question() else {
                return Err(HoldOfDesk {
                    desk: Change::since(before, &*desk),
                    is_lost: false,
                });
            };
            let Some(lock) = self.locks.get(key.process) else {
                desk.mark_unsound();
                return Err(HoldOfDesk {
                    desk: Change::since(before, &*desk),
                    is_lost: true,
                });
            };
            if let Some(mut held) = lock_held(rt, &self.locks, key.process, lock, rounds) {
                return Ok(sweep_on(&mut *desk, &mut *held));
            }
            drop(desk);
            drop(self.locks.lock_first(rt, key.process, lock));
            rounds = rounds.saturating_sub(1);
        }
        unreachable!()
    }

    /// Looks whether a leaving page can let its frame go.
    ///
    /// It does nothing where there is no such process.
    pub fn collect<R: Wait>(
        &self,
        rt: &R,
        key: Key,
    ) -> Option<HoldOfAll<L, S, C, Option<Looked<S>>>>
        ensures none { IsNone result ↔ (self.now.processes ≤ key.process) }
        ensures some { IfSome result (λ hold.
            CollectsHeld key hold.desk.before.value hold.desk.after.value hold.process.before.value
            hold.process.after.value hold.slots.before.value hold.slots.after.value hold.reply) }
    {
        let lock = self.locks.get(key.process)?;
        let (mut desk, mut held) = self.lock_both(rt, key.process, lock);
        let mut slots = self.slots.lock(rt);
        let found = Found::under(&*desk, &*held, &*slots);
        let reply = desk.collect(&mut *held, key, &mut *slots);
        let hold = found.left(&*desk, &*held, &*slots, reply);
        drop(slots);
        drop(held);
        drop(desk);
        if has_settled(&hold.reply) {
            self.locks.signals().tell_page(key.process);
        }
        Some(hold)
    }

    /// Ends the save of a page, whose slot was written under no lock.
    ///
    /// It does nothing where there is no such process.
    pub fn saved<R: Wait>(
        &self,
        rt: &R,
        job: SavedJob<S>,
    ) -> Option<HoldOfBoth<L, S, C, Option<SaveOutcome<S>>>>
        ensures none { IsNone result ↔ (self.now.processes ≤ job.process) }
        ensures some { IfSome result (λ hold. SavesHeld job hold.desk.before.value
            hold.desk.after.value hold.process.before.value hold.process.after.value hold.reply) }
    {
        let process = job.process();
        let lock = self.locks.get(process)?;
        let (mut desk, mut held) = self.lock_both(rt, process, lock);
        let desk_before = Snapshot::of(&*desk);
        let held_before = Snapshot::of(&*held);
        let reply = desk.saved(&mut *held, job);
        let hold = HoldOfBoth {
            desk: Change::since(desk_before, &*desk),
            process: Change::since(held_before, &*held),
            reply,
        };
        drop(held);
        drop(desk);
        self.locks.signals().tell_page(process);
        Some(hold)
    }

    /// An ended process gives its frames and slots back, and the list forgets its pages.
    ///
    /// It does nothing where there is no such process.
    pub fn purge<R: Wait>(
        &self,
        rt: &R,
        number: u32,
    ) -> Option<HoldOfAll<L, S, C, Option<Result<(), PurgeRefusal>>>>
        ensures none { IsNone result ↔ (self.now.processes ≤ number) }
        ensures some { IfSome result (λ hold.
            PurgesHeld number hold.desk.before.value hold.desk.after.value
            hold.process.before.value hold.process.after.value hold.slots.before.value
            hold.slots.after.value hold.reply) }
    {
        let lock = self.locks.get(number)?;
        let (mut desk, mut held) = self.lock_both(rt, number, lock);
        let mut slots = self.slots.lock(rt);
        let found = Found::under(&*desk, &*held, &*slots);
        let reply = desk.purge(&mut *held, number, &mut *slots);
        Some(found.left(&*desk, &*held, &*slots, reply))
    }
}

/// Asks the list under both locks.
fn sweep_on<L: Ledger, S: SwapSlot, C: Clock>(
    desk: &mut Desk<L, C>,
    held: &mut Held<L, S>,
) -> HoldOfBoth<L, S, C, Option<Swept>>
    ensures sweeps { SweepsHeld desk.old desk.new held.old held.new result.reply }
    ensures desk { result.desk.before.value ≡ desk.old }
    ensures desk_after { result.desk.after.value ≡ desk.new }
    ensures process { result.process.before.value ≡ held.old }
    ensures process_after { result.process.after.value ≡ held.new }
{
    let desk_before = Snapshot::of(&*desk);
    let held_before = Snapshot::of(&*held);
    let reply = desk.sweep(held);
    HoldOfBoth {
        desk: Change::since(desk_before, &*desk),
        process: Change::since(held_before, &*held),
        reply,
    }
}

/// Whether a page that was leaving has left its frame, or is resident again.
fn has_settled<S: SwapSlot>(reply: &Option<Looked<S>>) -> bool {
    matches!(reply, Some(Looked::Freed) | Some(Looked::NoSlot))
}
