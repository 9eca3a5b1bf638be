//! The holds by which a page comes in.
//!
//! A page is admitted under the pager's lock and its process's. Then the pager is let go, and the page loaded while its process's lock is
//! kept. An admission that could not be loaded is undone under both locks again; between the two, other threads may find the page listed
//! and not resident.

ghost use Rattle.std.specs.Prelude.{◌≡◌, ◌≤◌, ◌↔◌, IfSome, IsNone};
ghost use Rattle.held_machine.specs.Admitting.{AdmitsOrNot, UndoesHeld};
ghost use Rattle.machine_sides.specs.Admitting.{is_resident_at};
ghost use Rattle.reclaim_daemon.specs.PagingIn.{LoadsAdmitted, PagesInHeld, told_as};

use crate::gate::Gate;
use crate::holds::{Change, HoldOfBoth};
use crate::shared::Shared;
use clock_policy::{Clock, Key};
use held_machine::{Desk, Held};
use machine_sides::{Admission, NotAdmitted, is_resident};
use paged_memory::PageInFault;
use std::snapshot::Snapshot;
use std::sync::ledger::Ledger;
use std::sync::{Mutex, Wait};
use swap_slots::SwapSlot;

/// A hold of the pager's lock and a process's that leaves the process as it was.
#[derive(Drop)]
pub struct HoldOfPager<L: Ledger, S: SwapSlot, C: Clock, A: Drop> {
    pub desk: Change<Desk<L, C>>,
    pub process: Snapshot<Held<L, S>>,
    pub reply: A,
}

/// What came of a page that was to come in.
#[derive(Drop)]
pub enum PagedIn<L: Ledger> {
    /// It is mapped.
    Mapped,
    /// It was resident. Nothing has changed.
    Here,
    /// It was not admitted. Nothing has changed. One that is not absent is on its way out.
    NotAdmitted(NotAdmitted),
    /// It was admitted and did not come in: the admission is to be undone.
    Failed {
        admission: Admission<L>,
        fault: PageInFault,
    },
}

impl<L: Ledger, S: SwapSlot, C: Clock> Shared<L, S, C> {
    /// Lists an absent page, and takes the frame that it is to have.
    ///
    /// It does nothing where there is no such process.
    pub fn admit<R: Wait>(
        &self,
        rt: &R,
        key: Key,
    ) -> Option<HoldOfPager<L, S, C, Option<Result<Admission<L>, NotAdmitted>>>>
        ensures none { IsNone result ↔ (self.now.processes ≤ key.process) }
        ensures some { IfSome result (λ hold. AdmitsOrNot hold.desk.before.value
            hold.desk.after.value hold.process.value key hold.reply) }
    {
        let lock = self.locks.get(key.process)?;
        let (mut desk, held) = self.lock_both(rt, key.process, lock);
        let before = Snapshot::of(&*desk);
        let reply = desk.admit(&*held, key);
        let hold = HoldOfPager {
            desk: Change::since(before, &*desk),
            process: Snapshot::of(&*held),
            reply,
        };
        drop(held);
        drop(desk);
        self.locks.signals().daemon().ring();
        Some(hold)
    }

    /// Takes an admission back that was not loaded.
    ///
    /// It does nothing where there is no such process.
    pub fn undo<R: Wait>(
        &self,
        rt: &R,
        admission: Admission<L>,
    ) -> Option<HoldOfPager<L, S, C, Result<(), Admission<L>>>>
        ensures none { IsNone result ↔ (self.now.processes ≤ admission.key.process) }
        ensures some { IfSome result (λ hold. UndoesHeld hold.desk.before.value
            hold.desk.after.value hold.process.value admission hold.reply) }
    {
        let number = admission.key().process;
        let lock = self.locks.get(number)?;
        let (mut desk, held) = self.lock_both(rt, number, lock);
        let before = Snapshot::of(&*desk);
        let reply = desk.undo(&*held, admission);
        let hold = HoldOfPager {
            desk: Change::since(before, &*desk),
            process: Snapshot::of(&*held),
            reply,
        };
        drop(held);
        drop(desk);
        self.locks.signals().tell_page(number);
        self.locks.signals().offer(1);
        Some(hold)
    }

    /// Brings an absent page in: it is admitted, and then loaded once the pager is let go and the gate was called.
    ///
    /// It does nothing where there is no such process. An admission that comes back is to be undone: see [`Shared::undo`].
    pub fn page_in<R: Wait, G: Gate>(
        &self,
        rt: &R,
        gate: &G,
        key: Key,
    ) -> Option<HoldOfBoth<L, S, C, Option<PagedIn<L>>>>
        ensures none { IsNone result ↔ (self.now.processes ≤ key.process) }
        ensures some { IfSome result (λ hold. PagesInHeld S.content S.honest S.failures key
            hold.desk.before.value hold.desk.after.value hold.process.before.value
            hold.process.after.value hold.reply) }
    {
        let lock = self.locks.get(key.process)?;
        Some(self.page_in_on(rt, gate, key, lock))
    }

    /// The same of the process under this lock.
    #[tactic(auto, using(crate::proofs::Brought::paged_in))]
    fn page_in_on<'a, R: Wait, G: Gate>(
        &'a self,
        rt: &R,
        gate: &G,
        key: Key,
        lock: &'a Mutex<Held<L, S>>,
    ) -> HoldOfBoth<L, S, C, Option<PagedIn<L>>>
        ensures { PagesInHeld S.content S.honest S.failures key result.desk.before.value
            result.desk.after.value result.process.before.value result.process.after.value
            result.reply }
    {
        let (mut desk, mut held) = self.lock_both(rt, key.process, lock);
        let desk_before = Snapshot::of(&*desk);
        let held_before = Snapshot::of(&*held);
        let admitted = desk.admit(&*held, key);
        let desk_changed = Change::since(desk_before, &*desk);
        let wants_frames = desk.wants_frames() && desk.pager().counts().pager.free > 0;
        drop(desk);
        self.heed_admission(&admitted, wants_frames);
        let reply = load_admitted(&mut *held, gate, key, admitted);
        HoldOfBoth {
            desk: desk_changed,
            process: Change::since(held_before, &*held),
            reply,
        }
    }

    /// A page was admitted: the daemon is to make room where few frames are free by now, unless a worker does, and may clean a page where it writes
    /// ahead. Where none is free whoever needs one makes room.
    fn heed_admission(
        &self,
        admitted: &Option<Result<Admission<L>, NotAdmitted>>,
        wants_frames: bool,
    ) {
        if !self.ahead && (!wants_frames || self.locks.signals().is_reclaiming()) {
            return;
        }
        if matches!(admitted, Some(Ok(_))) {
            self.locks.signals().daemon().ring();
        }
    }
}

/// A page that was admitted is loaded, under its process's lock.
fn load_admitted<L: Ledger, S: SwapSlot, G: Gate>(
    held: &mut Held<L, S>,
    gate: &G,
    key: Key,
    admitted: Option<Result<Admission<L>, NotAdmitted>>,
) -> Option<PagedIn<L>>
    ensures { LoadsAdmitted S.content S.honest S.failures key held.old held.new admitted
        result }
{
    match admitted {
        None => None,
        Some(Err(reason)) => Some(refused(held, key, reason)),
        Some(Ok(admission)) => {
            gate.before_load(key);
            match held.load(admission) {
                Ok(()) => Some(PagedIn::Mapped),
                Err((admission, fault)) => Some(PagedIn::Failed { admission, fault }),
            }
        }
    }
}

/// What a page comes to that was not admitted.
#[tactic(auto, unfolding(crate::specs::PagingIn::told_as))]
fn refused<L: Ledger, S: SwapSlot>(held: &Held<L, S>, key: Key, reason: NotAdmitted) -> PagedIn<L>
    ensures { result ≡ told_as (is_resident_at held.now.side key.vpn) reason }
{
    let is_here = is_resident(held.side(), key.vpn);
    match reason {
        NotAdmitted::NotAbsent => {
            if is_here {
                return PagedIn::Here;
            }
            PagedIn::NotAdmitted(reason)
        }
        _ => PagedIn::NotAdmitted(reason),
    }
}
