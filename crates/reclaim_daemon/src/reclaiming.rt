//! Room for pages: who makes it, and how.
//!
//! The list is asked until it names a victim, the harts of the victim's process drop their translations, and the page is collected; a changed one
//! is saved. A worker whose hart finds no frame does so for that hart. The daemon does it before, where few frames are free and no worker makes
//! room; it purges each process that has ended; and while it has no room to make it may write changed pages ahead. One thread at a time does any of
//! these: the one that has the [`Reclaimer`].

ghost use Rattle.std.specs.Prelude.{◌≡◌};

use crate::gate::Gate;
use crate::holds::{HoldOfAll, HoldOfBoth};
use crate::process_locks::ProcessLocks;
use crate::shared::Shared;
use crate::writing_ahead::{Ahead, Rest};
use crate::writing_out::write_slot;
use clock_policy::{Clock, Key};
use machine_limits::{MOST_HARTS, MOST_PROCESSES};
use machine_sides::{Looked, SaveOutcome, Swept};
use page_store::SaveJob;
use status_cell::{Status, Viewer};
use std::sync::atomic::AtomicU64;
use std::sync::ledger::Ledger;
use std::sync::{Mutex, Wait};
use std::time::Duration;
use swap_slots::SwapSlot;

/// For how many milliseconds who makes room waits for a hart that was started since the notices, or where the list names no page.
const SHORT_PAUSE_MILLIS: u64 = 1;

/// What whoever makes room has, one thread at a time: the viewers of the processes, by rising number.
#[derive(Drop)]
pub struct Reclaimer<'v> {
    viewers: &'v mut [Viewer],
}

impl<'v> Reclaimer<'v> {
    pub fn new(viewers: &'v mut [Viewer]) -> Self {
        Reclaimer { viewers }
    }

    /// Looks at each viewer. Answers how many there are.
    fn look<R: Wait>(&mut self, rt: &R, statuses: &mut [Status; MOST_PROCESSES]) -> usize {
        for (viewer, status) in self.viewers.iter_mut().zip(statuses.iter_mut()) {
            *status = viewer.look(rt);
        }
        self.viewers.len()
    }
}

/// What came of room that was to be made for a hart.
#[derive(Clone, Copy, Debug, PartialEq, Eq)]
pub enum Room {
    /// A frame has come free, or was free already.
    Made,
    /// A page of this process could not leave its frame.
    Stuck(u32),
    /// No page is resident.
    NoPage,
}

/// Makes room in a machine until each of its processes has ended and given its pages back.
///
/// It sleeps while there is nothing to do. Answers whether it has written changed pages ahead, where there were any.
pub fn daemon<L: Ledger, S: SwapSlot, C: Clock, G: Gate, R: Wait>(
    rt: &R,
    shared: &Shared<L, S, C>,
    reclaimer: &Mutex<Reclaimer<'_>>,
    gate: &G,
) -> bool
    ensures { result ≡ shared.now.ahead }
{
    let is_ahead = shared.is_ahead();
    let mut ahead = Ahead::new();
    for _ in rt.forever() {
        let calls = shared.locks().signals().daemon().rings();
        let has_ended = shared.locks().has_ended();
        let rest = step(rt, shared, reclaimer, gate, &mut ahead);
        tell_free(rt, shared, reclaimer, gate);
        if has_ended {
            return is_ahead;
        }
        match rest {
            Rest::Nothing => {}
            Rest::Nap(millis) => shared.locks().nap(rt, calls, millis),
            Rest::UntilCalled => shared.locks().wait_for_call(rt, calls),
        }
    }
    unreachable!()
}

/// Takes the daemon's next step. Answers what it may do then.
fn step<L: Ledger, S: SwapSlot, C: Clock, G: Gate, R: Wait>(
    rt: &R,
    shared: &Shared<L, S, C>,
    reclaimer: &Mutex<Reclaimer<'_>>,
    gate: &G,
    ahead: &mut Ahead,
) -> Rest {
    let _reclaimer = reclaimer.lock(rt);
    purge_ended(rt, shared);
    if shared.locks().signals().is_reclaiming() {
        return ahead.rest_under_pressure(shared.is_ahead());
    }
    let room = shared.frames(rt);
    if room.wants_frames {
        return match make_room_once(rt, shared, gate) {
            Room::Made => Rest::Nothing,
            Room::Stuck(_) | Room::NoPage => Rest::UntilCalled,
        };
    }
    if shared.is_ahead() {
        return ahead.step(rt, shared, gate, &room);
    }
    Rest::UntilCalled
}

/// Each process that has ended since gives its pages back, and their frames are offered.
fn purge_ended<L: Ledger, S: SwapSlot, C: Clock, R: Wait>(rt: &R, shared: &Shared<L, S, C>) {
    let mut has_purged = false;
    for number in 0..shared.processes() {
        if shared.locks().signals().take_end(number) {
            shared.purge(rt, number);
            has_purged = true;
        }
    }
    if has_purged {
        let free = shared.frames(rt).free;
        shared.locks().signals().loosen();
        shared.locks().signals().offer(free);
    }
}

impl<L: Ledger, S: SwapSlot, C: Clock> Shared<L, S, C> {
    /// Makes room for a hart that found no frame, in its worker's turn. Where a process was tried for too often it is ended.
    pub fn make_room<G: Gate, R: Wait>(
        &self,
        rt: &R,
        reclaimer: &Mutex<Reclaimer<'_>>,
        gate: &G,
    ) -> Room {
        let _reclaimer = reclaimer.lock(rt);
        purge_ended(rt, self);
        if self.frames(rt).free > 0 {
            return Room::Made;
        }
        let room = make_room_once(rt, self, gate);
        self.locks().signals().count_try(room == Room::Made);
        room
    }
}

/// Lets the page of a victim go.
fn make_room_once<L: Ledger, S: SwapSlot, C: Clock, G: Gate, R: Wait>(
    rt: &R,
    shared: &Shared<L, S, C>,
    gate: &G,
) -> Room {
    let Some(victim) = find_victim(rt, shared) else {
        return Room::NoPage;
    };
    if !let_go(rt, shared, gate, victim) {
        return Room::Stuck(victim.process);
    }
    if gate.wants_statuses() {
        shared.locks().signals().note_free();
    }
    Room::Made
}

/// Tells the gate how far processes have come, where frames have come free since. No lock is held meanwhile, so that nobody waits for the gate.
fn tell_free<L: Ledger, S: SwapSlot, C: Clock, G: Gate, R: Wait>(
    rt: &R,
    shared: &Shared<L, S, C>,
    reclaimer: &Mutex<Reclaimer<'_>>,
    gate: &G,
) {
    if !shared.locks().signals().take_free() {
        return;
    }
    let mut statuses = [Status {
        steps: 0,
        output: 0,
    }; MOST_PROCESSES];
    let count = reclaimer.lock(rt).look(rt, &mut statuses);
    gate.after_free(&statuses[..count.min(MOST_PROCESSES)]);
}

/// Waits for a short while.
pub fn pause<R: Wait>(rt: &R) {
    AtomicU64::new(0).park_timeout(rt, 0, Duration::from_millis(SHORT_PAUSE_MILLIS));
}

/// Asks the list until it names a victim. There is none where no page is resident.
fn find_victim<L: Ledger, S: SwapSlot, C: Clock, R: Wait>(
    rt: &R,
    shared: &Shared<L, S, C>,
) -> Option<Key> {
    for _ in rt.forever() {
        let Ok(hold) = shared.sweep(rt) else {
            return None;
        };
        match hold.reply? {
            Swept::NothingResident => return None,
            Swept::Asked { .. } => {}
            Swept::Victim(key) => return Some(key),
        }
    }
    unreachable!()
}

/// Lets a leaving page go, once no hart of its process has a translation of it. Answers whether its frame came free.
fn let_go<L: Ledger, S: SwapSlot, C: Clock, G: Gate, R: Wait>(
    rt: &R,
    shared: &Shared<L, S, C>,
    gate: &G,
    key: Key,
) -> bool {
    for _ in rt.forever() {
        give_notices(rt, shared.locks(), key.process);
        let Some(hold) = shared.collect(rt, key) else {
            return false;
        };
        let HoldOfAll { reply, .. } = hold;
        let Some(found) = reply else {
            return false;
        };
        match found {
            // A hart that was started since may have it: it takes notice with its next slice, or now.
            Looked::NotYet => pause(rt),
            Looked::Freed => return true,
            Looked::Dirty(job) => return save(rt, shared, gate, job),
            Looked::NoSlot => {
                kill_if_spent(rt, shared.locks(), key.process);
                return false;
            }
            Looked::NotLeaving => return false,
        }
    }
    unreachable!()
}

/// The harts of a process drop their translations that are to be dropped.
pub(crate) fn give_notices<L: Ledger, S: SwapSlot, R: Wait>(
    rt: &R,
    locks: &ProcessLocks<L, S>,
    process: u32,
) {
    for hart in 0..MOST_HARTS as u32 {
        if locks.signals().is_live(process, hart) {
            locks.notice(rt, process, hart);
        }
    }
}

/// A page of a process could not leave its frame. Where room is made for a hart, that may end the process.
fn kill_if_spent<L: Ledger, S: SwapSlot, R: Wait>(
    rt: &R,
    locks: &ProcessLocks<L, S>,
    process: u32,
) {
    if locks.signals().is_reclaiming() {
        locks.kill_if_spent(rt, process);
    }
}

/// Saves a page, with no lock held, and lets its frame go. Answers whether it came free.
fn save<L: Ledger, S: SwapSlot, C: Clock, G: Gate, R: Wait>(
    rt: &R,
    shared: &Shared<L, S, C>,
    gate: &G,
    job: SaveJob<S>,
) -> bool {
    let key = job.key();
    let Some(hold) = shared.saved(rt, write_slot(gate, job)) else {
        return false;
    };
    let HoldOfBoth { reply, .. } = hold;
    let Some(reply) = reply else {
        return false;
    };
    match reply {
        SaveOutcome::Freed => true,
        SaveOutcome::ResidentAgain(_) => {
            kill_if_spent(rt, shared.locks(), key.process);
            false
        }
        SaveOutcome::WrongPage(_) => false,
    }
}
