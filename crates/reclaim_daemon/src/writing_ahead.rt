//! Changed pages are written to their slots while they are used, so that they can leave their frames with no save.
//!
//! One page at a time: its cleaning begins, and the harts of its process drop their translations of it, so that the next store sets its dirty bit; after a
//! pause, in which a page that is used all the time is stored to, a copy of it is taken and written with no lock held.

use crate::cleaning::HoldWithSlots;
use crate::gate::Gate;
use crate::process_locks::ProcessLocks;
use crate::reclaiming::give_notices;
use crate::shared::Shared;
use crate::waiting::Frames;
use crate::writing_out::write_slot;
use clock_policy::{Clock, Key};
use held_machine::Begun;
use machine_sides::Copying;
use std::sync::Wait;
use std::sync::ledger::Ledger;
use swap_slots::SwapSlot;

/// For how many milliseconds a pause lasts, unless the daemon is called.
const PAUSE_MILLIS: u64 = 2;

/// For how many pauses a page waits for its copy at most.
const MOST_PAUSES: u32 = 16;

/// For how many milliseconds the daemon naps at most where it finds no changed page, but may clean one.
const LONGEST_NAP_MILLIS: u64 = 1024;

/// What the daemon may do after a step.
#[derive(Clone, Copy)]
pub(crate) enum Rest {
    /// It goes on.
    Nothing,
    /// It sleeps for so many milliseconds, unless it is called.
    Nap(u64),
    /// It sleeps until it is called.
    UntilCalled,
}

/// How far the daemon has come with the pages that it writes ahead.
#[derive(Drop)]
pub(crate) struct Ahead {
    /// How many cleanings it has begun: no more than pages came in.
    cleanings: u64,
    /// How many pages had come in when it looked last.
    page_ins: u64,
    /// The process and the page from which on it looks for the next changed one.
    process: u32,
    from: u32,
    /// In how many processes, one after another, it has found none.
    passed: u32,
    /// The page whose cleaning has begun, and how many pauses it waits still.
    begun: Option<Key>,
    left: u32,
    /// For how many pauses each page waits for its copy: more where pages were stored to meanwhile.
    pauses: u32,
    /// How long it naps where it finds no changed page.
    nap: u64,
}

/// What came of a copy that was to be taken and written.
#[derive(Clone, Copy)]
enum Tried {
    /// The page was stored to meanwhile.
    Stored,
    /// A cache has a translation still by which it may be stored to unseen.
    NotYet,
    /// The cleaning has ended, by a copy or otherwise.
    Over,
}

impl Ahead {
    pub(crate) fn new() -> Self {
        Ahead {
            cleanings: 0,
            page_ins: 0,
            process: 0,
            from: 0,
            passed: 0,
            begun: None,
            left: 0,
            pauses: 1,
            nap: PAUSE_MILLIS,
        }
    }

    /// What the daemon may do while a worker makes room. It cleans no page then: who has just got a frame is to find the next one free again, or its
    /// pages leave before it has all that an instruction needs.
    pub(crate) fn rest_under_pressure(&self, is_ahead: bool) -> Rest {
        if is_ahead {
            Rest::Nap(LONGEST_NAP_MILLIS)
        } else {
            Rest::UntilCalled
        }
    }

    /// Takes the next step: a page's cleaning begins, waits, or comes to its end.
    pub(crate) fn step<L: Ledger, S: SwapSlot, C: Clock, G: Gate, R: Wait>(
        &mut self,
        rt: &R,
        shared: &Shared<L, S, C>,
        gate: &G,
        room: &Frames,
    ) -> Rest {
        let Some(key) = self.begun else {
            return self.begin(rt, shared, room);
        };
        if self.left > 0 {
            self.left -= 1;
            return Rest::Nap(PAUSE_MILLIS);
        }
        match copy(rt, shared, gate, key) {
            Tried::Stored => {
                self.begun = None;
                self.pauses = self.pauses.saturating_mul(2).min(MOST_PAUSES);
                Rest::Nothing
            }
            Tried::NotYet => {
                // A hart that was started since may have it: it takes notice with its next slice.
                give_notices(rt, shared.locks(), key.process);
                Rest::Nap(PAUSE_MILLIS)
            }
            Tried::Over => {
                self.begun = None;
                self.pauses = 1;
                Rest::Nothing
            }
        }
    }

    /// The cleaning of the next changed page begins, where one is due and evictions don't want for slots: more of these are free than there
    /// are frames. One process is looked at a step, so that frames are not wanted for long meanwhile.
    fn begin<L: Ledger, S: SwapSlot, C: Clock, R: Wait>(
        &mut self,
        rt: &R,
        shared: &Shared<L, S, C>,
        room: &Frames,
    ) -> Rest {
        if self.page_ins != room.page_ins {
            self.page_ins = room.page_ins;
            self.nap = PAUSE_MILLIS;
        }
        if self.cleanings >= room.page_ins || shared.free_slots(rt) <= room.frames as usize {
            return Rest::UntilCalled;
        }
        let process = self.process;
        if let Some(vpn) = begun_page(rt, shared.locks(), process, self.from) {
            self.from = vpn.saturating_add(1);
            self.passed = 0;
            self.cleanings = self.cleanings.saturating_add(1);
            self.begun = Some(Key { process, vpn });
            self.left = self.pauses.saturating_sub(1);
            self.nap = PAUSE_MILLIS;
            give_notices(rt, shared.locks(), process);
            return Rest::Nap(PAUSE_MILLIS);
        }
        self.from = 0;
        self.process = next_process(process, shared.processes());
        self.passed = self.passed.saturating_add(1);
        // The process that it began with comes twice: its pages below are looked at last.
        if self.passed <= shared.processes() {
            return Rest::Nothing;
        }
        self.passed = 0;
        let nap = self.nap;
        self.nap = nap.saturating_mul(2).min(LONGEST_NAP_MILLIS);
        Rest::Nap(nap)
    }
}

/// The process after this one, of so many, in a round.
fn next_process(process: u32, processes: u32) -> u32 {
    let next = process.saturating_add(1);
    if next < processes { next } else { 0 }
}

/// The page of a process, from this one on, whose cleaning has begun, if there is one.
fn begun_page<L: Ledger, S: SwapSlot, R: Wait>(
    rt: &R,
    locks: &ProcessLocks<L, S>,
    process: u32,
    from: u32,
) -> Option<u32> {
    let hold = locks.begin_clean(rt, process, from)?;
    match hold.reply? {
        Begun::Page(vpn) => Some(vpn),
        Begun::NoPage | Begun::Barred(_, _) => None,
    }
}

/// Takes the copy of a page whose cleaning has begun, and writes it, with no lock held.
fn copy<L: Ledger, S: SwapSlot, C: Clock, G: Gate, R: Wait>(
    rt: &R,
    shared: &Shared<L, S, C>,
    gate: &G,
    key: Key,
) -> Tried {
    let Some(hold) = shared.copy_clean(rt, key) else {
        return Tried::Over;
    };
    let HoldWithSlots { reply, .. } = hold;
    let Some(Ok(copying)) = reply else {
        return Tried::Over;
    };
    match copying {
        Copying::Stored => Tried::Stored,
        Copying::NotYet => Tried::NotYet,
        Copying::NoSlot => Tried::Over,
        Copying::Copied(job) => {
            shared.locks().cleaned(rt, write_slot(gate, job));
            Tried::Over
        }
    }
}
