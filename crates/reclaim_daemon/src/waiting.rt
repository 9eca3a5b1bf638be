//! Who waits for what, and is woken.

use crate::process_locks::ProcessLocks;
use crate::shared::Shared;
use clock_policy::Clock;
use hart_signals::{Bell, PageWait, Runner};
use held_machine::Held;
use machine_limits::MOST_HARTS;
use space_core::Space;
use std::sync::Wait;
use std::sync::ledger::Ledger;
use std::time::Duration;
use swap_slots::SwapSlot;

/// For how many milliseconds a thread sleeps at most before it looks again. Nothing relies on it: each thing that a thread may wait for rings
/// its bell.
const NAP_MILLIS: u64 = 60_000;

/// After how many tries in a row that made no room harts rest. Until then the process whose page could not leave gets on each time.
const FIRST_TRIES: u64 = 16;

/// What the daemon sees of the machine's frames.
#[derive(Clone, Copy)]
pub(crate) struct Frames {
    pub(crate) frames: u32,
    /// How many of them are free.
    pub(crate) free: usize,
    /// Whether these are fewer than are to be.
    pub(crate) wants_frames: bool,
    /// How many pages were admitted so far.
    pub(crate) page_ins: u64,
}

/// What a hold has seen of a process.
#[derive(Clone, Copy)]
pub(crate) struct News {
    /// Other harts are live than before.
    harts: bool,
    /// It has ended.
    ended: bool,
}

impl<L: Ledger, S: SwapSlot, C: Clock> Shared<L, S, C> {
    /// What frames there are.
    pub(crate) fn frames<R: Wait>(&self, rt: &R) -> Frames {
        let desk = self.desk.lock(rt);
        let counts = desk.pager().counts().pager;
        Frames {
            frames: desk.pager().size(),
            free: counts.free,
            wants_frames: desk.wants_frames(),
            page_ins: counts.tallies.page_ins,
        }
    }
}

impl<L: Ledger, S: SwapSlot> ProcessLocks<L, S> {
    /// Whether each process has ended.
    pub fn has_ended(&self) -> bool {
        self.signals().ended() >= u64::from(self.count())
    }

    /// Whether a hart of a process is live, as far as is known without its lock.
    pub fn is_live(&self, number: u32, hart: u32) -> bool {
        self.signals().is_live(number, hart)
    }

    /// Whether any hart of a process is live, as far as is known without its lock.
    pub fn has_live(&self, number: u32) -> bool {
        self.signals().has_live(number)
    }

    /// Whether a hart of a process may be carried: it is live, harts may run, and where it yielded each other live hart of the process has had a turn
    /// since.
    /// No lock is taken to know that, so that nobody waits for a process whose other harts run only to find that this one may not.
    pub fn may_run(&self, number: u32, hart: u32) -> bool {
        self.signals().may_run(number, hart)
    }

    /// A hart's turn is over, by a yield or otherwise.
    pub fn end_turn(&self, number: u32, hart: u32, yielded: bool) {
        self.signals().end_turn(number, hart, yielded);
    }

    /// What a hart of a process waits for by now.
    pub fn set_wait(&self, number: u32, hart: u32, wait: PageWait) {
        self.signals().set_wait(number, hart, wait);
    }

    /// A page of the process `stuck` could not leave while a worker makes room for this hart. Answers whether the worker goes on to make room: else it has
    /// given the turn to another one, and the hart waits.
    ///
    /// A process that is not the hart's gets on meanwhile, so that it is not tried for too often for another one's sake. Where that has made no room 16
    /// times no hart runs until a frame is free, as none runs while room is made where one thread runs all.
    pub fn heed_stuck<R: Wait>(
        &self,
        rt: &R,
        worker: u32,
        number: u32,
        hart: u32,
        stuck: u32,
    ) -> bool {
        let signals = self.signals();
        let failed = signals.failed_tries();
        if failed > FIRST_TRIES {
            signals.begin_rest();
            return true;
        }
        let is_due = signals.count_stuck(stuck) == self.most_tries() / 2;
        if is_due && stuck != number {
            // Whoever is lent the turn may be done with it at once, and gives it back only to a worker that is hungry by then.
            signals.set_hungry(worker, true);
            if signals.lend_turn(worker, stuck) {
                return false;
            }
        }
        if stuck == number {
            let _ = self.press(rt, number, hart);
            return true;
        }
        let rings = self.rings(worker);
        match signals.watch(stuck, worker) {
            None => true,
            Some(Runner::Another) => {
                self.wait_for_ring(rt, worker, rings);
                true
            }
            Some(Runner::Itself) => {
                signals.set_hungry(worker, true);
                signals.ring_worker(u64::from(worker));
                false
            }
        }
    }

    /// Whether a worker has a hart that waits for a frame.
    pub fn set_hungry(&self, worker: u32, is_hungry: bool) {
        self.signals().set_hungry(worker, is_hungry);
    }

    /// Whether a worker that found no frame may make room for the hart that it carries: it has the turn, or nobody has, and the hart has not had its pages
    /// while another worker waits. Else the worker is hungry from now on, and is rung once it has the turn.
    pub fn take_turn(&self, worker: u32) -> bool {
        let signals = self.signals();
        if !signals.take_turn(worker) {
            signals.set_hungry(worker, true);
            // Whoever gave the turn back before may not have seen that this worker is hungry.
            if !signals.take_turn(worker) {
                return false;
            }
        }
        if signals.is_served(worker) {
            signals.set_hungry(worker, true);
            // Nobody may wait any more by the time that the turn would be passed on: then the worker, which keeps it, is to try again.
            signals.ring_worker(u64::from(worker));
            return false;
        }
        true
    }

    /// Whether a hart of a worker that waits for a frame may try for its page: it is the worker's turn to make room, or nobody's.
    pub fn may_try(&self, worker: u32) -> bool {
        let signals = self.signals();
        !signals.is_reclaiming() || signals.has_turn(worker)
    }

    /// Whether a frame was offered to a worker since this was asked last.
    pub fn take_offer(&self, worker: u32) -> bool {
        self.signals().take_offer(worker)
    }

    /// Whether it is a worker's turn to make room.
    pub fn has_turn(&self, worker: u32) -> bool {
        self.signals().has_turn(worker)
    }

    /// The process for which a worker has the turn out of order, if it has.
    pub fn lent_for(&self, worker: u32) -> Option<u32> {
        self.signals().lent_for(worker)
    }

    /// Whether a worker was given the turn to make room and has not begun it: then it begins.
    pub fn begin_turn(&self, worker: u32) -> bool {
        self.signals().begin_turn(worker)
    }

    /// A worker carries its next hart, for which pages are counted anew where it is the worker's turn.
    pub fn begin_serving(&self, worker: u32) {
        if self.signals().has_turn(worker) {
            self.signals().begin_serving();
        }
    }

    /// A page has come in for a hart that a worker carries, which counts where it is the worker's turn.
    pub fn count_page(&self, worker: u32) {
        if self.signals().has_turn(worker) {
            self.signals().count_page();
        }
    }

    /// A worker gives the turn back, to the next one that waits for a frame.
    pub fn pass_turn(&self, worker: u32) {
        self.signals().pass_turn(worker);
    }

    /// A worker's harts were served: where it has the turn to make room and another worker waits for a frame, the next one gets it.
    pub fn let_others_reclaim(&self, worker: u32) {
        let signals = self.signals();
        if signals.has_begun(worker) && signals.others_wait(worker) {
            signals.pass_turn(worker);
        }
    }

    /// Harts may run again.
    pub fn end_rest(&self) {
        self.signals().end_rest();
    }

    /// How often a worker's bell has rung. Read it before you look for what there is to do.
    pub fn rings(&self, worker: u32) -> u64 {
        match self.signals().worker(worker) {
            Some(bell) => bell.rings(),
            None => 0,
        }
    }

    /// Sleeps until a worker's bell has rung since `rings` was read.
    pub fn wait_for_ring<R: Wait>(&self, rt: &R, worker: u32, rings: u64) {
        if let Some(bell) = self.signals().worker(worker) {
            sleep(rt, bell, rings, NAP_MILLIS);
        }
    }

    /// The same of the daemon's bell.
    pub(crate) fn wait_for_call<R: Wait>(&self, rt: &R, calls: u64) {
        self.nap(rt, calls, NAP_MILLIS);
    }

    /// The same, for so many milliseconds at most.
    pub(crate) fn nap<R: Wait>(&self, rt: &R, calls: u64, millis: u64) {
        sleep(rt, self.signals().daemon(), calls, millis);
    }

    /// What a hold has seen of a process under its lock, which others learn once that is let go: nothing where the process is not the one of its lock's
    /// number, which is noted.
    pub(crate) fn news(&self, number: u32, held: &Held<L, S>, had_ended: bool) -> News {
        if held.process() != number {
            self.misplace();
            return News {
                harts: false,
                ended: false,
            };
        }
        let live = live_harts(held.side());
        News {
            harts: self.signals().set_live(number, &live),
            ended: !had_ended && held.side().end().is_some(),
        }
    }

    /// Tells who may wait for it.
    pub(crate) fn tell(&self, number: u32, news: News) {
        if news.harts {
            self.signals().tell_harts(number);
        }
        if news.ended {
            self.signals().tell_end(number, u64::from(self.count()));
        }
    }
}

/// Sleeps until a bell has rung since `rings` was read, or for so many milliseconds.
fn sleep<R: Wait>(rt: &R, bell: &Bell, rings: u64, millis: u64) {
    bell.set_asleep(true)
        .park_timeout(rt, low_half(rings), Duration::from_millis(millis));
    bell.set_asleep(false);
}

/// The live harts of a process that goes on.
fn live_harts<L: Ledger, S: SwapSlot>(side: &Space<L, S>) -> [bool; MOST_HARTS] {
    let mut live = [false; MOST_HARTS];
    if side.end().is_none() {
        for (number, hart) in live.iter_mut().enumerate() {
            *hart = side.is_live(number as u32);
        }
    }
    live
}

/// The low 32 bits of a word.
pub(crate) fn low_half(word: u64) -> u32 {
    (word & 0xffff_ffff) as u32
}
