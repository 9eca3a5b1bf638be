//! What the threads of a machine let one another know.

use crate::bell::Bell;
use crate::callers::Callers;
use crate::harts::{Harts, PageWait};
use crate::reclaiming::ReclaimTurn;
use crate::signs::{Signs, Station};
use machine_limits::{MOST_HARTS, MOST_PROCESSES};
use std::alloc::{AllocError, Global};
use std::sync::atomic::{AtomicU64, Ordering};

/// Which worker may run an instruction of a process that another worker waits for.
#[derive(Clone, Copy, Debug, PartialEq, Eq)]
pub enum Runner {
    /// The one that waits.
    Itself,
    Another,
}

/// What the threads of a machine let one another know. Hart `h` of process `p` falls to worker `(p + h) % workers`.
#[derive(Drop)]
pub struct Signals {
    processes: Vec<Signs>,
    daemon: Bell,
    pub(crate) workers: Vec<Station>,
    pub(crate) turn: ReclaimTurn,
    /// How many processes have ended.
    ended: AtomicU64,
    /// Above 0 where frames have come free since the daemon last called the gate.
    freed: AtomicU64,
}

impl Signals {
    /// Those of a machine with no process and no worker.
    pub fn new(alloc: Global) -> Self {
        Signals {
            processes: Vec::new(alloc),
            daemon: Bell::new(),
            workers: Vec::new(alloc),
            turn: ReclaimTurn::new(),
            ended: AtomicU64::new(0),
            freed: AtomicU64::new(0),
        }
    }

    /// One more process, of the next number.
    pub fn add_process(&mut self) -> Result<(), AllocError> {
        self.processes.push(Signs {
            harts: Harts::new(),
            callers: Callers::new(),
            ended: AtomicU64::new(0),
            pressed: AtomicU64::new(0),
            watcher: AtomicU64::new(0),
            stuck: AtomicU64::new(0),
        })?;
        Ok(())
    }

    /// So many workers more, of the next numbers.
    pub fn add_workers(&mut self, count: u32) -> Result<(), AllocError> {
        for _ in 0..count {
            self.workers.push(Station::new())?;
        }
        Ok(())
    }

    /// The daemon's bell.
    pub fn daemon(&self) -> &Bell {
        &self.daemon
    }

    /// A frame has come free, for which the daemon is to call the gate: it is rung where it has done so for all before.
    pub fn note_free(&self) {
        if self.freed.swap(1, Ordering::SeqCst) == 0 {
            self.daemon.ring();
        }
    }

    /// Whether frames have come free since this was asked last.
    pub fn take_free(&self) -> bool {
        self.freed.load(Ordering::SeqCst) != 0 && self.freed.swap(0, Ordering::SeqCst) != 0
    }

    /// A worker's bell.
    pub fn worker(&self, number: u32) -> Option<&Bell> {
        let station = self.workers.get(number as usize)?;
        Some(&station.bell)
    }

    /// Who goes first at a process's lock.
    pub fn callers(&self, process: u32) -> Option<&Callers> {
        let signs = self.processes.get(process as usize)?;
        Some(&signs.callers)
    }

    fn harts(&self, process: u32) -> Option<&Harts> {
        let signs = self.processes.get(process as usize)?;
        Some(&signs.harts)
    }

    /// The worker to whom a hart falls.
    pub(crate) fn carrier(&self, process: u32, hart: u32) -> Option<u64> {
        let workers = self.workers.len() as u64;
        if workers == 0 {
            return None;
        }
        Some((u64::from(process) + u64::from(hart)) % workers)
    }

    /// Rings for a hart.
    fn ring(&self, process: u32, hart: u32) {
        if let Some(worker) = self.carrier(process, hart) {
            if let Some(station) = self.workers.get(worker as usize) {
                station.bell.ring();
            }
        }
    }
}

// What becomes of a process.
impl Signals {
    /// How many processes have ended.
    pub fn ended(&self) -> u64 {
        self.ended.load(Ordering::SeqCst)
    }

    /// Which harts of a process are live, as is seen under its lock. Answers whether they are others than before.
    pub fn set_live(&self, process: u32, live: &[bool; MOST_HARTS]) -> bool {
        match self.harts(process) {
            Some(harts) => harts.set_live(live),
            None => false,
        }
    }

    /// Other harts of a process are live than before: rings for each.
    pub fn tell_harts(&self, process: u32) {
        for hart in 0..MOST_HARTS as u32 {
            if self.is_live(process, hart) {
                self.ring(process, hart);
            }
        }
    }

    /// An instruction of a process has run: rings for the worker that waits for that.
    pub fn tell_ran(&self, process: u32) {
        if let Some(signs) = self.processes.get(process as usize) {
            if signs.stuck.load(Ordering::SeqCst) != 0 {
                signs.stuck.store(0, Ordering::SeqCst);
            }
            self.tell_watcher(signs);
        }
    }

    /// A page of a process could not leave. Answers how often in a row, since an instruction of it has run.
    pub fn count_stuck(&self, process: u32) -> u64 {
        match self.processes.get(process as usize) {
            Some(signs) => signs.stuck.fetch_add(1, Ordering::SeqCst).wrapping_add(1),
            None => 0,
        }
    }

    /// Rings for the worker that waits until an instruction of a process has run: one has, or a hart that could have run one may not any more.
    fn tell_watcher(&self, signs: &Signs) {
        if signs.watcher.load(Ordering::SeqCst) != 0 {
            if let Some(worker) = signs.watcher.swap(0, Ordering::SeqCst).checked_sub(1) {
                self.ring_worker(worker);
            }
        }
    }

    /// A worker is rung once an instruction of a process has run. Answers which worker may run one by now, if one does: the worker itself, where it carries
    /// a hart that may go on.
    pub fn watch(&self, process: u32, worker: u32) -> Option<Runner> {
        let signs = self.processes.get(process as usize)?;
        let own = u64::from(worker);
        signs.watcher.store(own.wrapping_add(1), Ordering::SeqCst);
        let mut runner = None;
        for hart in 0..MOST_HARTS as u32 {
            if signs.may_go_on(hart) {
                if self.carrier(process, hart) == Some(own) {
                    return Some(Runner::Itself);
                }
                runner = Some(Runner::Another);
            }
        }
        runner
    }

    /// A page of a process has come or gone: rings for each hart that waits for that or for a turn of another one.
    pub fn tell_page(&self, process: u32) {
        let Some(harts) = self.harts(process) else {
            return;
        };
        for hart in 0..MOST_HARTS as u32 {
            if harts.waits(hart) {
                self.ring(process, hart);
            }
        }
    }

    /// A process has ended: the daemon takes its pages back, and its harts are carried no more. Of so many processes it may be the last: then
    /// no worker has anything to do.
    pub fn tell_end(&self, process: u32, processes: u64) {
        // In this order: who sees that each has ended sees also that one is to be purged.
        if let Some(signs) = self.processes.get(process as usize) {
            signs.ended.store(1, Ordering::SeqCst);
            self.tell_watcher(signs);
        }
        let before = self.ended.fetch_add(1, Ordering::SeqCst);
        self.daemon.ring();
        if before.saturating_add(1) >= processes {
            for station in self.workers.iter() {
                station.bell.ring();
            }
        } else {
            for hart in 0..MOST_HARTS as u32 {
                self.ring(process, hart);
            }
        }
    }

    /// Whether a process has ended since this was asked last.
    pub fn take_end(&self, process: u32) -> bool {
        match self.processes.get(process as usize) {
            Some(signs) => {
                if signs.ended.load(Ordering::SeqCst) == 0 {
                    return false;
                }
                signs.ended.swap(0, Ordering::SeqCst) != 0
            }
            None => false,
        }
    }

    /// A hart of a process is pressed, unless one is already: no other one may run. Whoever says so has the process's lock.
    pub fn press(&self, process: u32, hart: u32) {
        if let Some(signs) = self.processes.get(process as usize) {
            if signs.pressed.load(Ordering::SeqCst) == 0 {
                signs
                    .pressed
                    .store(u64::from(hart).wrapping_add(1), Ordering::SeqCst);
            }
        }
    }

    /// No hart of a process is pressed any more: the others may run again. Whoever says so has the process's lock.
    pub fn end_press(&self, process: u32) {
        if let Some(signs) = self.processes.get(process as usize) {
            signs.pressed.store(0, Ordering::SeqCst);
            self.tell_harts(process);
        }
    }

    /// No hart may run until `end_rest`. Whoever has the turn to make room says so.
    pub fn begin_rest(&self) {
        self.turn.set_resting(true);
    }

    /// Harts may run again.
    pub fn end_rest(&self) {
        if self.turn.is_resting() {
            self.turn.set_resting(false);
            for process in 0..MOST_PROCESSES as u32 {
                self.tell_harts(process);
            }
        }
    }
}

// The harts.
impl Signals {
    /// Whether a hart is live.
    pub fn is_live(&self, process: u32, hart: u32) -> bool {
        match self.harts(process) {
            Some(harts) => harts.is_live(hart),
            None => false,
        }
    }

    /// Whether any hart of a process is live.
    pub fn has_live(&self, process: u32) -> bool {
        match self.harts(process) {
            Some(harts) => harts.has_live(),
            None => false,
        }
    }

    /// Whether a hart may be carried: it is live, harts may run, and where it yielded each other live hart of its process has had a turn since.
    pub fn may_run(&self, process: u32, hart: u32) -> bool {
        match self.processes.get(process as usize) {
            Some(signs) => !self.turn.is_resting() && signs.may_run(hart),
            None => false,
        }
    }

    /// A hart's turn is over, by a yield or otherwise: rings for those that wait, but those of its own carrier, who looks again in any case.
    pub fn end_turn(&self, process: u32, own: u32, yielded: bool) {
        let Some(signs) = self.processes.get(process as usize) else {
            return;
        };
        let harts = &signs.harts;
        harts.end_turn(own, yielded);
        if yielded {
            self.tell_watcher(signs);
        }
        let carrier = self.carrier(process, own);
        for hart in 0..MOST_HARTS as u32 {
            if harts.waits(hart) && self.carrier(process, hart) != carrier {
                self.ring(process, hart);
            }
        }
    }

    /// Whether a hart waits for a frame.
    pub(crate) fn waits_for_frame(&self, process: u32, hart: u32) -> bool {
        match self.harts(process) {
            Some(harts) => harts.waits_for_frame(hart),
            None => false,
        }
    }

    /// What a hart waits for by now.
    pub fn set_wait(&self, process: u32, hart: u32, wait: PageWait) {
        if let Some(signs) = self.processes.get(process as usize) {
            signs.harts.set_wait(hart, wait);
            if wait != PageWait::Nothing {
                self.tell_watcher(signs);
            }
        }
    }
}
