//! Two processes run at the same time, also while one of them loads a page: neither holds a lock that the other one needs.

use crate::guests::{FITS, FITS_STEPS, FITS_STORED};
use crate::machine::{Setting, expect, played, sound_slots};
use clock_policy::Key;
use reclaim_daemon::Gate;
use status_cell::Status;
use std::sync::atomic::{AtomicU64, Ordering};
use std::thread::sleep;
use std::time::Duration;
use test_guests::{STORES_A_BYTE, WRITES_A_SUM};

/// How often a flag is looked at, with a millisecond's sleep each time: longer than any thread is kept from running on a busy machine.
const LOOKS: u32 = 30_000;

/// There is a frame for each page, and a slice ends a program that stores a byte.
const SETTING: Setting = Setting {
    frames: 64,
    workers: 2,
    slice: 10,
    ahead: false,
};

/// Whether a flag was seen to be set.
fn is_seen(rt: &HostRuntime, flag: &AtomicU64) -> bool {
    for _ in 0..LOOKS {
        if flag.load(Ordering::SeqCst) != 0 {
            return true;
        }
        sleep(rt, Duration::from_millis(1));
    }
    false
}

/// Sets a flag. Answers whether it was not set before.
fn is_first(flag: &AtomicU64) -> bool {
    flag.swap(1, Ordering::SeqCst) == 0
}

/// After its first slice each of two processes waits for the other's.
#[derive(Drop)]
struct Meeting<'a> {
    rt: &'a HostRuntime,
    /// Above 0 once a slice of process 0 is over, and of process 1.
    zero: AtomicU64,
    one: AtomicU64,
    missed: AtomicU64,
}

impl Meeting<'_> {
    fn meet(&self, own: &AtomicU64, other: &AtomicU64) {
        if is_first(own) {
            if !is_seen(self.rt, other) {
                self.missed.store(1, Ordering::SeqCst);
            }
        }
    }
}

impl Gate for Meeting<'_> {
    fn before_save(&self, _key: Key) {}

    fn before_load(&self, _key: Key) {}

    fn after_slice(&self, process: u32, _hart: u32, _ran: u32) {
        if process == 0 {
            self.meet(&self.zero, &self.one);
        } else {
            self.meet(&self.one, &self.zero);
        }
    }

    fn wants_statuses(&self) -> bool {
        false
    }

    fn after_free(&self, _statuses: &[Status]) {}
}

/// Process 1 waits after its first slice until process 0 is about to load its first page, and that load waits until a slice of
/// process 1 has run.
#[derive(Drop)]
struct HeldLoad<'a> {
    rt: &'a HostRuntime,
    /// Above 0 once process 0 is about to load, once the first slice of process 1 is over, and once another one of it has run meanwhile.
    loads: AtomicU64,
    held: AtomicU64,
    ran: AtomicU64,
    missed: AtomicU64,
}

impl Gate for HeldLoad<'_> {
    fn before_save(&self, _key: Key) {}

    fn before_load(&self, key: Key) {
        if key.process == 0 {
            if is_first(&self.loads) {
                if !is_seen(self.rt, &self.ran) {
                    self.missed.store(1, Ordering::SeqCst);
                }
            }
        }
    }

    fn after_slice(&self, process: u32, _hart: u32, ran: u32) {
        if process == 0 {
            return;
        }
        if is_first(&self.held) {
            if !is_seen(self.rt, &self.loads) {
                self.missed.store(1, Ordering::SeqCst);
            }
        } else if ran > 0 {
            self.ran.store(1, Ordering::SeqCst);
        }
    }

    fn wants_statuses(&self) -> bool {
        false
    }

    fn after_free(&self, _statuses: &[Status]) {}
}

/// Process 0 waits once it has stored to each of its pages, and process 1 after its first slice, until a page of process 0 is about to be
/// saved; and that save waits until process 1 has both brought a page in and run.
#[derive(Drop)]
struct HeldSave<'a> {
    rt: &'a HostRuntime,
    /// How many instructions process 0 has run.
    steps: AtomicU64,
    /// Above 0 once process 0 has stored to each of its pages, once it is about to save, once the first slice of process 1 is over, once it has
    /// begun a load since, and once a slice of it has run after that.
    stored: AtomicU64,
    saves: AtomicU64,
    held: AtomicU64,
    loads: AtomicU64,
    ran: AtomicU64,
    missed: AtomicU64,
}

impl HeldSave<'_> {
    /// Waits, where `own` was not set before, until a save has begun.
    fn wait_for_save(&self, own: &AtomicU64) {
        if is_first(own) {
            if !is_seen(self.rt, &self.saves) {
                self.missed.store(1, Ordering::SeqCst);
            }
        }
    }
}

impl Gate for HeldSave<'_> {
    fn before_save(&self, key: Key) {
        if key.process == 0 {
            if is_first(&self.saves) {
                if !is_seen(self.rt, &self.ran) {
                    self.missed.store(1, Ordering::SeqCst);
                }
            }
        }
    }

    fn before_load(&self, key: Key) {
        if key.process == 1 {
            self.loads.store(1, Ordering::SeqCst);
        }
    }

    fn after_slice(&self, process: u32, _hart: u32, ran: u32) {
        if process == 0 {
            self.steps.fetch_add(u64::from(ran), Ordering::SeqCst);
            if self.steps.load(Ordering::SeqCst) >= FITS_STORED {
                self.wait_for_save(&self.stored);
            }
        } else if self.held.load(Ordering::SeqCst) == 0 {
            self.wait_for_save(&self.held);
        } else if ran > 0 && self.loads.load(Ordering::SeqCst) != 0 {
            self.ran.store(1, Ordering::SeqCst);
        }
    }

    fn wants_statuses(&self) -> bool {
        false
    }

    fn after_free(&self, _statuses: &[Status]) {}
}

#[test]
fn two_processes_run_at_the_same_time(rt: HostRuntime) {
    let alloc = rt.alloc();
    let gate = Meeting {
        rt: &rt,
        zero: AtomicU64::new(0),
        one: AtomicU64::new(0),
        missed: AtomicU64::new(0),
    };
    let slots = sound_slots(&rt, alloc, 4);
    let report = played(
        &rt,
        alloc,
        SETTING,
        slots,
        &[STORES_A_BYTE, STORES_A_BYTE],
        &gate,
    );
    expect(&rt, &report, &[(0, 7, b""), (0, 7, b"")]);
    assert!(rt; gate.missed.load(Ordering::SeqCst) == 0);
}

#[test]
fn a_process_runs_while_another_loads(rt: HostRuntime) {
    let alloc = rt.alloc();
    let gate = HeldLoad {
        rt: &rt,
        loads: AtomicU64::new(0),
        held: AtomicU64::new(0),
        ran: AtomicU64::new(0),
        missed: AtomicU64::new(0),
    };
    let slots = sound_slots(&rt, alloc, 4);
    let report = played(
        &rt,
        alloc,
        SETTING,
        slots,
        &[WRITES_A_SUM, WRITES_A_SUM],
        &gate,
    );
    expect(&rt, &report, &[(0, 114, b"B"), (0, 114, b"B")]);
    assert!(rt; gate.missed.load(Ordering::SeqCst) == 0);
}

/// There is a frame for each page, so that process 1 finds one while the save of process 0 is held. But once process 0 has stored to its 62
/// pages of stack at most three frames are free, fewer than are to be, even where the page of its text has left its own, the only one that
/// needs no save for that. So a save begins.
#[test]
fn a_process_runs_while_a_page_of_another_is_saved(rt: HostRuntime) {
    let alloc = rt.alloc();
    let gate = HeldSave {
        rt: &rt,
        steps: AtomicU64::new(0),
        stored: AtomicU64::new(0),
        saves: AtomicU64::new(0),
        held: AtomicU64::new(0),
        loads: AtomicU64::new(0),
        ran: AtomicU64::new(0),
        missed: AtomicU64::new(0),
    };
    let setting = Setting {
        frames: 65,
        workers: 2,
        slice: 1000,
        ahead: false,
    };
    let slots = sound_slots(&rt, alloc, 70);
    let report = played(&rt, alloc, setting, slots, &[FITS, STORES_A_BYTE], &gate);
    expect(&rt, &report, &[(0, FITS_STEPS, b""), (0, 7, b"")]);
    assert!(rt; gate.missed.load(Ordering::SeqCst) == 0);
}
