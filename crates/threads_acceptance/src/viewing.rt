//! The daemon looks at how far processes have come, each time that a frame has come free.

use crate::machine::{Setting, expect, played, sound_slots};
use clock_policy::Key;
use reclaim_daemon::Gate;
use status_cell::Status;
use std::process::Abort;
use std::sync::atomic::{AtomicU64, Ordering};
use test_guests::WRITES_A_SUM;

/// How often a machine is run, since its threads meet otherwise each time.
const RUNS: u32 = 10;

const SETTING: Setting = Setting {
    frames: 4,
    workers: 2,
    slice: 10,
    ahead: false,
};

/// What was seen of a process: the pair that was seen last, how often it had risen, and how often one of its numbers had fallen.
#[derive(Drop)]
struct Sight {
    steps: AtomicU64,
    output: AtomicU64,
    rises: AtomicU64,
    falls: AtomicU64,
}

impl Sight {
    fn new() -> Self {
        Sight {
            steps: AtomicU64::new(0),
            output: AtomicU64::new(0),
            rises: AtomicU64::new(0),
            falls: AtomicU64::new(0),
        }
    }

    fn see(&self, status: Status) {
        let steps = self.steps.swap(status.steps, Ordering::SeqCst);
        let output = self.output.swap(status.output, Ordering::SeqCst);
        if status.steps < steps || status.output < output {
            self.falls.fetch_add(1, Ordering::SeqCst);
        }
        if status.steps > steps {
            self.rises.fetch_add(1, Ordering::SeqCst);
        }
    }
}

/// Looks at two processes.
#[derive(Drop)]
struct Watching {
    zero: Sight,
    one: Sight,
    /// How often the number of reported processes was not two.
    others: AtomicU64,
}

impl Gate for Watching {
    fn before_save(&self, _key: Key) {}

    fn before_load(&self, _key: Key) {}

    fn after_slice(&self, _process: u32, _hart: u32, _ran: u32) {}

    fn wants_statuses(&self) -> bool {
        true
    }

    fn after_free(&self, statuses: &[Status]) {
        if statuses.len() != 2 {
            self.others.fetch_add(1, Ordering::SeqCst);
            return;
        }
        self.zero.see(statuses[0]);
        self.one.see(statuses[1]);
    }
}

/// Each process needs more pages than there are frames, so that frames come free while it runs: its pair has risen by then, and rises again
/// before the last one does.
#[test]
fn the_pairs_of_two_processes_rise(rt: HostRuntime) {
    let alloc = rt.alloc();
    for _ in 0..RUNS {
        let gate = Watching {
            zero: Sight::new(),
            one: Sight::new(),
            others: AtomicU64::new(0),
        };
        let slots = sound_slots(&rt, alloc, 32);
        let run = played(
            &rt,
            alloc,
            SETTING,
            slots,
            &[WRITES_A_SUM, WRITES_A_SUM],
            &gate,
        );
        expect(&rt, &run, &[(0, 114, b"B"), (0, 114, b"B")]);
        assert!(rt; gate.others.load(Ordering::SeqCst) == 0);
        expect_rises(&rt, &gate.zero);
        expect_rises(&rt, &gate.one);
        assert!(rt; run.viewers.len() == 2);
    }
}

fn expect_rises(rt: &impl Abort, sight: &Sight) {
    assert!(rt; sight.falls.load(Ordering::SeqCst) == 0);
    assert!(rt; sight.rises.load(Ordering::SeqCst) >= 2);
    assert!(rt; sight.steps.load(Ordering::SeqCst) <= 114);
    assert!(rt; sight.output.load(Ordering::SeqCst) <= 1);
}
