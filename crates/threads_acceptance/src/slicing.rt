//! How long slices are.

use crate::guests::COUNTS;
use crate::machine::{Setting, expect, played, sound_slots};
use clock_policy::Key;
use reclaim_daemon::Gate;
use status_cell::Status;
use std::sync::atomic::{AtomicU64, Ordering};

const SETTING: Setting = Setting {
    frames: 64,
    workers: 2,
    slice: 10,
    ahead: false,
};

/// Counts the slices that are as long as one may be, and those that are longer.
#[derive(Drop)]
struct Lengths {
    whole: AtomicU64,
    longer: AtomicU64,
}

impl Gate for Lengths {
    fn before_save(&self, _key: Key) {}

    fn before_load(&self, _key: Key) {}

    fn after_slice(&self, _process: u32, _hart: u32, ran: u32) {
        if ran == SETTING.slice {
            self.whole.fetch_add(1, Ordering::SeqCst);
        }
        if ran > SETTING.slice {
            self.longer.fetch_add(1, Ordering::SeqCst);
        }
    }

    fn wants_statuses(&self) -> bool {
        false
    }

    fn after_free(&self, _statuses: &[Status]) {}
}

#[test]
fn the_longest_slices_are_as_long_as_was_asked_for(rt: HostRuntime) {
    let alloc = rt.alloc();
    let gate = Lengths {
        whole: AtomicU64::new(0),
        longer: AtomicU64::new(0),
    };
    let slots = sound_slots(&rt, alloc, 4);
    let run = played(&rt, alloc, SETTING, slots, &[COUNTS], &gate);
    expect(&rt, &run, &[(2000, 6027, b"")]);
    assert!(rt; gate.whole.load(Ordering::SeqCst) != 0);
    assert!(rt; gate.longer.load(Ordering::SeqCst) == 0);
}
