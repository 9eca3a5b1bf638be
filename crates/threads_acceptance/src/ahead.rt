//! Machines that write changed pages ahead.

use crate::machine::{Setting, expect, played, played_sum, sound_slots};
use crate::sharing::{ON_FOUR_FRAMES, RUNS, played_by_three};
use clock_policy::Key;
use reclaim_daemon::Gate;
use status_cell::Status;
use std::sync::atomic::{AtomicU64, Ordering};
use std::thread::sleep;
use std::time::Duration;
use test_guests::WRITES_A_SUM;

/// How often a flag is looked at after a slice, with a millisecond's sleep each time.
const LOOKS: u32 = 200;

/// After each slice its process waits for a while until a page is about to be written.
#[derive(Drop)]
struct Written<'a> {
    rt: &'a HostRuntime,
    /// Above 0 once one is.
    saves: AtomicU64,
}

impl Gate for Written<'_> {
    fn before_save(&self, _key: Key) {
        self.saves.store(1, Ordering::SeqCst);
    }

    fn before_load(&self, _key: Key) {}

    fn after_slice(&self, _process: u32, _hart: u32, _ran: u32) {
        for _ in 0..LOOKS {
            if self.saves.load(Ordering::SeqCst) != 0 {
                return;
            }
            sleep(self.rt, Duration::from_millis(1));
        }
    }

    fn wants_statuses(&self) -> bool {
        false
    }

    fn after_free(&self, _statuses: &[Status]) {}
}

/// There is a frame for each page, so that none is to leave its own.
#[test]
fn a_page_is_written_while_it_stays(rt: HostRuntime) {
    let alloc = rt.alloc();
    let gate = Written {
        rt: &rt,
        saves: AtomicU64::new(0),
    };
    let setting = Setting {
        frames: 64,
        workers: 1,
        slice: 10,
        ahead: true,
    };
    let slots = sound_slots(&rt, alloc, 100);
    let run = played(&rt, alloc, setting, slots, &[WRITES_A_SUM], &gate);
    expect(&rt, &run, &[(0, 114, b"B")]);
    assert!(rt; gate.saves.load(Ordering::SeqCst) != 0);
    assert!(rt; run.report.victims == 0);
}

const AHEAD_ON_FOUR_FRAMES: Setting = Setting {
    frames: 4,
    workers: 4,
    slice: 1000,
    ahead: true,
};

#[test]
fn processes_share_four_frames_that_are_cleaned(rt: HostRuntime) {
    for _ in 0..RUNS {
        let run = played_by_three(&rt, rt.alloc(), AHEAD_ON_FOUR_FRAMES);
        assert!(rt; matches!(run.cleans, Some(cleans) if cleans <= run.report.page_ins));
    }
}

#[test]
fn no_page_is_cleaned_unasked(rt: HostRuntime) {
    let alloc = rt.alloc();
    let slots = sound_slots(&rt, alloc, 32);
    let run = played_sum(&rt, alloc, ON_FOUR_FRAMES, slots);
    assert!(rt; run.cleans == None);
}
