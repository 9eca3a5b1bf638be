//! Processes that need more pages than there are frames.

ghost use Rattle.std.specs.Prelude.{◌<◌};

use crate::guests::COUNTS;
use crate::machine::{Setting, expect, played, played_sum, sound_slots};
use hart_carriers::RunReport;
use reclaim_daemon::OpenGate;
use std::alloc::Global;
use std::process::Abort;
use std::sync::Wait;
use std::thread::Threads;
use test_guests::WRITES_A_SUM;

/// How often a machine is run, since its threads meet otherwise each time.
pub(crate) const RUNS: u32 = 25;

pub(crate) const ON_FOUR_FRAMES: Setting = Setting {
    frames: 4,
    workers: 4,
    slice: 1000,
    ahead: false,
};

#[test]
fn a_process_pages_on_four_frames(rt: HostRuntime) {
    let alloc = rt.alloc();
    for _ in 0..RUNS {
        let slots = sound_slots(&rt, alloc, 12);
        let run = played_sum(&rt, alloc, ON_FOUR_FRAMES, slots);
        expect(&rt, &run, &[(0, 114, b"B")]);
        assert!(rt; run.report.page_ins >= 12 && run.report.victims >= 8);
    }
}

/// Each of three processes comes to the same as where it is the only process. Their pages come and go.
pub(crate) fn played_by_three<R: Threads + Wait + Sync + Abort>(
    rt: &R,
    alloc: Global,
    setting: Setting,
) -> RunReport
    requires workers { 0 < setting.workers }
    requires slice { 0 < setting.slice }
{
    let slots = sound_slots(rt, alloc, 32);
    let sources = [COUNTS, COUNTS, WRITES_A_SUM];
    let run = played(rt, alloc, setting, slots, &sources, &OpenGate);
    expect(
        rt,
        &run,
        &[(2000, 6027, b""), (2000, 6027, b""), (0, 114, b"B")],
    );
    assert!(rt; run.report.page_ins >= 16 && run.report.victims >= 8);
    run
}

#[test]
fn processes_share_four_frames(rt: HostRuntime) {
    for _ in 0..RUNS {
        played_by_three(&rt, rt.alloc(), ON_FOUR_FRAMES);
    }
}
