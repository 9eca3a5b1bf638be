//! Processes on slots that fail once, or lie once.

use crate::guests::SPINS;
use crate::machine::{Setting, expect, played, played_sum, sound_slots};
use flat_machine::{End, KillCause};
use machine_sides::Report;
use reclaim_daemon::OpenGate;
use std::process::Abort;
use swap_slots::FuseSlot;
use test_slots::{BlinkSlot, FlipSlot};

const ON_FOUR_FRAMES: Setting = Setting {
    frames: 4,
    workers: 2,
    slice: 1000,
    ahead: false,
};

/// The first call of a slot is a save, the second a load. At most four of the eleven pages that the guest changes are in frames at a
/// time, so that at least seven are saved, and a save fails before each, or a load of each.
#[test]
fn slots_that_fail_once_end_no_process(rt: HostRuntime) {
    let alloc = rt.alloc();
    for failing in [1, 2] {
        let mut slots = Vec::new(alloc);
        for _ in 0..11 {
            let slot = BlinkSlot::new(alloc, failing).expect(&rt, "no slot");
            slots.push(slot).expect(&rt, "no slots");
        }
        let run = played_sum(&rt, alloc, ON_FOUR_FRAMES, slots);
        expect(&rt, &run, &[(0, 114, b"B")]);
        assert!(rt; run.report.saves >= 7, "call {failing}");
    }
}

#[test]
fn a_damaged_page_ends_its_process(rt: HostRuntime) {
    let alloc = rt.alloc();
    let mut slots = Vec::new(alloc);
    for _ in 0..11 {
        let slot = FlipSlot::new(alloc, 1).expect(&rt, "no slot");
        slots.push(slot).expect(&rt, "no slots");
    }
    let run = played_sum(&rt, alloc, ON_FOUR_FRAMES, slots);
    expect_killed(&rt, &run.report, KillCause::Damaged);
}

/// The machine has ended the one process, which has written nothing.
fn expect_killed(rt: &impl Abort, report: &Report, cause: KillCause) {
    assert!(rt; report.audit);
    assert!(rt; report.processes.len() == 1);
    for process in report.processes.iter() {
        assert!(rt; process.end == Some(End::Killed(cause)));
        assert!(rt; process.output.is_empty());
    }
}

/// Each process has run so many instructions.
fn expect_steps(rt: &impl Abort, report: &Report, steps: u64) {
    for process in report.processes.iter() {
        assert!(rt; process.steps == steps);
    }
}

#[test]
fn a_process_without_slots_is_ended(rt: HostRuntime) {
    let alloc = rt.alloc();
    let slots = sound_slots(&rt, alloc, 0);
    let run = played_sum(&rt, alloc, ON_FOUR_FRAMES, slots);
    expect_killed(&rt, &run.report, KillCause::NoSwap);
    expect_steps(&rt, &run.report, 16);
}

/// Each slot saves once and loads nothing.
#[test]
fn a_page_that_cannot_be_loaded_ends_its_process(rt: HostRuntime) {
    let alloc = rt.alloc();
    let mut slots = Vec::new(alloc);
    for _ in 0..11 {
        let slot = FuseSlot::new(alloc, 1).expect(&rt, "no slot");
        slots.push(slot).expect(&rt, "no slots");
    }
    let run = played_sum(&rt, alloc, ON_FOUR_FRAMES, slots);
    expect_killed(&rt, &run.report, KillCause::LoadFailed);
}

/// Two harts run by turns of one instruction, of which each is an entry of the schedule but those before the second hart starts.
#[test]
fn a_full_schedule_ends_its_process(rt: HostRuntime) {
    let alloc = rt.alloc();
    let setting = Setting {
        frames: 64,
        workers: 1,
        slice: 1,
        ahead: false,
    };
    let slots = sound_slots(&rt, alloc, 0);
    let run = played(&rt, alloc, setting, slots, &[SPINS], &OpenGate);
    expect_killed(&rt, &run.report, KillCause::ScheduleFull);
    expect_steps(&rt, &run.report, 1_000_004);
}
