//! Harts that wait for one another, or for frames: the machine gets on, and nothing goes round in vain. A thread that missed a bell would
//! sleep for a minute.

use crate::guests::{FITS, FITS_STEPS, TAKES_TURNS, TAKES_TURNS_STEPS};
use crate::machine::{Setting, expect, played, sound_slots};
use flat_machine::End;
use machine_sides::Report;
use reclaim_daemon::OpenGate;
use std::process::Abort;

/// All pages have a frame, but fewer frames are free than are to be, and no page can leave its own, since there is no slot.
#[test]
fn a_program_whose_pages_fit_ends_without_slots(rt: HostRuntime) {
    let alloc = rt.alloc();
    for workers in [1, 4] {
        let setting = Setting {
            frames: 64,
            workers,
            slice: 1000,
            ahead: false,
        };
        let slots = sound_slots(&rt, alloc, 0);
        let run = played(&rt, alloc, setting, slots, &[FITS], &OpenGate);
        expect(&rt, &run, &[(0, FITS_STEPS, b"")]);
        assert!(rt; run.report.victims < 100);
    }
}

/// Each process has exited with the sum of all turns.
fn expect_turns(rt: &impl Abort, report: &Report) {
    assert!(rt; report.audit);
    for process in report.processes.iter() {
        assert!(rt; process.end == Some(End::Exited(3200)));
    }
}

/// Harts that yield while another one waits for a page take a turn each, and no more.
#[test]
fn harts_that_yield_wait_for_the_others(rt: HostRuntime) {
    let alloc = rt.alloc();
    for frames in [4, 16, 64] {
        for workers in [1, 2, 4, 8] {
            let setting = Setting {
                frames,
                workers,
                slice: 1000,
                ahead: false,
            };
            let slots = sound_slots(&rt, alloc, 64);
            let run = played(&rt, alloc, setting, slots, &[TAKES_TURNS], &OpenGate);
            expect_turns(&rt, &run.report);
            for process in run.report.processes.iter() {
                assert!(rt; process.steps < 3 * TAKES_TURNS_STEPS);
            }
        }
    }
}

#[test]
fn eight_processes_of_eight_harts_share_sixteen_frames(rt: HostRuntime) {
    let alloc = rt.alloc();
    let setting = Setting {
        frames: 16,
        workers: 8,
        slice: 1000,
        ahead: false,
    };
    let slots = sound_slots(&rt, alloc, 256);
    let sources = [TAKES_TURNS; 8];
    let run = played(&rt, alloc, setting, slots, &sources, &OpenGate);
    expect_turns(&rt, &run.report);
    assert!(rt; run.report.processes.len() == 8);
}
