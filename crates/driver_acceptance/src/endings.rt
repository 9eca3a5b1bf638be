//! Endings that the serial driver makes where slots fail or lie, or where there is not enough memory. The numbers are a model's; other
//! endings are in the sessions with the program.

use crate::guests::{ROUNDS, SPREADS};
use crate::machine::{endings, fuses, liars, played, played_scantly, processes, sound};
use crate::no_loads::slots_without_loads;
use flat_machine::{End, KillCause};
use machine_core::Report;
use std::alloc::Global;
use std::process::Abort;

/// More events than any of the runs takes that ends by itself.
const AMPLE: u64 = 100_000;

const NO_SWAP: Option<End> = Some(End::Killed(KillCause::NoSwap));

const LOAD_FAILED: Option<End> = Some(End::Killed(KillCause::LoadFailed));

const DAMAGED: Option<End> = Some(End::Killed(KillCause::Damaged));

const NO_MEMORY: Option<End> = Some(End::Killed(KillCause::NoMemory));

/// The processes have ended so, after so many instructions.
pub(crate) fn tells(rt: &impl Abort, alloc: Global, report: &Report, told: &[(Option<End>, u64)]) {
    assert!(rt; report.audit);
    assert!(rt; endings(rt, alloc, report).as_slice() == told);
}

/// The only process has ended so, after so many instructions and page-ins.
fn tells_of_one(
    rt: &impl Abort,
    alloc: Global,
    report: &Report,
    page_ins: u64,
    told: (Option<End>, u64),
) {
    assert!(rt; report.page_ins == page_ins);
    tells(rt, alloc, report, &[told]);
}

/// Ten pages come in, and the next is tried for three times.
#[test]
fn loads_that_fail_end_a_process(rt: HostRuntime) {
    let alloc = rt.alloc();
    let slots = slots_without_loads(&rt, alloc, 6);
    let starts = processes(&rt, alloc, 1, SPREADS);
    let report = played(&rt, alloc, slots, starts, 1000, AMPLE);
    tells_of_one(&rt, alloc, &report, 13, (LOAD_FAILED, 46));
}

/// The same page is damaged, and is tried for once.
#[test]
fn a_damaged_page_ends_a_process_at_once(rt: HostRuntime) {
    let alloc = rt.alloc();
    let slots = liars(&rt, alloc, 6);
    let starts = processes(&rt, alloc, 1, SPREADS);
    let report = played(&rt, alloc, slots, starts, 1000, AMPLE);
    tells_of_one(&rt, alloc, &report, 11, (DAMAGED, 46));
}

/// The list finds no memory for the page of the first instruction. The other processes run on.
#[test]
fn with_no_memory_a_process_ends_at_once(rt: HostRuntime) {
    let alloc = rt.alloc();
    let slots = sound(&rt, alloc, 23);
    let starts = processes(&rt, alloc, 3, SPREADS);
    let report = played_scantly(&rt, alloc, slots, starts, 7, AMPLE);
    let ends = Some(End::Exited(36));
    tells(
        &rt,
        alloc,
        &report,
        &[(NO_MEMORY, 0), (ends, 83), (ends, 83)],
    );
}

/// A slot is saved to and loaded from in turn, so that each call more that passes brings the process further, up to its end.
#[test]
fn fuses_end_a_process_where_they_blow(rt: HostRuntime) {
    let alloc = rt.alloc();
    for (passes, end, steps) in [
        (0, NO_SWAP, 28),
        (1, LOAD_FAILED, 61),
        (2, NO_SWAP, 82),
        (3, LOAD_FAILED, 115),
        (4, NO_SWAP, 136),
        (5, Some(End::Exited(63)), 147),
    ] {
        let slots = fuses(&rt, alloc, 6, passes);
        let starts = processes(&rt, alloc, 1, ROUNDS);
        let report = played(&rt, alloc, slots, starts, 1000, AMPLE);
        tells(&rt, alloc, &report, &[(end, steps)]);
    }
}
