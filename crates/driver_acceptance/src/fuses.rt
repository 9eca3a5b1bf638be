//! A guest over slots that fail for good: what it has done by then is what it does flat.

ghost use Rattle.std.specs.Prelude.{◌≡◌};

use crate::endings::tells;
use crate::machine::{fuses, image_of, processes};
use clock_ring::ClockRing;
use flat_machine::{End, FlatProcess, KillCause};
use machine_core::{Core, Report};
use serial_driver::run_serial;
use std::alloc::Global;
use std::marker::Brand;
use std::process::Abort;
use std::sync::ledger::{Blank, Ledger};
use swap_slots::FuseSlot;
use test_guests::WRITES_A_SUM;

/// Whether the process has the registers and the output of the run of its schedule, on a flat process at its beginning.
fn does_what_runs_on<L: Ledger>(
    core: &Core<L, FuseSlot, ClockRing>,
    flat: &mut FlatProcess,
) -> bool {
    let Some(schedule) = core.schedule(0) else {
        return false;
    };
    if flat.run(schedule).is_err() {
        return false;
    }
    core.regs(0, 0) == flat.regs(0) && core.output(0) == Some(flat.output())
}

fn does_what_it_does_flat<L: Ledger>(
    rt: &impl Abort,
    alloc: Global,
    core: &Core<L, FuseSlot, ClockRing>,
) -> bool {
    let image = image_of(rt, alloc, WRITES_A_SUM);
    let mut flat = FlatProcess::new(alloc, &image, Vec::new(alloc)).expect(rt, "no flat process");
    does_what_runs_on(core, &mut flat)
}

/// It ended so, after so many instructions and page-ins.
fn tells_of_one(
    rt: &impl Abort,
    alloc: Global,
    report: &Report,
    passes: u64,
    told: (End, u64, u64),
) {
    let (end, steps, page_ins) = told;
    tells(rt, alloc, report, &[(Some(end), steps)]);
    assert!(rt; report.page_ins == page_ins, "{passes} calls");
}

fn runs_to<L: Ledger>(
    rt: &impl Abort,
    alloc: Global,
    core: &mut Core<L, FuseSlot, ClockRing>,
    passes: u64,
    told: (End, u64, u64),
) {
    let report = run_serial(alloc, core, 1000, u64::MAX).expect(rt, "no report");
    tells_of_one(rt, alloc, &report, passes, told);
    assert!(rt; does_what_it_does_flat(rt, alloc, core), "{passes} calls");
}

/// Over slots of so many calls it ends so.
fn ends_over_fuses<L: Ledger>(
    rt: &impl Abort,
    alloc: Global,
    passes: u64,
    told: (End, u64, u64),
    blank: Blank,
)
    requires name { blank.name ≡ L.name }
    requires parts { blank.parts ≡ L.parts }
    requires one_each { L.parts ≡ 5 }
{
    let slots = fuses(rt, alloc, 11, passes);
    let starts = processes(rt, alloc, 1, WRITES_A_SUM);
    let mut core: Core<L, FuseSlot, ClockRing> = Core::new(alloc, 4, blank, slots, starts).expect(
        rt,
        "no machine",
    );
    runs_to(rt, alloc, &mut core, passes, told);
}

/// The numbers are a model's: with three calls of each slot it runs to its end.
#[test]
fn a_process_does_what_it_does_flat(rt: HostRuntime) {
    for (passes, end, steps, page_ins) in [
        (0, End::Killed(KillCause::NoSwap), 16, 5),
        (1, End::Killed(KillCause::LoadFailed), 51, 16),
        (2, End::Killed(KillCause::LoadFailed), 106, 27),
        (3, End::Exited(0), 114, 25),
    ] {
        let told = (end, steps, page_ins);
        ends_over_fuses::<Brand>(&rt, rt.alloc(), passes, told, Blank::new(5));
    }
}
