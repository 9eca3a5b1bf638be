//! Instructions that are served one by one, as a debugger steps: a page is reported as unavailable where a run would give it up, and
//! no sooner.

ghost use Rattle.std.specs.Prelude.{◌≡◌};

use crate::late_slots::{LateSlot, late_slots};
use crate::machine::processes;
use clock_ring::ClockRing;
use flat_machine::End;
use machine_core::Core;
use serial_driver::{ServedStep, serve_step};
use std::alloc::Global;
use std::marker::Brand;
use std::process::Abort;
use std::sync::ledger::{Blank, Ledger};
use test_guests::WRITES_A_SUM;

/// More instructions than the guest has.
const MOST_STEPS: u32 = 200;

/// How many instructions of a process ran, what came of the first that did not, and how the process has ended.
type Course = (u32, Option<ServedStep>, Option<End>);

/// The course of a machine's process, up to its end or to the first instruction that does not run.
fn course_of<L: Ledger>(core: &mut Core<L, LateSlot, ClockRing>) -> Option<Course> {
    let mut ran = 0;
    let mut other = None;
    for before in 0..MOST_STEPS {
        if core.end(0) != Some(None) {
            break;
        }
        match serve_step(core, 0, 0) {
            ServedStep::Ran => ran = before + 1,
            served => {
                other = Some(served);
                break;
            }
        }
    }
    Some((ran, other, core.end(0)?))
}

/// The course of a process that runs on four frames over slots whose first calls fail.
fn serves<L: Ledger>(
    rt: &impl Abort,
    alloc: Global,
    slots: u32,
    failing: u64,
    told: Course,
    blank: Blank,
)
    requires name { blank.name ≡ L.name }
    requires parts { blank.parts ≡ L.parts }
    requires one_each { L.parts ≡ 5 }
{
    let slots = late_slots(rt, alloc, slots, failing);
    let starts = processes(rt, alloc, 1, WRITES_A_SUM);
    let mut core: Core<L, LateSlot, ClockRing> = Core::new(alloc, 4, blank, slots, starts).expect(
        rt,
        "no machine",
    );
    assert!(rt; course_of(&mut core) == Some(told));
}

/// With eleven slots that fail often, each page is had in the end. With slots that never take a page, or with none, the seventeenth
/// instruction is the first for which none can be had, as a run is ended there for want of a place; and the process goes on.
#[test]
fn a_page_is_absent_where_a_run_gives_it_up(rt: HostRuntime) {
    for failing in 0..6 {
        let told = (114, None, Some(End::Exited(0)));
        serves::<Brand>(&rt, rt.alloc(), 11, failing, told, Blank::new(5));
    }
    for slots in [0, 11] {
        let told = (16, Some(ServedStep::Absent), None);
        serves::<Brand>(&rt, rt.alloc(), slots, u64::MAX, told, Blank::new(5));
    }
}
