//! Machines of four frames, played to their end.

ghost use Rattle.std.specs.Prelude.{◌≡◌};

use crate::scant::ScantList;
use clock_policy::Clock;
use clock_ring::ClockRing;
use elf_image::Image;
use flat_machine::End;
use machine_core::{Core, Report};
use rv_asm::assemble;
use serial_driver::run_serial;
use std::alloc::Global;
use std::marker::Brand;
use std::process::Abort;
use std::sync::ledger::{Blank, Ledger};
use swap_slots::{FuseSlot, SwapSlot};
use test_slots::FlipSlot;

/// The image of a source.
pub(crate) fn image_of(rt: &impl Abort, alloc: Global, source: &str) -> Image {
    assemble(alloc, source)
        .expect(rt, "the source has a fault")
        .into_image()
}

/// Processes that all run this source, on no input.
pub(crate) fn processes(
    rt: &impl Abort,
    alloc: Global,
    count: u32,
    source: &str,
) -> Vec<(Image, Vec<u8>)> {
    let mut starts = Vec::new(alloc);
    for _ in 0..count {
        let image = image_of(rt, alloc, source);
        starts
            .push((image, Vec::new(alloc)))
            .expect(rt, "no processes");
    }
    starts
}

/// Slots of each of which so many calls succeed.
pub(crate) fn fuses(rt: &impl Abort, alloc: Global, count: u32, passes: u64) -> Vec<FuseSlot> {
    let mut slots = Vec::new(alloc);
    for _ in 0..count {
        let slot = FuseSlot::new(alloc, passes).expect(rt, "no slot");
        slots.push(slot).expect(rt, "no slots");
    }
    slots
}

/// Slots of each of which the first load lies.
pub(crate) fn liars(rt: &impl Abort, alloc: Global, count: u32) -> Vec<FlipSlot> {
    let mut slots = Vec::new(alloc);
    for _ in 0..count {
        let slot = FlipSlot::new(alloc, 1).expect(rt, "no slot");
        slots.push(slot).expect(rt, "no slots");
    }
    slots
}

/// Slots whose calls succeed.
pub(crate) fn sound(rt: &impl Abort, alloc: Global, count: u32) -> Vec<FuseSlot> {
    fuses(rt, alloc, count, u64::MAX)
}

/// What a machine of four frames has come to.
pub(crate) fn played<S: SwapSlot>(
    rt: &impl Abort,
    alloc: Global,
    slots: Vec<S>,
    processes: Vec<(Image, Vec<u8>)>,
    slice: u32,
    limit: u64,
) -> Report {
    played_with::<Brand, S, ClockRing>(rt, alloc, Blank::new(5), slots, processes, slice, limit)
}

/// The same where the list finds no memory for the first page.
pub(crate) fn played_scantly<S: SwapSlot>(
    rt: &impl Abort,
    alloc: Global,
    slots: Vec<S>,
    processes: Vec<(Image, Vec<u8>)>,
    slice: u32,
    limit: u64,
) -> Report {
    played_with::<Brand, S, ScantList>(rt, alloc, Blank::new(5), slots, processes, slice, limit)
}

fn played_with<L: Ledger, S: SwapSlot, C: Clock>(
    rt: &impl Abort,
    alloc: Global,
    blank: Blank,
    slots: Vec<S>,
    processes: Vec<(Image, Vec<u8>)>,
    slice: u32,
    limit: u64,
) -> Report
    requires name { blank.name ≡ L.name }
    requires parts { blank.parts ≡ L.parts }
    requires one_each { L.parts ≡ 5 }
{
    let mut core: Core<L, S, C> = Core::new(alloc, 4, blank, slots, processes).expect(
        rt,
        "no machine",
    );
    run_serial(alloc, &mut core, slice, limit).expect(rt, "no report")
}

/// How each process ended, and how many instructions it ran.
pub(crate) fn endings(rt: &impl Abort, alloc: Global, report: &Report) -> Vec<(Option<End>, u64)> {
    let mut endings = Vec::new(alloc);
    for line in report.processes.as_slice() {
        endings
            .push((line.end, line.steps))
            .expect(rt, "no endings");
    }
    endings
}
