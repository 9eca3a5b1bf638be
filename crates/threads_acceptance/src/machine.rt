//! Machines that threads run to their end.

ghost use Rattle.std.specs.Prelude.{◌<◌};

use clock_ring::ClockRing;
use elf_image::Image;
use flat_machine::End;
use hart_carriers::{CrewRequest, RunReport, run_machine};
use reclaim_daemon::{Gate, OpenGate};
use rv_asm::assemble;
use std::alloc::Global;
use std::process::Abort;
use std::sync::Wait;
use std::thread::Threads;
use swap_slots::{MemorySlot, SwapSlot};
use test_guests::WRITES_A_SUM;

/// How a machine is run: on so many frames, by so many workers, in slices of so many instructions,
/// and whether it writes changed pages ahead.
#[derive(Clone, Copy)]
pub(crate) struct Setting {
    pub frames: u32,
    pub workers: u32,
    pub slice: u32,
    pub ahead: bool,
}

/// How a process ended by itself: its exit status, how many instructions it ran, and what it wrote.
pub(crate) type Told<'a> = (u32, u64, &'a [u8]);

/// The image of a source.
pub(crate) fn image_of(rt: &impl Abort, alloc: Global, source: &str) -> Image {
    assemble(alloc, source)
        .expect(rt, "the source has a fault")
        .into_image()
}

/// So many slots whose calls succeed.
pub(crate) fn sound_slots(rt: &impl Abort, alloc: Global, count: u32) -> Vec<MemorySlot> {
    let mut slots = Vec::new(alloc);
    for _ in 0..count {
        let slot = MemorySlot::new(alloc).expect(rt, "no slot");
        slots.push(slot).expect(rt, "no slots");
    }
    slots
}

/// Processes that run these sources, on no input.
fn processes_of(rt: &impl Abort, alloc: Global, sources: &[&str]) -> Vec<(Image, Vec<u8>)> {
    let mut handed = Vec::new(alloc);
    for source in sources {
        let image = image_of(rt, alloc, source);
        handed
            .push((image, Vec::new(alloc)))
            .expect(rt, "no processes");
    }
    handed
}

/// What a machine has come to whose processes run these sources, on no input.
pub(crate) fn played<S: SwapSlot + Send, G: Gate + Sync, R: Threads + Wait + Abort + Sync>(
    rt: &R,
    alloc: Global,
    setting: Setting,
    slots: Vec<S>,
    sources: &[&str],
    gate: &G,
) -> RunReport
    requires workers { 0 < setting.workers }
    requires slice { 0 < setting.slice }
{
    let handed = processes_of(rt, alloc, sources);
    let Setting {
        frames,
        workers,
        slice,
        ahead,
    } = setting;
    run_machine::<S, ClockRing, G, R>(
        rt,
        alloc,
        frames,
        slots,
        handed.as_slice(),
        &CrewRequest {
            workers,
            slice,
            ahead,
        },
        gate,
    )
    .expect(rt, "no run")
}

/// The same of one process that writes a sum.
pub(crate) fn played_sum<S: SwapSlot + Send, R: Threads + Wait + Abort + Sync>(
    rt: &R,
    alloc: Global,
    setting: Setting,
    slots: Vec<S>,
) -> RunReport
    requires workers { 0 < setting.workers }
    requires slice { 0 < setting.slice }
{
    played(rt, alloc, setting, slots, &[WRITES_A_SUM], &OpenGate)
}

/// Each process has ended by itself, with the status, the steps and the output that are given.
pub(crate) fn expect(rt: &impl Abort, run: &RunReport, told: &[Told<'_>]) {
    assert!(rt; run.report.audit);
    assert!(rt; run.report.processes.len() == told.len());
    for (process, (status, steps, output)) in run.report.processes.iter().zip(told.iter()) {
        assert!(rt; process.end == Some(End::Exited(*status)));
        assert!(rt; process.steps == *steps);
        assert!(rt; process.output.as_slice() == *output);
    }
}
