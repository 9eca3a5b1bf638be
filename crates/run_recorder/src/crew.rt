//! A machine of one process that is run by threads.

ghost use Rattle.std.specs.Prelude.{◌≡◌, ◌<◌, ◌≤◌, IfErr, IfOk};
ghost use Rattle.elf_image.specs.Start.{start_of};
ghost use Rattle.machine_sides.specs.FlatLines.{StandsForRun};
ghost use Rattle.machine_sides.specs.Reporting.{told};
ghost use Rattle.run_recorder.specs.Recorded.{IsEarly, RanOnThreads};

use crate::fault::RecorderFault;
use clock_ring::ClockRing;
use elf_image::Image;
use hart_carriers::{CrewRequest, RunReport, run_machine};
use image_files::{Fault, memory_slots};
use machine_sides::{ProcessReport, Report};
use reclaim_daemon::OpenGate;
use std::alloc::Global;
use std::sync::Wait;
use std::thread::Threads;
use swap_slots::MemorySlot;

/// Runs an image on an input by such a crew, on a machine of so many frames and slots in memory, until it has ended, and
/// returns what it came to. A run whose audit finds a fault is refused.
pub(crate) fn run_by_crew<'a, R: Threads + Wait + Sync>(
    rt: &R,
    alloc: Global,
    frames: u32,
    slots: u32,
    wanted: &CrewRequest,
    image: Image,
    input: Vec<u8>,
) -> Result<ProcessReport, RecorderFault<'a>>
    requires workers { 0 < wanted.now.workers }
    requires slice { 0 < wanted.now.slice }
    ensures ran { IfOk result (RanOnThreads frames slots (start_of image input.items)
        wanted.now) }
    ensures flat { IfOk result (λ report. StandsForRun (start_of image input.items)
        (told report)) }
    ensures early { IfErr result IsEarly }
{
    let slots = memory_slots(alloc, slots)?;
    let mut handed = Vec::with_capacity(alloc, 1)?;
    handed.push_reserved((image, input));
    let ran = run_machine::<MemorySlot, ClockRing, OpenGate, R>(
        rt,
        alloc,
        frames,
        slots,
        handed.as_slice(),
        wanted,
        &OpenGate,
    );
    let Ok(run) = ran else {
        return Err(RecorderFault::Fault(Fault::NoMemory));
    };
    if !run.report.audit {
        return Err(RecorderFault::NotSound);
    }
    let mut reports = processes_of(run);
    if reports.is_empty() {
        return Err(RecorderFault::NotSound);
    }
    Ok(reports.swap_remove(0))
}

/// What is reported of the processes of a machine.
fn processes_of(run: RunReport) -> Vec<ProcessReport>
    ensures { result ≡ run.report.processes }
{
    let RunReport {
        report,
        published: _published,
        viewers: _viewers,
        slots: _,
        cleans: _,
        crew: _,
    } = run;
    let Report {
        processes,
        frames: _,
        page_ins: _,
        victims: _,
        saves: _,
        drops: _,
        questions: _,
        audit: _,
    } = report;
    processes
}
