//! A machine of one process that is played by the driver, on one thread.

ghost use Rattle.std.specs.Prelude.{◌≡◌, ◌+◌, IfOk};
ghost use Rattle.elf_image.specs.Start.{start_of};
ghost use Rattle.guest_frames.specs.FrameRuns.{PlaysProcess};
ghost use Rattle.machine_sides.specs.FlatLines.{StandsForRun};
ghost use Rattle.machine_sides.specs.Reporting.{told};

use clock_ring::ClockRing;
use elf_image::Image;
use image_files::{Fault, memory_slots};
use machine_core::Core;
use machine_limits::MOST_PROCESSES;
use machine_sides::ProcessReport;
use serial_driver::{into_report, play_steps};
use std::alloc::Global;
use std::marker::Brand;
use std::sync::ledger::{Blank, Ledger};
use swap_slots::MemorySlot;

/// Runs an image on an input, on a machine of so many frames and slots in memory, a hart's turn at most so many instructions
/// long, until it has ended or so many steps are done, and returns what it came to.
pub fn play_process<'a>(
    alloc: Global,
    frames: u32,
    slots: u32,
    slice: u32,
    image: Image,
    input: Vec<u8>,
    limit: u64,
) -> Result<ProcessReport, Fault<'a>>
    ensures plays { IfOk result (PlaysProcess frames slots slice limit (start_of image
        input.items)) }
    ensures flat { IfOk result (λ report. StandsForRun (start_of image input.items)
        (told report)) }
{
    let blank = Blank::new(u64::from(frames) + 1);
    play_on::<Brand>(alloc, frames, blank, slots, slice, image, input, limit)
}

fn play_on<'a, L: Ledger>(
    alloc: Global,
    frames: u32,
    blank: Blank,
    slots: u32,
    slice: u32,
    image: Image,
    input: Vec<u8>,
    limit: u64,
) -> Result<ProcessReport, Fault<'a>>
    requires name { blank.name ≡ L.name }
    requires parts { blank.parts ≡ L.parts }
    requires one_each { L.parts ≡ frames + 1 }
    ensures plays { IfOk result (PlaysProcess frames slots slice limit (start_of image
        input.items)) }
    ensures flat { IfOk result (λ report. StandsForRun (start_of image input.items)
        (told report)) }
{
    let room = Vec::with_capacity(alloc, MOST_PROCESSES)?;
    let slots = memory_slots(alloc, slots)?;
    let mut processes = Vec::with_capacity(alloc, 1)?;
    processes.push_reserved((image, input));
    let made = Core::<L, MemorySlot, ClockRing>::new(alloc, frames, blank, slots, processes);
    let Ok(mut core) = made else {
        return Err(Fault::NoMemory);
    };
    play_steps(&mut core, slice, 0, limit);
    let report = into_report(core, room);
    let mut reports = report.processes;
    if reports.is_empty() {
        return Err(Fault::NoMemory);
    }
    Ok(reports.swap_remove(0))
}
