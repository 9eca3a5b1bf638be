//! `paged run --serial`: images run to their end on one machine, on one thread.

ghost use Rattle.std.specs.Prelude.{◌≡◌, ◌+◌, ◌≤◌, IfOk, length, map, option_map};
ghost use Rattle.command_line.specs.Requests.{IsRunInRange};
ghost use Rattle.elf_image.specs.Start.{start_of};
ghost use Rattle.machine_limits.specs.Limits.{most_processes};
ghost use Rattle.serial_commands.specs.Asked.{RunsAsAsked};
ghost use Rattle.serial_commands.specs.Playing.{ReportsAsked, ReportsOver, WritesRun};

use crate::machine::machine_on;
use command_line::RunRequest;
use elf_image::Image;
use image_files::{Fault, Folder, memory_slots, read_processes};
use machine_limits::MOST_PROCESSES;
use report_text::{status_of_all, write_report};
use serial_driver::{into_report, play};
use std::alloc::Global;
use std::io::Write;
use std::marker::Brand;
use std::sync::ledger::{Blank, Ledger};
use swap_slots::SwapSlot;

/// Runs a process for each image on a new machine until all have ended, on one thread, writes how it went, and answers the exit
/// status. Files for the slots are made once images and input are read. Room for the report is taken before the run: once that is done no
/// more memory is taken.
pub fn run_serially<'a, R: Folder + AllocGlobal, W: Write>(
    rt: &R,
    request: &RunRequest<'a>,
    out: &mut W,
) -> Result<u8, Fault<'a>>
    requires { IsRunInRange request.now }
    ensures { IfOk result (λ status. RunsAsAsked R.gives R.makes request.now (W.contents out.old)
        (W.contents out.new) status) }
{
    let processes = read_processes(rt, request.images.as_slice(), request.input)?;
    let status = run_asked(rt, request, processes, out)?;
    Ok(status)
}

/// Runs processes on the machine that is asked for, and writes what it has come to.
fn run_asked<'a, R: Folder + AllocGlobal, W: Write>(
    rt: &R,
    request: &RunRequest<'a>,
    processes: Vec<(Image, Vec<u8>)>,
    out: &mut W,
) -> Result<u8, Fault<'a>>
    requires in_range { IsRunInRange request.now }
    requires few { length processes.items ≤ most_processes }
    ensures { IfOk result (WritesRun (ReportsAsked R.makes (option_map (λ s.
        s.now) request.now.swap) request.now.frames request.now.slots (map (λ start.
        start_of start.0 start.1.items) processes.items) request.now.slice request.now.limit)
        (W.contents out.old) (W.contents out.new)) }
{
    match request.swap {
        None => {
            let slots = memory_slots(rt.alloc(), request.slots)?;
            run(rt.alloc(), request, slots, processes, out)
        }
        Some(prefix) => {
            let slots = rt.make_slots(prefix, request.slots)?;
            run(rt.alloc(), request, slots, processes, out)
        }
    }
}

/// Runs a new machine on these slots until each process has ended, or as many events have happened as are asked for, and writes what it
/// has come to.
fn run<'a, S: SwapSlot, W: Write>(
    alloc: Global,
    request: &RunRequest<'a>,
    slots: Vec<S>,
    processes: Vec<(Image, Vec<u8>)>,
    out: &mut W,
) -> Result<u8, Fault<'a>>
    requires in_range { IsRunInRange request.now }
    requires few { length processes.items ≤ most_processes }
    ensures { IfOk result (WritesRun (ReportsOver S.content S.honest S.failures request.now.frames
        slots.items (map (λ start. start_of start.0 start.1.items) processes.items)
        request.now.slice request.now.limit) (W.contents out.old) (W.contents out.new)) }
{
    let blank = Blank::new(u64::from(request.frames) + 1);
    run_with::<Brand, S, W>(alloc, request, blank, slots, processes, out)
}

fn run_with<'a, L: Ledger, S: SwapSlot, W: Write>(
    alloc: Global,
    request: &RunRequest<'a>,
    blank: Blank,
    slots: Vec<S>,
    processes: Vec<(Image, Vec<u8>)>,
    out: &mut W,
) -> Result<u8, Fault<'a>>
    requires in_range { IsRunInRange request.now }
    requires name { blank.name ≡ L.name }
    requires parts { blank.parts ≡ L.parts }
    requires one_each { L.parts ≡ request.now.frames + 1 }
    requires few { length processes.items ≤ most_processes }
    ensures { IfOk result (WritesRun (ReportsOver S.content S.honest S.failures request.now.frames
        slots.items (map (λ start. start_of start.0 start.1.items) processes.items)
        request.now.slice request.now.limit) (W.contents out.old) (W.contents out.new)) }
{
    let room = Vec::with_capacity(alloc, MOST_PROCESSES)?;
    let mut machine = machine_on::<L, S>(alloc, request.frames, blank, slots, processes)?;
    play(&mut machine, request.slice, u64::from(request.limit));
    let report = into_report(machine, room);
    write_report(&report, None, out)?;
    Ok(status_of_all(report.processes.as_slice()))
}
