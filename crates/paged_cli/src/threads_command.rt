//! `paged run`: images run to their end on one machine, by workers.

ghost use Rattle.std.specs.Prelude.{◌≡◌, ◌<◌, IfOk, length, map, option_map};
ghost use Rattle.command_line.specs.Requests.{IsRunInRange};
ghost use Rattle.hart_carriers.specs.FlatLines.{starts_of};
ghost use Rattle.paged_cli.specs.Running.{IsRunAsAsked, RunsAsked};

use crate::machine::run_machine;
use crate::status_lines::StatusLines;
use command_line::RunRequest;
use elf_image::Image;
use hart_carriers::{CrewRequest, RunReport};
use image_files::{Fault, Folder, memory_slots, read_processes};
use reclaim_daemon::{Gate, OpenGate};
use report_text::{status_of_all, write_report};
use std::io::{BufWriter, Write};
use std::sync::Wait;
use std::thread::Threads;

/// Runs a process for each image on a new machine by so many workers until all have ended, writes how it went, and answers the exit
/// status. Files for the slots are made once images and input are read. While the processes run, lines that say how far they are may
/// be written to `err`. Changed pages may be written to their slots ahead.
pub fn run_on_threads<
    'a,
    R: Folder + AllocGlobal + Threads + Wait + Sync,
    O: Write,
    E: Write + Send,
>(
    rt: &R,
    request: &RunRequest<'a>,
    workers: u32,
    is_told: bool,
    ahead: bool,
    out: &mut O,
    err: &mut E,
) -> Result<u8, Fault<'a>>
where
    R::File: Send,
    requires in_range { IsRunInRange request.now }
    requires workers { 0 < workers }
    ensures { IfOk result (λ status. IsRunAsAsked R.gives R.makes request.now workers ahead
        (O.contents out.old) (O.contents out.new) status) }
{
    let processes = read_processes(rt, request.images.as_slice(), request.input)?;
    let wanted = CrewRequest {
        workers,
        slice: request.slice,
        ahead,
    };
    let run = run_told(rt, request, processes.as_slice(), &wanted, is_told, err)?;
    write_report(&run.report, run.cleans, out)?;
    Ok(status_of_all(run.report.processes.as_slice()))
}

/// Runs processes on the machine that is asked for, and writes lines to `err` meanwhile, if they are wanted.
fn run_told<'a, R: Folder + AllocGlobal + Threads + Wait + Sync, E: Write + Send>(
    rt: &R,
    request: &RunRequest<'a>,
    handed: &[(Image, Vec<u8>)],
    wanted: &CrewRequest,
    is_told: bool,
    err: &mut E,
) -> Result<RunReport, Fault<'a>>
where
    R::File: Send,
    requires workers { 0 < wanted.now.workers }
    requires slice { 0 < wanted.now.slice }
    ensures { IfOk result (RunsAsked R.makes (option_map (λ s. s.now) request.now.swap)
        request.now.frames request.now.slots (starts_of handed.now) wanted.now) }
{
    if !is_told {
        return run_asked(rt, request, handed, wanted, &OpenGate);
    }
    // The lines of one frame are one write.
    let Ok(mut told) = BufWriter::new(rt.alloc(), err) else {
        return Err(Fault::NoMemory);
    };
    let lines = StatusLines::new(rt, &mut told);
    run_asked(rt, request, handed, wanted, &lines)
}

/// Runs processes on the machine that is asked for, and prints what it has come to.
fn run_asked<'a, R: Folder + AllocGlobal + Threads + Wait + Sync, G: Gate + Sync>(
    rt: &R,
    request: &RunRequest<'a>,
    handed: &[(Image, Vec<u8>)],
    wanted: &CrewRequest,
    gate: &G,
) -> Result<RunReport, Fault<'a>>
where
    R::File: Send,
    requires workers { 0 < wanted.now.workers }
    requires slice { 0 < wanted.now.slice }
    ensures { IfOk result (RunsAsked R.makes (option_map (λ s. s.now) request.now.swap)
        request.now.frames request.now.slots (starts_of handed.now) wanted.now) }
{
    let (alloc, frames) = (rt.alloc(), request.frames);
    match request.swap {
        None => {
            let slots = memory_slots(alloc, request.slots)?;
            Ok(run_machine(rt, alloc, frames, slots, handed, wanted, gate)?)
        }
        Some(prefix) => {
            let slots = rt.make_slots(prefix, request.slots)?;
            Ok(run_machine(rt, alloc, frames, slots, handed, wanted, gate)?)
        }
    }
}
