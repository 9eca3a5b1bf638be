//! A run of the program.

ghost use Rattle.std.specs.Prelude.{◌≡◌, ◌+◌, ◌≤◌, length};
ghost use Rattle.command_line.specs.Requests.{IsDriveInRange, IsRunInRange};
ghost use Rattle.machine_limits.specs.Limits.{most_processes};

use crate::drive::film;
use crate::film_json::{write_film, write_head};
use crate::scene::Film;
use crate::serial_film::film_run;
use clock_ring::ClockRing;
use command_line::{DriveRequest, Request, RunRequest, Threading, read_request};
use elf_image::Image;
use event_scripts::read_drive_script;
use image_files::{Fault, Folder, begin, finish, memory_slots, read_processes, read_text};
use machine_core::{Core, Event};
use serial_commands::new_machine;
use std::alloc::{AllocError, Global};
use std::convert::AsStr;
use std::env::Env;
use std::io::{Print, Write};
use std::marker::Brand;
use std::sync::ledger::{Blank, Ledger};
use swap_slots::SwapSlot;

/// Runs the program on the words that it was started with, which are those of the command `drive` of `paged`, or of `run --serial`, and
/// returns its exit status: 0, or 2 for a fault, which is printed on `err`. A script with a bad line has no film.
pub fn start<R: Env + Folder + Print + AllocGlobal, E: Write>(rt: &R, err: &mut E) -> u8 {
    let (words, mut out) = match begin(rt, "show-run", err) {
        Ok(begun) => begun,
        Err(status) => return status,
    };
    let done = run_words(rt, words.as_slice(), &mut out);
    finish("show-run", done, &mut out, err)
}

fn run_words<'a, R: Folder + AllocGlobal, S: AsStr, O: Write>(
    rt: &R,
    words: &'a [S],
    out: &mut O,
) -> Result<u8, Fault<'a>> {
    match read_request(rt.alloc(), words)? {
        Request::Drive(request) => show_drive(rt, &request, out)?,
        Request::Run(request) => show_run(rt, &request, out)?,
        Request::Asm(_) | Request::Flat(_) | Request::Clock(_) | Request::Debug(_) => {
            return Err(Fault::BadUsage);
        }
    }
    Ok(0)
}

/// Writes the film of a run on one thread, on a new machine with a process for each image.
fn show_run<'a, R: Folder + AllocGlobal, O: Write>(
    rt: &R,
    request: &RunRequest<'a>,
    out: &mut O,
) -> Result<(), Fault<'a>>
    requires { IsRunInRange request.now }
{
    if request.threading != Threading::Serial {
        return Err(Fault::BadUsage);
    }
    let processes = read_processes(rt, request.images.as_slice(), request.input)?;
    match request.swap {
        None => {
            let slots = memory_slots(rt.alloc(), request.slots)?;
            film_slots(rt.alloc(), request, slots, processes, out)
        }
        Some(prefix) => {
            let slots = rt.make_slots(prefix, request.slots)?;
            film_slots(rt.alloc(), request, slots, processes, out)
        }
    }
}

fn film_slots<'a, S: SwapSlot, O: Write>(
    alloc: Global,
    request: &RunRequest<'a>,
    slots: Vec<S>,
    processes: Vec<(Image, Vec<u8>)>,
    out: &mut O,
) -> Result<(), Fault<'a>>
    requires in_range { IsRunInRange request.now }
    requires few { length processes.items ≤ most_processes }
{
    let blank = Blank::new(u64::from(request.frames) + 1);
    film_on::<Brand, S, O>(alloc, request, blank, slots, processes, out)
}

fn film_on<'a, L: Ledger, S: SwapSlot, O: Write>(
    alloc: Global,
    request: &RunRequest<'a>,
    blank: Blank,
    slots: Vec<S>,
    processes: Vec<(Image, Vec<u8>)>,
    out: &mut O,
) -> Result<(), Fault<'a>>
    requires in_range { IsRunInRange request.now }
    requires name { blank.name ≡ L.name }
    requires parts { blank.parts ≡ L.parts }
    requires one_each { L.parts ≡ request.now.frames + 1 }
    requires few { length processes.items ≤ most_processes }
{
    write_head(request.frames, request.images.as_slice(), out)?;
    match Core::<L, S, ClockRing>::new(alloc, request.frames, blank, slots, processes) {
        Ok(mut core) => film_run(
            alloc,
            &mut core,
            request.slice,
            u64::from(request.limit),
            out,
        ),
        Err(_) => Err(Fault::NoMemory),
    }
}

/// Writes the film of the script in a file, on a new machine with a process for each image.
fn show_drive<'a, R: Folder + AllocGlobal, O: Write>(
    rt: &R,
    request: &DriveRequest<'a>,
    out: &mut O,
) -> Result<(), Fault<'a>>
    requires { IsDriveInRange request.now }
{
    let text = read_text(rt, request.script)?;
    let processes = read_processes(rt, request.images.as_slice(), None)?;
    let script = read_drive_script(rt.alloc(), text.as_str().as_bytes())?;
    if let Some(number) = script.bad_line {
        return Err(Fault::BadLine(number));
    }
    let (frames, slots) = (request.frames, request.slots);
    let events = script.events.as_slice();
    let film = film_script(rt.alloc(), frames, slots, processes, events)?;
    write_film(&film, request.images.as_slice(), out)?;
    out.flush()?;
    Ok(())
}

fn film_script(
    alloc: Global,
    frames: u32,
    slots: u32,
    processes: Vec<(Image, Vec<u8>)>,
    events: &[Event],
) -> Result<Film, AllocError>
    requires least { 4 ≤ frames }
    requires most { frames ≤ 4096 }
    requires few { length processes.items ≤ most_processes }
{
    let blank = Blank::new(u64::from(frames) + 1);
    film_with::<Brand>(alloc, frames, blank, slots, processes, events)
}

fn film_with<L: Ledger>(
    alloc: Global,
    frames: u32,
    blank: Blank,
    slots: u32,
    processes: Vec<(Image, Vec<u8>)>,
    events: &[Event],
) -> Result<Film, AllocError>
    requires name { blank.name ≡ L.name }
    requires parts { blank.parts ≡ L.parts }
    requires one_each { L.parts ≡ frames + 1 }
    requires least { 4 ≤ frames }
    requires most { frames ≤ 4096 }
    requires few { length processes.items ≤ most_processes }
{
    let mut core = new_machine::<L>(alloc, frames, blank, slots, processes)?;
    film(alloc, &mut core, events)
}
