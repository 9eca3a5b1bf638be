//! `guest run`: a program on standard input, its bytes on standard output.

ghost use Rattle.std.specs.Prelude.{◌≡◌, ◌≤◌, None, true, IfOk, drop, length, map};
ghost use Rattle.std.specs.Io.KnownBytes.{Appends};
ghost use Rattle.flat_machine.specs.ByTurns.{first_turn};
ghost use Rattle.flat_machine.specs.Process.{Process, is_live, opening};
ghost use Rattle.guest_cli.specs.Answered.{AnswersRun, TellsRun};
ghost use Rattle.guest_cli.specs.TurnRuns.{TellsTurns};
ghost use Rattle.elf_image.specs.Start.{start_of};
ghost use Rattle.guest_words.specs.Given.{GivesWithWords};

use crate::frame_machine::FrameMachine;
use crate::request::RunRequest;
use elf_image::Image;
use flat_machine::{End, FlatProcess, KillCause};
use guest_io::{read_whole, status_of, tell_end};
use guest_words::read_with_words;
use image_files::{Fault, Folder, image_in};
use record_commands::RecordsFault;
use std::alloc::Global;
use std::io::{Read, Write};

/// After how many steps output is written at the latest.
const PIECE: u64 = 1 << 16;

/// Runs an image with words on an input, on flat memory or on so many frames, and answers the exit status. The image is read before the
/// input.
pub(crate) fn run_run<'a, R, M, I, O, E>(
    rt: &R,
    machine: &M,
    request: RunRequest<'a>,
    input: I,
    out: &mut O,
    err: &mut E,
) -> Result<u8, RecordsFault<'a>>
where
    R: Folder + AllocGlobal,
    M: FrameMachine,
    I: Read + Drop,
    O: Write,
    E: Write,
    ensures { IfOk result (AnswersRun (GivesWithWords R.gives (map (λ s.
        s.now) request.entry.argv.items)) M.runs request.entry.image.now request.entry.frames
        request.entry.limit
        (I.remaining input) (O.contents out.old) (O.contents out.new)) }
{
    let alloc = rt.alloc();
    let RunRequest {
        frames,
        limit,
        image: name,
        argv,
    } = request;
    let file = read_with_words(rt, name, argv.as_slice())?;
    let image = image_in(alloc, file, name)?;
    let input = read_whole(alloc, input)?;
    let (end, steps) = run_image(alloc, machine, frames, limit, image, input, out)?;
    tell_end(end, steps, err);
    Ok(status_of(end))
}

/// Runs an image on an input, on flat memory or on so many frames, and returns the end and after how many steps it came.
fn run_image<'a, M: FrameMachine, O: Write>(
    alloc: Global,
    machine: &M,
    frames: Option<u32>,
    limit: u64,
    image: Image,
    input: Vec<u8>,
    out: &mut O,
) -> Result<(End, u64), Fault<'a>>
    ensures { IfOk result (λ done. TellsRun M.runs frames limit (start_of image input.items)
        (O.contents out.old) (O.contents out.new) done.0 done.1) }
{
    if let Some(frames) = frames {
        return machine.run(alloc, frames, image, input, limit, out);
    }
    run_flat(alloc, image, input, limit, out)
}

/// Runs an image on an input on flat memory, to its end or to the limit, and returns the end and after how many steps it came.
fn run_flat<'a, O: Write>(
    alloc: Global,
    image: Image,
    input: Vec<u8>,
    limit: u64,
    out: &mut O,
) -> Result<(End, u64), Fault<'a>>
    ensures { IfOk result (λ done. (process : Process) ×
        TellsTurns limit (opening image input.items) process (O.contents out.old)
        (O.contents out.new) done.0 done.1) }
{
    let process = FlatProcess::new(alloc, &image, input)?;
    let Ok(mut process) = Box::new(alloc, process) else {
        return Err(Fault::NoMemory);
    };
    let done = run_to_end(&mut *process, limit, out)?;
    Ok(done)
}

/// Runs a process to its end or to the limit, writes its output as it comes, and returns the end and after how many steps it came.
fn run_to_end<'a, O: Write>(
    process: &mut FlatProcess,
    limit: u64,
    out: &mut O,
) -> Result<(End, u64), Fault<'a>>
    ensures { IfOk result (λ done. TellsTurns limit process.old process.new (O.contents out.old)
        (O.contents out.new) done.0 done.1) }
{
    let mut turn = first_turn(process);
    let mut written = write_more(process.output(), 0, out)?;
    let mut steps = 0u64;
    'pieces: while steps < limit {
        let most = (limit - steps).min(PIECE);
        let ran = process.run_turns(&mut turn, most);
        written = write_more(process.output(), written, out)?;
        match ran {
            Ok(ran) => steps += ran,
            Err(stop) => return Ok((End::Killed(KillCause::NoMemory), steps + stop.steps)),
        }
        if let Some(end) = process.end() {
            return Ok((end, steps));
        }
    }
    match process.end() {
        Some(end) => Ok((end, steps)),
        None => Ok((End::Killed(KillCause::Limit), steps)),
    }
}

/// Writes the bytes after those that are written, at once, and returns how many are written then.
fn write_more<'a, O: Write>(output: &[u8], written: usize, out: &mut O) -> Result<usize, Fault<'a>>
    requires { written ≤ length output.now }
    ensures all { IfOk result (λ all. all ≡ length output.now) }
    ensures more { IfOk result (λ _. Appends (O.contents out.old) (O.contents out.new)
        (drop written output.now)) }
{
    let more = &output[written..];
    if more.is_empty() {
        return Ok(output.len());
    }
    out.write_all(more)?;
    out.flush()?;
    Ok(output.len())
}

/// Whose turn it is at first: hart 0's, where it is live.
fn first_turn(process: &FlatProcess) -> u32
    ensures turn { result ≡ first_turn process.now }
    ensures live { is_live result process.now ≡ true }
{
    if process.is_live(0) {
        return 0;
    }
    process.turn_after(0)
}
