//! A run of the program.

use crate::debug_command::run_debug;
use crate::frame_machine::FrameMachine;
use crate::profile_command::run_profile;
use crate::request::Request;
use crate::requests::read_request;
use crate::run_command::run_run;
use crate::trace_command::run_trace;
use crate::wrong::Wrong;
use image_files::{Fault, Folder};
use record_commands::run_replay;
use std::convert::AsStr;
use std::io::{Read, Write};

/// The exit status where a fault stopped a command. Of `run`, `profile` and `replay` other statuses are the guest's.
const FAULT: u8 = 126;

/// Runs the program on the words after its name, and returns its exit status: that of the guest for `run`, `profile` and `replay`, else 0;
/// or 126 for a fault, which is printed to `err`.
pub fn run_guest<R, M, S, I, O, E>(
    rt: &R,
    machine: &M,
    words: &[S],
    input: I,
    out: &mut O,
    err: &mut E,
) -> u8
where
    R: Folder + AllocGlobal,
    M: FrameMachine,
    S: AsStr,
    I: Read + Drop,
    O: Write,
    E: Write,
{
    let done = run_words(rt, machine, words, input, out, err);
    let flushed = out.flush();
    match done {
        Ok(status) => match flushed {
            Ok(()) => status,
            Err(_) => fail(&Wrong::Fault(Fault::CannotWrite), err),
        },
        Err(wrong) => fail(&wrong, err),
    }
}

fn run_words<'a, R, M, S, I, O, E>(
    rt: &R,
    machine: &M,
    words: &'a [S],
    input: I,
    out: &mut O,
    err: &mut E,
) -> Result<u8, Wrong<'a>>
where
    R: Folder + AllocGlobal,
    M: FrameMachine,
    S: AsStr,
    I: Read + Drop,
    O: Write,
    E: Write,
{
    let request = read_request(rt.alloc(), words)?;
    run_request(rt, machine, request, input, out, err)
}

fn run_request<'a, R, M, I, O, E>(
    rt: &R,
    machine: &M,
    request: Request<'a>,
    input: I,
    out: &mut O,
    err: &mut E,
) -> Result<u8, Wrong<'a>>
where
    R: Folder + AllocGlobal,
    M: FrameMachine,
    I: Read + Drop,
    O: Write,
    E: Write,
{
    Ok(match request {
        Request::Run(request) => run_run(rt, machine, request, input, out, err)?,
        Request::Trace(request) => run_trace(rt, request, input, out)?,
        Request::Profile(request) => run_profile(rt, request, input, out, err)?,
        Request::Debug(request) => run_debug(rt, machine, request, input, out)?,
        Request::Replay(request) => run_replay(rt, request, input, out, err)?,
    })
}

/// Prints what is wrong. Where that can't be written either, only the status shows it.
fn fail<E: Write>(wrong: &Wrong<'_>, err: &mut E) -> u8 {
    let _ = writeln!(err, "guest: {wrong}");
    let _ = err.flush();
    FAULT
}
