//! A run of the command.

use crate::command::run_record;
use crate::fault::RecorderFault;
use crate::requests::read_request;
use guest_io::WholeFiles;
use image_files::{Fault, Folder};
use std::convert::AsStr;
use std::io::{Read, Write};
use std::sync::Wait;
use std::thread::Threads;

/// The exit status where a fault stopped the command. Other statuses are the guest's.
const FAULT: u8 = 126;

/// Runs the command on the words after the program's name, of which `record` is the first, and returns its exit status: that of the
/// guest, or 126 for a fault, which is printed to `err`.
pub fn record_program<R, S, I, O, E>(rt: &R, words: &[S], input: I, out: &mut O, err: &mut E) -> u8
where
    R: Folder + WholeFiles + AllocGlobal + Threads + Wait + Sync,
    S: AsStr,
    I: Read + Drop,
    O: Write,
    E: Write,
{
    let done = run_words(rt, words, input, out, err);
    let flushed = out.flush();
    match done {
        Ok(status) => match flushed {
            Ok(()) => status,
            Err(_) => fail(&RecorderFault::Fault(Fault::CannotWrite), err),
        },
        Err(fault) => fail(&fault, err),
    }
}

fn run_words<'a, R, S, I, O, E>(
    rt: &R,
    words: &'a [S],
    input: I,
    out: &mut O,
    err: &mut E,
) -> Result<u8, RecorderFault<'a>>
where
    R: Folder + WholeFiles + AllocGlobal + Threads + Wait + Sync,
    S: AsStr,
    I: Read + Drop,
    O: Write,
    E: Write,
{
    let request = read_request(rt.alloc(), words)?;
    run_record(rt, &request, input, out, err)
}

/// Prints why the command stopped. Where that can't be written, only the status shows it.
fn fail<E: Write>(fault: &RecorderFault<'_>, err: &mut E) -> u8 {
    let _ = writeln!(err, "guest: {fault}");
    let _ = err.flush();
    FAULT
}
