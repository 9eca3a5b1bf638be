//! A run of `guest explore`.

use crate::explore_command::run_explore;
use crate::explore_request::read_request;
use crate::fault::RecordsFault;
use guest_io::{UsageFault, WholeFiles};
use image_files::{Fault, Folder};
use std::convert::AsStr;
use std::io::{Read, Write};
use thiserror::Error;

/// The exit status where a fault stopped the command.
const FAULT: u8 = 126;

/// Why the command stops.
#[derive(Debug, Drop, Error)]
enum ExploreFault<'a> {
    #[error("{0}")]
    Usage(UsageFault<'a>),
    #[error("{0}")]
    Records(RecordsFault<'a>),
}

impl<'a> From<UsageFault<'a>> for ExploreFault<'a> {
    fn from(fault: UsageFault<'a>) -> Self {
        ExploreFault::Usage(fault)
    }
}

impl<'a> From<RecordsFault<'a>> for ExploreFault<'a> {
    fn from(fault: RecordsFault<'a>) -> Self {
        ExploreFault::Records(fault)
    }
}

/// Runs the command on the words after the program's name, of which `explore` is the first, and returns its exit status: 0, or 126 for a fault,
/// which is printed to `err`. While it is watched, `err` shows how many runs are done.
pub fn explore_program<R, S, I, O, E>(
    rt: &R,
    words: &[S],
    input: I,
    out: &mut O,
    err: &mut E,
    is_watched: bool,
) -> u8
where
    R: Folder + WholeFiles + AllocGlobal,
    S: AsStr,
    I: Read + Drop,
    O: Write,
    E: Write,
{
    let done = run_words(rt, words, input, out, err, is_watched);
    let flushed = out.flush();
    match done {
        Ok(status) => match flushed {
            Ok(()) => status,
            Err(_) => fail(
                &ExploreFault::Records(RecordsFault::Fault(Fault::CannotWrite)),
                err,
            ),
        },
        Err(fault) => fail(&fault, err),
    }
}

fn run_words<'a, R, S, I, O, E>(
    rt: &R,
    words: &'a [S],
    input: I,
    out: &mut O,
    err: &mut E,
    is_watched: bool,
) -> Result<u8, ExploreFault<'a>>
where
    R: Folder + WholeFiles + AllocGlobal,
    S: AsStr,
    I: Read + Drop,
    O: Write,
    E: Write,
{
    let request = read_request(rt.alloc(), words, is_watched)?;
    Ok(run_explore(rt, request, input, out, err)?)
}

/// Prints why the command stopped. If this can't be written, only the status shows it.
fn fail<E: Write>(fault: &ExploreFault<'_>, err: &mut E) -> u8 {
    let _ = writeln!(err, "guest: {fault}");
    let _ = err.flush();
    FAULT
}
