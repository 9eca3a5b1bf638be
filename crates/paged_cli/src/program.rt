//! A run of the program.

use crate::run_command::run_machines;
use command_line::{Request, read_request};
use flat_commands::{run_asm, run_flat};
use image_files::{Fault, Folder, begin, finish};
use serial_commands::{run_clock, run_debug, run_drive};
use std::convert::AsStr;
use std::env::Env;
use std::io::{Print, Read, Write};
use std::sync::Wait;
use std::thread::Threads;

/// Runs the program on the words that it was started with: `run_paged`.
pub fn start<R, I: Read, E: Write + Send>(rt: &R, input: &mut I, err: &mut E) -> u8
where
    R: Env + Folder + Print + AllocGlobal + Threads + Wait + Sync,
    R::File: Send,
{
    let (words, mut out) = match begin(rt, "paged", err) {
        Ok(begun) => begun,
        Err(status) => return status,
    };
    run_paged(rt, words.as_slice(), input, &mut out, err)
}

/// Runs the program on the words after its name, and returns its exit status: 0 or, of processes, how they ended; 2 for a fault,
/// which is printed on `err`. The files that the words name are read and written by `rt`, and the lines for a debugger come from `input`.
pub fn run_paged<R, S: AsStr, I: Read, O: Write, E: Write + Send>(
    rt: &R,
    words: &[S],
    input: &mut I,
    out: &mut O,
    err: &mut E,
) -> u8
where
    R: Folder + AllocGlobal + Threads + Wait + Sync,
    R::File: Send,
{
    let done = run_words(rt, words, input, out, err);
    finish("paged", done, out, err)
}

fn run_words<'a, R, S: AsStr, I: Read, O: Write, E: Write + Send>(
    rt: &R,
    words: &'a [S],
    input: &mut I,
    out: &mut O,
    err: &mut E,
) -> Result<u8, Fault<'a>>
where
    R: Folder + AllocGlobal + Threads + Wait + Sync,
    R::File: Send,
{
    match read_request(rt.alloc(), words)? {
        Request::Asm(request) => {
            run_asm(rt, &request, out)?;
            Ok(0)
        }
        Request::Flat(request) => run_flat(rt, &request, out),
        Request::Clock(request) => {
            run_clock(rt, &request, out)?;
            Ok(0)
        }
        Request::Drive(request) => {
            run_drive(rt, &request, out)?;
            Ok(0)
        }
        Request::Run(request) => run_machines(rt, &request, out, err),
        Request::Debug(request) => {
            run_debug(rt, &request, input, out)?;
            Ok(0)
        }
    }
}
