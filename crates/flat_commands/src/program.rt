//! A run of the program for a command that needs no paged memory.

use crate::asm_command::run_asm;
use crate::flat_command::run_flat;
use command_line::{Request, read_request};
use image_files::{Fault, Folder, begin, finish};
use std::convert::AsStr;
use std::env::Env;
use std::io::{Print, Write};

/// Runs the command `flat` or `asm` on the words that the program was started with, and returns its exit status: 0 or, of a process, how
/// it ended; 2 for a fault, which is printed on `err`. The files that the words name are read and written by `rt`. Another command is
/// bad usage here.
pub fn start<R: Env + Folder + Print + AllocGlobal, E: Write>(rt: &R, err: &mut E) -> u8 {
    let (words, mut out) = match begin(rt, "paged", err) {
        Ok(begun) => begun,
        Err(status) => return status,
    };
    let done = run_words(rt, words.as_slice(), &mut out);
    finish("paged", done, &mut out, err)
}

fn run_words<'a, R: Folder + AllocGlobal, S: AsStr, O: Write>(
    rt: &R,
    words: &'a [S],
    out: &mut O,
) -> Result<u8, Fault<'a>> {
    match read_request(rt.alloc(), words)? {
        Request::Asm(request) => {
            run_asm(rt, &request, out)?;
            Ok(0)
        }
        Request::Flat(request) => run_flat(rt, &request, out),
        Request::Clock(_request) => Err(Fault::BadUsage),
        Request::Drive(_request) => Err(Fault::BadUsage),
        Request::Run(_request) => Err(Fault::BadUsage),
        Request::Debug(_request) => Err(Fault::BadUsage),
    }
}
