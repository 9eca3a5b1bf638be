//! How a program begins.

ghost use Rattle.std.specs.Prelude.{◌≡◌, IfErr};

use crate::ending::fail;
use crate::fault::Fault;
use crate::stack_room::take_stack_room;
use crate::words::read_words;
use std::env::Env;
use std::io;
use std::io::{BufWriter, Print, Printer, Write};

/// The words after a program's name, and its output, which is gathered before it is printed. The stack that the program may need is taken
/// too. Where one of these can't be had, `err` gets a message with the program's name, and the result is the exit status.
pub fn begin<'r, R: Env + Print + AllocGlobal, E: Write>(
    rt: &'r R,
    program: &str,
    err: &mut E,
) -> Result<(Vec<String>, BufWriter<Printer<'r, R>>), u8>
    ensures { IfErr result (λ status. status ≡ 2) }
{
    let words = match read_words(rt) {
        Ok(words) => words,
        Err(fault) => return Err(fail(program, fault, err)),
    };
    if !take_stack_room(rt.alloc(), words.len()) {
        return Err(fail(program, Fault::NoMemory, err));
    }
    match BufWriter::new(rt.alloc(), io::writer(rt)) {
        Ok(out) => Ok((words, out)),
        Err(_) => Err(fail(program, Fault::NoMemory, err)),
    }
}
