//! A whole conversation.

ghost use Rattle.debug_session.specs.Conversation.{HasConversed};

use crate::input_lines::{InputLines, LineFault};
use crate::lines::Dialect;
use crate::turn::{Turn, take_turn};
use debug_core::{Debugger, Target};
use std::alloc::Global;
use std::io::{Read, Write};
use thiserror::Error;

/// Why a conversation is broken off.
#[derive(Clone, Copy, Debug, PartialEq, Eq, Error)]
pub enum SessionFault {
    /// Lines are counted from 1.
    #[error("line {0}: bad line")]
    BadLine(u64),
    #[error("no memory")]
    NoMemory,
    #[error("the input can't be read")]
    CannotRead,
    #[error("the replies can't be written")]
    CannotWrite,
}

/// Answers the lines of an input that a dialect has, each before the next is read, until one is `quit`, or there are no more, or one is bad.
pub fn converse<T: Target, I: Read + Drop, O: Write>(
    alloc: Global,
    dialect: Dialect,
    debugger: &mut Debugger<T>,
    input: I,
    out: &mut O,
) -> Result<(), SessionFault>
    ensures { HasConversed dialect T.shown T.limits result (I.remaining input)
        debugger.old (O.contents out.old) debugger.new (O.contents out.new) }
{
    let Ok(mut lines) = InputLines::new(alloc, input) else {
        return Err(SessionFault::NoMemory);
    };
    let mut line = Vec::new(alloc);
    'lines: for above in 0..u64::MAX {
        line.clear();
        match lines.read_line(&mut line) {
            Ok(true) => {}
            Ok(false) => return Ok(()),
            Err(LineFault::TooLong) => return Err(SessionFault::BadLine(above + 1)),
            Err(LineFault::NoMemory) => return Err(SessionFault::NoMemory),
            Err(LineFault::CannotRead) => return Err(SessionFault::CannotRead),
        }
        match take_turn(alloc, dialect, debugger, line.as_slice(), out) {
            Ok(Turn::GoesOn) => {}
            Ok(Turn::Quits) => return Ok(()),
            Ok(Turn::Bad) => return Err(SessionFault::BadLine(above + 1)),
            Err(_) => return Err(SessionFault::CannotWrite),
        }
    }
    Err(SessionFault::CannotRead)
}
