//! A conversation with a debugger that goes back.

ghost use Rattle.std.specs.Prelude.{◌≡◌, IfOk, OnOk};
ghost use Rattle.std.specs.Io.BufRead.{strip_last};
ghost use Rattle.debug_session.specs.InputLines.{TakesLine};
ghost use Rattle.guest_history.specs.Conversation.{HasConversed};
ghost use Rattle.guest_history.specs.Histories.{IsSameRun, Stands};

use crate::fault::HistoryFault;
use crate::history::History;
use crate::turn::{Turn, take_turn};
use run_paths::RunFault;
use std::alloc::Global;
use std::io;
use std::io::{BufRead, BufReader, Read, Write};

/// Answers the lines of an input, each before the next is read, until one is `quit`, or there are no more, or one is bad.
#[tactic(auto, using(crate::proofs::SameRuns::same_path, crate::proofs::SameRuns::same_then))]
pub fn converse_back<I: Read + Drop, O: Write>(
    alloc: Global,
    history: &mut History,
    input: I,
    out: &mut O,
) -> Result<(), HistoryFault>
    requires stands { Stands history.old }
    ensures stands { OnOk result (Stands history.new) }
    ensures same { OnOk result (IsSameRun history.old history.new) }
    ensures conversed { HasConversed result (I.remaining input) history.old (O.contents out.old)
        history.new (O.contents out.new) }
{
    let Ok(mut reader) = BufReader::new(alloc, input) else {
        return Err(HistoryFault::Run(RunFault::NoMemory));
    };
    let mut line = Vec::new(alloc);
    'lines: for above in 0..u64::MAX {
        match read_line(&mut reader, &mut line) {
            Ok(true) => {}
            Ok(false) => return Ok(()),
            Err(_) => return Err(HistoryFault::CannotRead),
        }
        match take_turn(alloc, history, line.as_slice(), out) {
            Ok(Turn::GoesOn) => {}
            Ok(Turn::Quits) => return Ok(()),
            Ok(Turn::Bad) => return Err(HistoryFault::BadLine(above + 1)),
            Err(fault) => return Err(fault),
        }
    }
    Err(HistoryFault::CannotRead)
}

/// Reads the next line in place of the last one, without its line feed. Answers whether there was one.
fn read_line<B: BufRead>(input: &mut B, line: &mut Vec<u8>) -> io::Result<bool>
    ensures { IfOk result (λ found. TakesLine (B.remaining input.old) found line.new.items
        (B.remaining input.new)) }
{
    line.clear();
    let read = input.read_until(b'\n', line)?;
    drop_line_feed(line);
    Ok(read > 0)
}

/// Takes the line feed off a line, if it has one.
fn drop_line_feed(line: &mut Vec<u8>)
    ensures { line.new.items ≡ strip_last 10 line.old.items }
{
    let length = line.len();
    if length == 0 {
        return;
    }
    if line[length - 1] != b'\n' {
        return;
    }
    line.truncate(length - 1);
}
