//! `paged clock`: a replacement list that answers the lines of a script.

use clock_policy::{Clock, Entry, Key, Refusal, Verdict};
use clock_ring::ClockRing;
use command_line::ClockRequest;
use event_scripts::{ClockCall, call_on_line};
use image_files::{Fault, Folder, read_text};
use std::alloc::Global;
use std::io::Write;
use std::{fmt, io};
use text_lines::next_line;

/// Plays the script in a file on a new list.
pub fn run_clock<'a, R: Folder + AllocGlobal, W: Write>(
    rt: &R,
    request: &ClockRequest<'a>,
    out: &mut W,
) -> Result<(), Fault<'a>> {
    let text = read_text(rt, request.script)?;
    play_on_ring(rt.alloc(), request.frames, text.as_str().as_bytes(), out)
}

/// Plays a script on a new list of so many frames.
fn play_on_ring<'a, W: Write>(
    alloc: Global,
    frames: u32,
    script: &[u8],
    out: &mut W,
) -> Result<(), Fault<'a>> {
    let Ok(mut list) = ClockRing::new(alloc, frames as usize) else {
        return Err(Fault::NoMemory);
    };
    let most_entries = 2 * frames as usize; // so that no later call wants memory
    let mut entries = Vec::with_capacity(alloc, most_entries)?;
    play(&mut list, &mut entries, script, out)
}

/// Writes a reply for each call of a script. A bad line ends the play after the replies so far.
fn play<'a, C: Clock, W: Write>(
    list: &mut C,
    entries: &mut Vec<Entry>,
    text: &[u8],
    out: &mut W,
) -> Result<(), Fault<'a>> {
    let mut number = 0u64;
    let mut rest = text;
    while let Some((line, others)) = next_line(rest) {
        number += 1;
        match call_on_line(line) {
            Ok(Some(call)) => reply(list, entries, call, out)?,
            Ok(None) => {}
            Err(_) => return Err(Fault::BadLine(number)),
        }
        rest = others;
    }
    Ok(())
}

/// Makes a call, and writes the line that reports its result.
fn reply<C: Clock, W: Write>(
    list: &mut C,
    entries: &mut Vec<Entry>,
    call: ClockCall,
    out: &mut W,
) -> io::Result<()> {
    match call {
        ClockCall::Admit(key) => match list.admit(key) {
            Ok(kind) => writeln!(out, "{kind}"),
            Err(refusal) => write_refusal(refusal, out),
        },
        ClockCall::Ask => match list.question() {
            Some(key) => writeln!(out, "ask {key}"),
            None => writeln!(out, "ask none"),
        },
        ClockCall::Answer(bit) => match list.answer(bit) {
            Ok(Verdict::GoOn) => writeln!(out, "go on"),
            Ok(Verdict::Victim(key)) => writeln!(out, "victim {key}"),
            Err(refusal) => write_refusal(refusal, out),
        },
        ClockCall::Restore(key) => match list.restore(key) {
            Ok(()) => writeln!(out, "restored"),
            Err(refusal) => write_refusal(refusal, out),
        },
        ClockCall::Withdraw(key) => match list.withdraw(key) {
            Ok(()) => writeln!(out, "withdrawn"),
            Err(refusal) => write_refusal(refusal, out),
        },
        ClockCall::Purge(process) => {
            let purged = list.purge(process);
            writeln!(out, "purged {purged}")
        }
        ClockCall::Show => write_list(list, entries, out),
    }
}

fn write_refusal<W: Write>(refusal: Refusal, out: &mut W) -> io::Result<()> {
    let number = refusal.number();
    writeln!(out, "refused {number}")
}

/// The state of a list in one line: the numbers, the hands, and the entries from the front, which are copied at once, since
/// a circle of links reaches a place by all those before it.
fn write_list<C: Clock, W: Write>(
    list: &C,
    entries: &mut Vec<Entry>,
    out: &mut W,
) -> io::Result<()> {
    let share = list.share();
    let asked = list.asked();
    let cold = Hand(list.cold_hand());
    let test = Hand(list.test_hand());
    write!(out, "share {share} asked {asked} cold {cold} test {test}:")?;
    entries.clear();
    list.copy_entries(entries)?;
    for entry in entries.iter() {
        write!(out, " {}={}", entry.key, entry.kind)?;
    }
    writeln!(out)
}

/// A hand, which is at a page or, in an empty list, at none.
#[derive(Clone, Copy)]
struct Hand(Option<Key>);

impl fmt::Display for Hand {
    fn fmt<W: fmt::Write>(&self, f: &mut fmt::Formatter<W>) -> fmt::Result {
        match self.0 {
            Some(key) => write!(f, "{key}"),
            None => f.write_str("-"),
        }
    }
}
