//! Plays worked runs of the parts of the machine, and reports for each whether every answer was right. A call that is refused
//! memory is made again: where the refusal left what it is to leave, all answers are the same as ever.
//! `tests/test-memory` plays this with each request for memory refused in turn.
#![tactic(auto)]

mod debugging;
mod guests;
mod lists;
mod programs;
mod spaces;

use crate::debugging::debugs_on_flat_memory;
use crate::guests::{runs_by_turns, serves_calls};
use crate::lists::answers_calls;
use crate::programs::{assembles, finds_faults, writes_a_file};
use crate::spaces::{keeps_a_page, writes_and_breaks};
use clock_list::ClockList;
use clock_ring::ClockRing;
use std::alloc::{AllocError, Global};
use std::io;
use std::marker::Brand;
use std::process::ExitCode;
use std::sync::ledger::Blank;

/// How often a run is begun again where memory is refused.
const TRIES: u32 = 4;

/// The exit status where memory was refused each time.
const NO_MEMORY: u8 = 2;

/// A worked run.
#[derive(Clone, Copy)]
enum Part {
    List,
    Ring,
    Words,
    Faults,
    File,
    Calls,
    Turns,
    Space,
    WritingSpace,
    FlatDebugger,
}

const PARTS: [(Part, &str); 10] = [
    (Part::List, "list"),
    (Part::Ring, "ring"),
    (Part::Words, "assembled words"),
    (Part::Faults, "faults of a source"),
    (Part::File, "ELF file"),
    (Part::Calls, "environment calls"),
    (Part::Turns, "flat run"),
    (Part::Space, "a page that is saved"),
    (Part::WritingSpace, "output and break on paged memory"),
    (Part::FlatDebugger, "debugger on flat memory"),
];

fn main(rt: HostRuntime) -> io::Result<ExitCode> {
    for (part, name) in PARTS {
        match play_again(rt.alloc(), part) {
            Some(true) => println!(rt; "{name}: right")?,
            Some(false) => println!(rt; "{name}: another answer")?,
            None => {
                println!(rt; "{name}: no memory")?;
                return Ok(ExitCode::from(NO_MEMORY));
            }
        }
    }
    Ok(ExitCode::SUCCESS)
}

/// Plays a run, from its beginning again where memory was refused. `None` where it was each time.
fn play_again(alloc: Global, part: Part) -> Option<bool> {
    for _ in 0..TRIES {
        if let Ok(is_right) = play(alloc, part) {
            return Some(is_right);
        }
    }
    None
}

/// Whether each answer of a run is the right one.
fn play(alloc: Global, part: Part) -> Result<bool, AllocError> {
    match part {
        Part::List => answers_calls::<ClockList>(alloc),
        Part::Ring => answers_calls::<ClockRing>(alloc),
        Part::Words => assembles(alloc),
        Part::Faults => finds_faults(alloc),
        Part::File => writes_a_file(alloc),
        Part::Calls => serves_calls(alloc),
        Part::Turns => runs_by_turns(alloc),
        Part::Space => keeps_a_page::<Brand>(alloc, Blank::new(5)),
        Part::WritingSpace => writes_and_breaks::<Brand>(alloc, Blank::new(5)),
        Part::FlatDebugger => debugs_on_flat_memory(alloc),
    }
}
