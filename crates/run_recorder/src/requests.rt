//! From words to a request.

ghost use Rattle.std.specs.Prelude.{IfOk};
ghost use Rattle.run_recorder.specs.Requests.{IsInRange, IsManned};

use crate::commands::guest;
use crate::fault::RecorderFault;
use crate::request::{Driver, RecordRequest};
use clap::ArgMatches;
use guest_io::{UsageFault, is_given, number, text, wrong_words};
use guest_words::argv_of;
use std::alloc::Global;
use std::convert::AsStr;

/// How many frames a machine has where no number is asked for.
const USUAL_FRAMES: u32 = 64;

/// How many slots it has then: one for each page that a process may have.
const USUAL_SLOTS: u32 = 4096;

const MOST_SLOTS: u32 = 65536;

/// How long a hart's turn is then.
const USUAL_SLICE: u32 = 1000;

const LONGEST_SLICE: u32 = 100_000;

/// How many threads run the harts then.
const USUAL_WORKERS: u32 = 4;

const MOST_WORKERS: u32 = 64;

/// The request that the words after the program's name make.
pub fn read_request<'a, S: AsStr>(
    alloc: Global,
    words: &'a [S],
) -> Result<RecordRequest<'a>, RecorderFault<'a>>
    ensures in_range { IfOk result IsInRange }
{
    match guest(alloc)?.try_get_matches_from(words) {
        Ok(matches) => match matches.subcommand() {
            Some((_, matches)) => request_of(alloc, matches),
            None => request_of(alloc, &matches),
        },
        Err(error) => Err(RecorderFault::Usage(wrong_words(alloc, &error))),
    }
}

/// The request of words that are those of the command.
fn request_of<'a>(
    alloc: Global,
    matches: &ArgMatches<'a>,
) -> Result<RecordRequest<'a>, RecorderFault<'a>>
    ensures in_range { IfOk result IsInRange }
{
    let image = text(matches, "image");
    Ok(RecordRequest {
        frames: number(matches, "frames", 4, 4096)?.unwrap_or(USUAL_FRAMES),
        slots: number(matches, "slots", 0, MOST_SLOTS)?.unwrap_or(USUAL_SLOTS),
        slice: number(matches, "slice", 1, LONGEST_SLICE)?.unwrap_or(USUAL_SLICE),
        driver: driver(matches)?,
        record: text(matches, "record"),
        image,
        argv: argv_of(alloc, matches, image)?,
    })
}

/// What runs the machine: options of the other way are refused.
fn driver<'a>(matches: &ArgMatches<'a>) -> Result<Driver, RecorderFault<'a>>
    ensures some { IfOk result (λ driver. IsManned driver) }
{
    let limit = number(matches, "limit", 1, u32::MAX)?;
    let workers = number(matches, "workers", 1, MOST_WORKERS)?;
    let ahead = is_given(matches, "ahead");
    if !is_given(matches, "serial") {
        if limit.is_some() {
            return Err(not_with("limit", "without --serial"));
        }
        return Ok(Driver::Workers {
            workers: workers.unwrap_or(USUAL_WORKERS),
            ahead,
        });
    }
    if workers.is_some() {
        return Err(not_with("workers", "with --serial"));
    }
    if ahead {
        return Err(not_with("ahead", "with --serial"));
    }
    Ok(Driver::Serial {
        limit: match limit {
            Some(limit) => u64::from(limit),
            None => u64::MAX,
        },
    })
}

fn not_with<'a>(option: &'static str, with: &'static str) -> RecorderFault<'a> {
    RecorderFault::Usage(UsageFault::Option { option, with })
}
