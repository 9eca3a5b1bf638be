//! From words to a request.

ghost use Rattle.std.specs.Prelude.{◌≤◌, IfOk, IfSome};

use crate::commands::guest;
use crate::request::{DebugRequest, ProfileRequest, Request, RunRequest, TraceRequest};
use crate::wrong::Wrong;
use clap::ArgMatches;
use guest_io::{UsageFault, is_given, number, text, wrong_words};
use guest_words::argv_of;
use record_commands::ReplayRequest;
use std::alloc::Global;
use std::convert::AsStr;

/// How many rows a table of a profile has where no number is asked for.
const USUAL_ROWS: u32 = 20;

/// The request that the words after the program's name make.
pub(crate) fn read_request<'a, S: AsStr>(
    alloc: Global,
    words: &'a [S],
) -> Result<Request<'a>, Wrong<'a>> {
    match guest(alloc)?.try_get_matches_from(words) {
        Ok(matches) => Ok(request_of(alloc, &matches)?),
        Err(error) => Err(Wrong::Usage(wrong_words(alloc, &error))),
    }
}

/// The request of words that name a command and what it takes.
fn request_of<'a>(alloc: Global, matches: &ArgMatches<'a>) -> Result<Request<'a>, UsageFault<'a>> {
    match matches.subcommand() {
        Some(("run", matches)) => Ok(Request::Run(run_request(alloc, matches)?)),
        Some(("trace", matches)) => Ok(Request::Trace(trace_request(matches)?)),
        Some(("profile", matches)) => Ok(Request::Profile(profile_request(matches)?)),
        Some(("replay", matches)) => Ok(Request::Replay(replay_request(alloc, matches)?)),
        Some((_, matches)) => Ok(Request::Debug(debug_request(matches)?)),
        None => Ok(Request::Debug(debug_request(matches)?)),
    }
}

fn run_request<'a>(
    alloc: Global,
    matches: &ArgMatches<'a>,
) -> Result<RunRequest<'a>, UsageFault<'a>> {
    let image = image(matches);
    Ok(RunRequest {
        frames: frames(matches)?,
        limit: steps_or(matches, "limit", u64::MAX)?,
        image,
        argv: argv_of(alloc, matches, image)?,
    })
}

fn trace_request<'a>(matches: &ArgMatches<'a>) -> Result<TraceRequest<'a>, UsageFault<'a>> {
    Ok(TraceRequest {
        from: steps_or(matches, "from", 1)?,
        count: steps_or(matches, "count", u64::MAX)?,
        hart: number(matches, "hart", 0, 7)?,
        is_of_functions: is_given(matches, "functions"),
        image: image(matches),
    })
}

fn profile_request<'a>(matches: &ArgMatches<'a>) -> Result<ProfileRequest<'a>, UsageFault<'a>> {
    Ok(ProfileRequest {
        limit: steps_or(matches, "limit", u64::MAX)?,
        rows: number(matches, "lines", 1, u32::MAX)?.unwrap_or(USUAL_ROWS),
        is_callgrind: is_given(matches, "callgrind"),
        image: image(matches),
    })
}

fn debug_request<'a>(matches: &ArgMatches<'a>) -> Result<DebugRequest<'a>, UsageFault<'a>> {
    let frames = frames(matches)?;
    let record = matches.get_str("replay");
    // Only a run on flat memory goes by a record.
    if frames.is_some() && record.is_some() {
        return Err(UsageFault::Option {
            option: "replay",
            with: "with --frames",
        });
    }
    Ok(DebugRequest {
        frames,
        input: matches.get_str("input"),
        record,
        image: image(matches),
    })
}

fn replay_request<'a>(
    alloc: Global,
    matches: &ArgMatches<'a>,
) -> Result<ReplayRequest<'a>, UsageFault<'a>> {
    let image = image(matches);
    Ok(ReplayRequest {
        record: text(matches, "record"),
        image,
        argv: argv_of(alloc, matches, image)?,
    })
}

/// The image's name.
fn image<'a>(matches: &ArgMatches<'a>) -> &'a str {
    text(matches, "image")
}

fn frames<'a>(matches: &ArgMatches<'a>) -> Result<Option<u32>, UsageFault<'a>>
    ensures { IfOk result (λ found. IfSome found (λ frames. (4 ≤ frames) × (frames ≤ 4096))) }
{
    number(matches, "frames", 4, 4096)
}

/// The number of steps of an option, from 1 on, or what it is where the option is not given.
fn steps_or<'a>(
    matches: &ArgMatches<'a>,
    name: &'static str,
    default: u64,
) -> Result<u64, UsageFault<'a>> {
    match number(matches, name, 1, u32::MAX)? {
        Some(steps) => Ok(u64::from(steps)),
        None => Ok(default),
    }
}
