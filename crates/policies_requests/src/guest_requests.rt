//! Requests on guests.

ghost use Rattle.std.specs.Prelude.{◌≡◌, map, IfOk};
ghost use Rattle.clap.specs.Matches.{found_of};
ghost use Rattle.clap.specs.Walk.{rows_of};
ghost use Rattle.policies_requests.specs.Formats.{AsksFormat};
ghost use Rattle.policies_requests.specs.Requested.{AreImages, AsksGuest, AsksMisses, AsksTrace};

use crate::access_choice::accesses;
use crate::fault::RequestFault;
use crate::options::{all, found, is_given, listed_sizes, number_from, printing};
use crate::policy_choice::wanted_policies;
use crate::request::{GuestRequest, MissesRequest, TraceRequest};
use crate::trace_formats::format;
use clap::ArgMatches;
use machine_limits::MOST_PROCESSES;
use miss_counts::{PolicySet, TableSize};
use std::alloc::Global;
use trace_files::TraceFormat;

/// What `--slice` may be.
const SLICES: &str = "a number of instructions, from 1 to 100000";

/// What `--limit` may be.
const LIMITS: &str = "a number of instructions, from 1 to 1000000000";

/// What it may be for `trace`.
const WRITTEN_FORMATS: &str = "text, csv or oraclegeneral";

pub(crate) fn misses_request<'a>(
    alloc: Global,
    matches: &ArgMatches<'a>,
) -> Result<MissesRequest<'a>, RequestFault<'a>>
    ensures { IfOk result (AsksMisses (rows_of (found_of matches.now))) }
{
    let (sizes, wanted) = guests_table(alloc, matches)?;
    let guest = guest_request(alloc, matches)?;
    Ok(MissesRequest {
        guest,
        sizes,
        wanted,
        printing: printing(matches),
        is_told: is_given(matches, "progress"),
    })
}

/// The numbers of frames of a table of guests, if they are named, and the policies.
fn guests_table<'a>(
    alloc: Global,
    matches: &ArgMatches<'a>,
) -> Result<(Option<Vec<TableSize>>, PolicySet), RequestFault<'a>> {
    match matches.get_str("frames") {
        Some(list) => {
            let sizes = listed_sizes(alloc, list)?;
            let wanted = wanted_policies(alloc, matches, true, false, sizes.as_slice(), true)?;
            Ok((Some(sizes), wanted))
        }
        None => Ok((
            None,
            wanted_policies(alloc, matches, true, false, &[], true)?,
        )),
    }
}

pub(crate) fn trace_request<'a>(
    alloc: Global,
    matches: &ArgMatches<'a>,
) -> Result<TraceRequest<'a>, RequestFault<'a>>
    ensures { IfOk result (AsksTrace (rows_of (found_of matches.now))) }
{
    let format = written_format(matches)?;
    let guest = guest_request(alloc, matches)?;
    Ok(TraceRequest { guest, format })
}

/// The format that a trace is written in.
fn written_format<'a>(matches: &ArgMatches<'a>) -> Result<TraceFormat<'a>, RequestFault<'a>>
    ensures { IfOk result (AsksFormat (rows_of (found_of matches.now))) }
{
    match found(matches, "format") {
        Some(name @ ("lackey" | "dynamorio")) => Err(RequestFault::Value(
            "format",
            name,
            WRITTEN_FORMATS,
        )),
        _ => format(matches),
    }
}

fn guest_request<'a>(
    alloc: Global,
    matches: &ArgMatches<'a>,
) -> Result<GuestRequest<'a>, RequestFault<'a>>
    ensures { IfOk result (AsksGuest (rows_of (found_of matches.now))) }
{
    let slice = number_from(matches, "slice", 1000, 1, 100_000, SLICES)?;
    let limit = number_from(matches, "limit", 100_000_000, 1, 1_000_000_000, LIMITS)?;
    let accesses = accesses(matches)?;
    let images = images_in(alloc, matches)?;
    Ok(GuestRequest {
        accesses,
        slice,
        limit,
        input: found(matches, "input"),
        images,
    })
}

/// The names of the images, as many as a machine has processes at most.
fn images_in<'a>(alloc: Global, matches: &ArgMatches<'a>) -> Result<Vec<&'a str>, RequestFault<'a>>
    ensures { IfOk result (λ names. AreImages (rows_of (found_of matches.now)) (map (λ name.
        name.now) names.items)) }
{
    match all(matches, "image") {
        Some(images) if images.len() > MOST_PROCESSES => Err(RequestFault::ManyImages(
            images.len(),
        )),
        Some(images) => Ok(images.to_vec(alloc)?),
        None => Err(RequestFault::BadUsage),
    }
}
