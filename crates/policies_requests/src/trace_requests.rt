//! Requests on traces.

ghost use Rattle.std.specs.Prelude.{◌≡◌, ◌||◌, not, true, IfOk};
ghost use Rattle.miss_counts.specs.Counted.{any_needs_writes};
ghost use Rattle.clap.specs.Matches.{found_of};
ghost use Rattle.clap.specs.Walk.{rows_of};
ghost use Rattle.trace_lines.specs.Lines.{marks_writes};
ghost use Rattle.policies_requests.specs.Formats.{AsksFormat};
ghost use Rattle.policies_requests.specs.Requested.{AsksCurve, AsksReplay, AsksTotals, AsksWriteBacks};

use crate::fault::RequestFault;
use crate::options::{is_given, listed_sizes, number_from, printing, trace};
use crate::policy_choice::{replayed_policies, writing_policies};
use crate::request::{CurveRequest, ReplayRequest, TotalsRequest, WriteBacksRequest};
use crate::trace_formats::format;
use clap::ArgMatches;
use machine_limits::MOST_FRAMES;
use miss_counts::{PolicySet, TableSize, first_writing, usual_frames};
use std::alloc::{AllocError, Global};
use std::num::NonZeroU32;
use trace_files::{TraceFormat, marks_writes};

/// What `--skip` may be.
const SKIPPED: &str = "a number of references, from 0 to 4294967295";

/// What `--sample` may be.
const SAMPLES: &str = "one page in so many, from 1 to 4294967295";

/// Why working sets go with no policy and no sample.
const WORKING_SETS: &str = "a working set goes by a window, and by no number of frames";

pub(crate) fn replay_request<'a>(
    alloc: Global,
    matches: &ArgMatches<'a>,
) -> Result<ReplayRequest<'a>, RequestFault<'a>>
    ensures { IfOk result (AsksReplay (rows_of (found_of matches.now))) }
{
    let skip = number_from(matches, "skip", 0, 0, u32::MAX, SKIPPED)?;
    let format = format(matches)?;
    let trace = trace(matches)?;
    let sizes = trace_sizes(alloc, matches)?;
    let wanted = played_policies(alloc, matches, sizes.as_slice(), skip, format)?;
    Ok(ReplayRequest {
        sizes,
        format,
        wanted,
        skip: u64::from(skip),
        printing: printing(matches),
        is_told: is_given(matches, "progress"),
        trace,
    })
}

/// The policies that a trace in a format is played on. One that goes by writes is refused where the format marks none.
#[tactic(auto, using(crate::proofs::Writes::marked, crate::proofs::Writes::none_writes))]
fn played_policies<'a>(
    alloc: Global,
    matches: &ArgMatches<'a>,
    sizes: &[TableSize],
    skip: u32,
    format: TraceFormat<'a>,
) -> Result<PolicySet, RequestFault<'a>>
    ensures whole { IfOk result (λ wanted. wanted.optimum ≡ true → skip ≡ 0) }
    ensures writes { IfOk result (λ wanted. (marks_writes format.entry || not (any_needs_writes
        wanted.policies.items)) ≡ true) }
{
    let has_writes = marks_writes(format);
    let wanted = replayed_policies(alloc, matches, sizes, skip, has_writes)?;
    if has_writes {
        return Ok(wanted);
    }
    match first_writing(wanted.policies.as_slice()) {
        Some(policy) => Err(RequestFault::NeedsWrites(policy.text())),
        None => Ok(wanted),
    }
}

/// The numbers of frames that a trace is played with.
fn trace_sizes<'a>(
    alloc: Global,
    matches: &ArgMatches<'a>,
) -> Result<Vec<TableSize>, RequestFault<'a>> {
    match matches.get_str("frames") {
        Some(list) => listed_sizes(alloc, list),
        None => Ok(usual_sizes(alloc)?),
    }
}

/// The usual numbers of frames, up to a machine's most.
fn usual_sizes(alloc: Global) -> Result<Vec<TableSize>, AllocError> {
    let mut sizes = Vec::new(alloc);
    for frames in usual_frames(alloc, MOST_FRAMES as usize)? {
        sizes.push(TableSize::Frames(frames))?;
    }
    Ok(sizes)
}

pub(crate) fn write_backs_request<'a>(
    alloc: Global,
    matches: &ArgMatches<'a>,
) -> Result<WriteBacksRequest<'a>, RequestFault<'a>>
    ensures { IfOk result (AsksWriteBacks (rows_of (found_of matches.now))) }
{
    let format = marked_format(matches)?;
    let trace = trace(matches)?;
    let sizes = trace_sizes(alloc, matches)?;
    let policies = writing_policies(alloc, matches, sizes.as_slice())?;
    Ok(WriteBacksRequest {
        sizes,
        format,
        policies,
        printing: printing(matches),
        is_told: is_given(matches, "progress"),
        trace,
    })
}

/// The format that a trace is in, where it marks writes.
fn marked_format<'a>(matches: &ArgMatches<'a>) -> Result<TraceFormat<'a>, RequestFault<'a>>
    ensures format { IfOk result (AsksFormat (rows_of (found_of matches.now))) }
    ensures marks { IfOk result (λ format. marks_writes format ≡ true) }
{
    let format = format(matches)?;
    if !marks_writes(format) {
        return Err(RequestFault::NoWrites);
    }
    Ok(format)
}

pub(crate) fn curve_request<'a>(
    matches: &ArgMatches<'a>,
) -> Result<CurveRequest<'a>, RequestFault<'a>>
    ensures { IfOk result (AsksCurve (rows_of (found_of matches.now))) }
{
    let one_in = number_from(matches, "sample", 0, 1, u32::MAX, SAMPLES)?;
    let has_optimum = is_given(matches, "optimum");
    let is_of_windows = is_given(matches, "working-sets");
    if let Some(wrong) = curves_together(one_in > 0, has_optimum, is_of_windows) {
        return Err(wrong);
    }
    let format = format(matches)?;
    let trace = trace(matches)?;
    Ok(CurveRequest {
        format,
        has_optimum,
        is_of_windows,
        one_in: NonZeroU32::new(one_in),
        printing: printing(matches),
        is_told: is_given(matches, "progress"),
        trace,
    })
}

/// What is wrong with curves that are asked for together, if anything is.
fn curves_together<'a>(
    is_sampled: bool,
    has_optimum: bool,
    is_of_windows: bool,
) -> Option<RequestFault<'a>> {
    match (is_of_windows, has_optimum, is_sampled) {
        (true, true, _) => Some(RequestFault::Together("working-sets", "optimum", WORKING_SETS)),
        (true, false, true) => Some(RequestFault::Together("working-sets", "sample", WORKING_SETS)),
        (false, true, true) => Some(RequestFault::Together(
            "sample",
            "optimum",
            "a sample estimates what LRU misses alone",
        )),
        _ => None,
    }
}

pub(crate) fn totals_request<'a>(
    matches: &ArgMatches<'a>,
) -> Result<TotalsRequest<'a>, RequestFault<'a>>
    ensures { IfOk result (AsksTotals (rows_of (found_of matches.now))) }
{
    let format = format(matches)?;
    Ok(TotalsRequest {
        format,
        is_told: is_given(matches, "progress"),
        trace: trace(matches)?,
    })
}
