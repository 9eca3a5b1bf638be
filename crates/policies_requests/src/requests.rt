//! From words to a request.

ghost use Rattle.std.specs.Prelude.{IfOk};
ghost use Rattle.clap.specs.Matches.{found_of};
ghost use Rattle.clap.specs.Simple.{subcommand_rows_of};
ghost use Rattle.clap.specs.Walk.{rows_of};
ghost use Rattle.policies_requests.specs.Requested.{Asks, IsAsked};

use crate::commands::policies;
use crate::fault::RequestFault;
use crate::guest_requests::{misses_request, trace_request};
use crate::request::PoliciesRequest;
use crate::trace_requests::{curve_request, replay_request, totals_request, write_backs_request};
use clap::ArgMatches;
use clap::error::ErrorKind;
use std::alloc::Global;
use std::convert::AsStr;

/// The request that the words after the program's name make.
pub fn read_request<'a, S: AsStr>(
    alloc: Global,
    words: &'a [S],
) -> Result<PoliciesRequest<'a>, RequestFault<'a>> {
    match policies(alloc)?.try_get_matches_from(words) {
        Ok(matches) => request_of(alloc, &matches),
        Err(error) => Err(words_wrong(error)),
    }
}

/// Why words are no request.
fn words_wrong<'a>(error: clap::Error) -> RequestFault<'a> {
    match error.kind() {
        ErrorKind::OutOfMemory => RequestFault::NoMemory,
        _ => RequestFault::Words(error),
    }
}

/// The request that the arguments of a command make.
fn request_of<'a>(
    alloc: Global,
    matches: &ArgMatches<'a>,
) -> Result<PoliciesRequest<'a>, RequestFault<'a>>
    ensures { IfOk result (IsAsked (subcommand_rows_of matches.now)) }
{
    match matches.subcommand() {
        Some((name, matches)) => named_request(alloc, name, matches),
        None => Err(RequestFault::BadUsage),
    }
}

/// The request of the command of this name, with its arguments.
fn named_request<'a>(
    alloc: Global,
    name: &str,
    matches: &ArgMatches<'a>,
) -> Result<PoliciesRequest<'a>, RequestFault<'a>>
    ensures { IfOk result (Asks name.now (rows_of (found_of matches.now))) }
{
    match name {
        "misses" => Ok(PoliciesRequest::Misses(misses_request(alloc, matches)?)),
        "trace" => Ok(PoliciesRequest::Trace(trace_request(alloc, matches)?)),
        "replay" => Ok(PoliciesRequest::Replay(replay_request(alloc, matches)?)),
        "curve" => Ok(PoliciesRequest::Curve(curve_request(matches)?)),
        "write-backs" => Ok(PoliciesRequest::WriteBacks(write_backs_request(alloc, matches)?)),
        "totals" => Ok(PoliciesRequest::Totals(totals_request(matches)?)),
        _ => Err(RequestFault::BadUsage),
    }
}
