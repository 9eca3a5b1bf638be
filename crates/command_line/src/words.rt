//! From words to a request.

ghost use Rattle.std.specs.Prelude.{◌≡◌, ◌≢◌, [], IfOk, Err, codes, map};
ghost use Rattle.clap.specs.Faults.{fault_of};
ghost use Rattle.clap.specs.Simple.{subcommand_of, subcommand_rows_of};
ghost use Rattle.clap.specs.Matches.{found_of};
ghost use Rattle.clap.specs.Walk.{rows_of};
ghost use Rattle.command_line.specs.Commands.{paged_app};
ghost use Rattle.command_line.specs.Requests.{Asks, IsAsked, IsInRange};
ghost use Rattle.command_line.specs.Usage.{IsBadUsage};
ghost use Rattle.command_line.specs.declared.request.Request.{Request};

use crate::commands::paged;
use crate::request::{Request, UsageError};
use crate::requests::{
    asm_request, clock_request, debug_request, drive_request, flat_request, run_request,
};
use clap::ArgMatches;
use clap::error::ErrorKind;
use std::alloc::Global;
use std::convert::AsStr;

/// The request that the words after the program's name make.
pub fn read_request<'a, S: AsStr>(alloc: Global, words: &'a [S]) -> Result<Request<'a>, UsageError>
    ensures in_range { IfOk result IsInRange }

    // What is asked for is what the words say, and they have no fault.
    ensures asked { IfOk result (IsAsked (subcommand_of paged_app (map S.text words.now))) }
    ensures no_fault { IfOk result (λ _. fault_of paged_app (map S.text words.now) ≡ []) }

    // The words are bad usage only where they have a fault, or where they ask for nothing. The only other error is lack of memory.
    ensures bad { result ≡ Err UsageError.BadUsage → IsBadUsage (map S.text words.now) }
{
    let matches = parse(alloc, words)?;
    request_of(alloc, &matches)
}

/// The words as arguments of the commands.
fn parse<'a, S: AsStr>(alloc: Global, words: &'a [S]) -> Result<ArgMatches<'a>, UsageError>
    ensures rows { IfOk result (λ matches. subcommand_rows_of matches ≡ subcommand_of paged_app
        (map S.text words.now)) }
    ensures no_fault { IfOk result (λ _. fault_of paged_app (map S.text words.now) ≡ []) }
    ensures bad { result ≡ Err UsageError.BadUsage → fault_of paged_app (map S.text words.now) ≢
        [] }
{
    match paged(alloc)?.try_get_matches_from(words) {
        Ok(matches) => Ok(matches),
        Err(error) => Err(usage_error(error.kind())),
    }
}

/// What a fault of this kind is.
fn usage_error(kind: ErrorKind) -> UsageError
    ensures bad { result ≡ UsageError.BadUsage → kind ≢ ErrorKind.OutOfMemory }
{
    match kind {
        ErrorKind::OutOfMemory => UsageError::NoMemory,
        _ => UsageError::BadUsage,
    }
}

/// The request that the arguments of a command make.
fn request_of<'a>(alloc: Global, matches: &ArgMatches<'a>) -> Result<Request<'a>, UsageError>
    ensures in_range { IfOk result IsInRange }
    ensures asked { IfOk result (IsAsked (subcommand_rows_of matches.now)) }
    ensures bad { result ≡ Err UsageError.BadUsage → (request : Request) →
        ¬ IsAsked (subcommand_rows_of matches.now) request }
{
    match matches.subcommand() {
        Some((name, matches)) => named_request(alloc, name, matches),
        None => Err(UsageError::BadUsage),
    }
}

/// The request of the command of this name, with its arguments.
fn named_request<'a>(
    alloc: Global,
    name: &str,
    matches: &ArgMatches<'a>,
) -> Result<Request<'a>, UsageError>
    ensures in_range { IfOk result IsInRange }
    ensures asked { IfOk result (Asks name.now (rows_of (found_of matches.now))) }
    ensures bad { result ≡ Err UsageError.BadUsage → (request : Request) →
        ¬ Asks name.now (rows_of (found_of matches.now)) request }
{
    match name {
        "asm" => Ok(Request::Asm(asm_request(matches)?)),
        "flat" => Ok(Request::Flat(flat_request(matches)?)),
        "clock" => Ok(Request::Clock(clock_request(matches)?)),
        "drive" => Ok(Request::Drive(drive_request(alloc, matches)?)),
        "run" => Ok(Request::Run(run_request(alloc, matches)?)),
        "debug" => Ok(Request::Debug(debug_request(matches)?)),
        _ => Err(UsageError::BadUsage),
    }
}
