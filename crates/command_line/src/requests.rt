//! The requests that commands make of their arguments.

ghost use Rattle.std.specs.Prelude.{◌≡◌, IfOk, IfErr, IsErr, Err};
ghost use Rattle.clap.specs.Matches.{found_of};
ghost use Rattle.clap.specs.Walk.{rows_of};
ghost use Rattle.command_line.specs.Requests.{AsksAsm, AsksFlat, AsksClock, AsksDrive, AsksRun, AsksDebug, AsksThreading, IsThreadingInRange, IsFlatInRange, IsClockInRange, IsDriveInRange, IsRunInRange, IsDebugInRange};
ghost use Rattle.command_line.specs.declared.request.AsmRequest.{AsmRequest};
ghost use Rattle.command_line.specs.declared.request.FlatRequest.{FlatRequest};
ghost use Rattle.command_line.specs.declared.request.ClockRequest.{ClockRequest};
ghost use Rattle.command_line.specs.declared.request.DriveRequest.{DriveRequest};
ghost use Rattle.command_line.specs.declared.request.RunRequest.{RunRequest};
ghost use Rattle.command_line.specs.declared.request.Threading.{Threading};
ghost use Rattle.command_line.specs.declared.request.DebugRequest.{DebugRequest};

use crate::request::{
    AsmRequest, ClockRequest, DebugRequest, DriveRequest, FlatRequest, RunRequest, Threading,
    UsageError,
};
use crate::values::{found, images, in_range, is_given, limit, number_if_given, number_or, value};
use clap::ArgMatches;
use machine_limits::{FEWEST_FRAMES, MOST_FRAMES};
use std::alloc::Global;

pub fn asm_request<'a>(matches: &ArgMatches<'a>) -> Result<AsmRequest<'a>, UsageError>
    ensures asked { IfOk result (AsksAsm (rows_of (found_of matches.now))) }
    ensures bad { IsErr result → (request : AsmRequest) →
        ¬ AsksAsm (rows_of (found_of matches.now)) request }
    ensures refused { IfErr result (λ error. error ≡ UsageError.BadUsage) }
{
    let source = value(matches, "source")?;
    let target = value(matches, "target")?;
    Ok(AsmRequest { source, target })
}

pub fn flat_request<'a>(matches: &ArgMatches<'a>) -> Result<FlatRequest<'a>, UsageError>
    ensures in_range { IfOk result IsFlatInRange }
    ensures asked { IfOk result (AsksFlat (rows_of (found_of matches.now))) }
    ensures bad { IsErr result → (request : FlatRequest) →
        ¬ AsksFlat (rows_of (found_of matches.now)) request }
    ensures refused { IfErr result (λ error. error ≡ UsageError.BadUsage) }
{
    let limit = limit(matches)?;
    let input = found(matches, "input");
    let image = value(matches, "image")?;
    Ok(FlatRequest {
        limit,
        input,
        image,
    })
}

pub fn clock_request<'a>(matches: &ArgMatches<'a>) -> Result<ClockRequest<'a>, UsageError>
    ensures in_range { IfOk result IsClockInRange }
    ensures asked { IfOk result (AsksClock (rows_of (found_of matches.now))) }
    ensures bad { IsErr result → (request : ClockRequest) →
        ¬ AsksClock (rows_of (found_of matches.now)) request }
    ensures refused { IfErr result (λ error. error ≡ UsageError.BadUsage) }
{
    let frames = value(matches, "frames")?;
    let frames = in_range(frames, FEWEST_FRAMES, MOST_FRAMES)?;
    let script = value(matches, "script")?;
    Ok(ClockRequest { frames, script })
}

pub fn drive_request<'a>(
    alloc: Global,
    matches: &ArgMatches<'a>,
) -> Result<DriveRequest<'a>, UsageError>
    ensures in_range { IfOk result IsDriveInRange }
    ensures asked { IfOk result (AsksDrive (rows_of (found_of matches.now))) }
    ensures bad { result ≡ Err UsageError.BadUsage → (request : DriveRequest) →
        ¬ AsksDrive (rows_of (found_of matches.now)) request }
{
    let frames = number_or(matches, "frames", 64, FEWEST_FRAMES, MOST_FRAMES)?;
    let slots = number_or(matches, "slots", 4096, 0, 65_536)?;
    let script = value(matches, "script")?;
    let images = images(alloc, matches)?;
    Ok(DriveRequest {
        frames,
        slots,
        script,
        images,
    })
}

pub fn run_request<'a>(
    alloc: Global,
    matches: &ArgMatches<'a>,
) -> Result<RunRequest<'a>, UsageError>
    ensures in_range { IfOk result IsRunInRange }
    ensures asked { IfOk result (AsksRun (rows_of (found_of matches.now))) }
    ensures bad { result ≡ Err UsageError.BadUsage → (request : RunRequest) →
        ¬ AsksRun (rows_of (found_of matches.now)) request }
{
    let frames = number_or(matches, "frames", 64, FEWEST_FRAMES, MOST_FRAMES)?;
    let slots = number_or(matches, "slots", 4096, 0, 65_536)?;
    let slice = number_or(matches, "slice", 1000, 1, 100_000)?;
    let limit = number_or(matches, "limit", 100_000_000, 1, 1_000_000_000)?;
    let input = found(matches, "input");
    let swap = found(matches, "swap");
    let threading = threading(matches)?;
    let images = images(alloc, matches)?;
    Ok(RunRequest {
        frames,
        slots,
        slice,
        limit,
        input,
        swap,
        threading,
        images,
    })
}

pub fn debug_request<'a>(matches: &ArgMatches<'a>) -> Result<DebugRequest<'a>, UsageError>
    ensures in_range { IfOk result IsDebugInRange }
    ensures asked { IfOk result (AsksDebug (rows_of (found_of matches.now))) }
    ensures bad { IsErr result → (request : DebugRequest) →
        ¬ AsksDebug (rows_of (found_of matches.now)) request }
    ensures refused { IfErr result (λ error. error ≡ UsageError.BadUsage) }
{
    let frames = number_if_given(matches, "frames", FEWEST_FRAMES, MOST_FRAMES)?;
    let image = value(matches, "image")?;
    Ok(DebugRequest { frames, image })
}

/// On which threads it runs. A number of workers is looked at on one thread too.
fn threading(matches: &ArgMatches<'_>) -> Result<Threading, UsageError>
    ensures in_range { IfOk result IsThreadingInRange }
    ensures asked { IfOk result (AsksThreading (rows_of (found_of matches.now))) }
    ensures bad { IsErr result → (threading : Threading) →
        ¬ AsksThreading (rows_of (found_of matches.now)) threading }
    ensures refused { IfErr result (λ error. error ≡ UsageError.BadUsage) }
{
    let workers = number_or(matches, "workers", 4, 1, 64)?;
    let status = is_given(matches, "status");
    let ahead = is_given(matches, "ahead");
    if !is_given(matches, "serial") {
        return Ok(Threading::Workers {
            workers,
            status,
            ahead,
        });
    }
    if status {
        return Err(UsageError::BadUsage);
    }
    if ahead {
        return Err(UsageError::BadUsage);
    }
    Ok(Threading::Serial)
}
