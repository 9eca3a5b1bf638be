//! `policies curve`: what a trace misses with every number of frames, or its working sets.

ghost use Rattle.std.specs.Prelude.{◌≡◌, IfOk};
ghost use Rattle.policies_cli.specs.Curves.{AreCurves, AreWindows, IsEstimate, OfSample, OfString};
ghost use Rattle.policies_cli.specs.Replays.{OfFile};

use crate::curve_string::{curve_sample, curve_string};
use crate::curves::{Curves, Estimate, Windows, curves_of, estimate_of, windows_of};
use crate::wrong::Wrong;
use policies_requests::CurveRequest;
use policies_tables::{write_curve, write_estimate, write_windows};
use std::io::Write;
use std::num::NonZeroU32;
use std::rt::Files;

/// Counts a trace, and writes a row for each number of frames up to as many as it has pages, or for each window.
pub(crate) fn run_curve<'a, R: Files + AllocGlobal, W: Write, E: Write>(
    rt: &R,
    request: &CurveRequest<'a>,
    out: &mut W,
    err: &mut E,
) -> Result<(), Wrong<'a>> {
    if request.is_of_windows {
        return run_windows(rt, request, out, err);
    }
    match request.one_in {
        Some(one_in) => run_estimate(rt, request, one_in, out, err),
        None => run_whole(rt, request, out, err),
    }
}

/// Counts the whole trace.
fn run_whole<'a, R: Files + AllocGlobal, W: Write, E: Write>(
    rt: &R,
    request: &CurveRequest<'a>,
    out: &mut W,
    err: &mut E,
) -> Result<(), Wrong<'a>> {
    let curves = count_curves(rt, request, err)?;
    Ok(write_curve(
        curves.lru.as_slice(),
        curves.optimum.as_slice(),
        curves.references,
        request.printing,
        out,
    )?)
}

/// The curve of the whole trace under LRU, and under the optimum where that is asked for.
#[tactic(auto, using(crate::proofs::Opened::of_string))]
fn count_curves<'a, R: Files + AllocGlobal, E: Write>(
    rt: &R,
    request: &CurveRequest<'a>,
    err: &mut E,
) -> Result<Curves, Wrong<'a>>
    ensures { IfOk result (λ curves. OfFile R.File.remaining request.now.format (OfString (λ string.
        AreCurves request.now.has_optimum string curves))) }
{
    let string = curve_string(rt, request, err)?;
    curves_of(rt.alloc(), string.as_slice(), request.has_optimum)
}

/// Counts a sample of one page in so many, and writes what that says of the whole.
fn run_estimate<'a, R: Files + AllocGlobal, W: Write, E: Write>(
    rt: &R,
    request: &CurveRequest<'a>,
    one_in: NonZeroU32,
    out: &mut W,
    err: &mut E,
) -> Result<(), Wrong<'a>> {
    let estimate = count_sample(rt, request, one_in, err)?;
    Ok(write_estimate(estimate.lru.as_slice(), estimate.of, request.printing, out)?)
}

/// The curve of the sample under LRU.
#[tactic(auto, using(crate::proofs::Opened::of_sample))]
fn count_sample<'a, R: Files + AllocGlobal, E: Write>(
    rt: &R,
    request: &CurveRequest<'a>,
    one_in: NonZeroU32,
    err: &mut E,
) -> Result<Estimate, Wrong<'a>>
    ensures { IfOk result (λ estimate. OfFile R.File.remaining request.now.format
        (OfSample one_in.value (λ references sample. IsEstimate one_in.value references sample
        estimate))) }
{
    let (sample, references) = curve_sample(rt, request, one_in, err)?;
    let estimate = estimate_of(rt.alloc(), sample.as_slice(), one_in, references)?;
    Ok(estimate)
}

/// Counts the working sets of a whole trace, and writes a row for each window up to the one with which each page misses once.
fn run_windows<'a, R: Files + AllocGlobal, W: Write, E: Write>(
    rt: &R,
    request: &CurveRequest<'a>,
    out: &mut W,
    err: &mut E,
) -> Result<(), Wrong<'a>> {
    let windows = count_windows(rt, request, err)?;
    Ok(write_windows(
        windows.curve.as_slice(),
        windows.references,
        request.printing,
        out,
    )?)
}

/// The working sets of the whole trace.
#[tactic(auto, using(crate::proofs::Opened::of_string))]
fn count_windows<'a, R: Files + AllocGlobal, E: Write>(
    rt: &R,
    request: &CurveRequest<'a>,
    err: &mut E,
) -> Result<Windows, Wrong<'a>>
    ensures { IfOk result (λ windows. OfFile R.File.remaining request.now.format (OfString (λ string.
        AreWindows string windows))) }
{
    let string = curve_string(rt, request, err)?;
    let windows = windows_of(rt.alloc(), string.as_slice())?;
    Ok(windows)
}
