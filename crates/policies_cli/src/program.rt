//! A run of the program.

use crate::curve_command::run_curve;
use crate::misses_command::run_misses;
use crate::replay_command::run_replay;
use crate::totals_command::run_totals;
use crate::trace_command::run_trace;
use crate::write_backs_command::run_write_backs;
use crate::wrong::Wrong;
use image_files::{Fault, begin, finish};
use policies_requests::{PoliciesRequest, RequestFault, read_request};
use std::convert::AsStr;
use std::env::Env;
use std::io::{Print, Write};
use std::rt::Files;

/// Runs the program on the words that it was started with: `run_policies`.
pub fn start<R: Env + Files + Print + AllocGlobal, E: Write>(rt: &R, err: &mut E) -> u8 {
    let (words, mut out) = match begin(rt, "policies", err) {
        Ok(begun) => begun,
        Err(status) => return status,
    };
    run_policies(rt, words.as_slice(), &mut out, err)
}

/// Runs the program on the words after its name, and returns its exit status: 0, or 2 for a fault, which is printed on `err`.
pub fn run_policies<R: Files + AllocGlobal, S: AsStr, O: Write, E: Write>(
    rt: &R,
    words: &[S],
    out: &mut O,
    err: &mut E,
) -> u8 {
    match run_words(rt, words, out, err) {
        Ok(()) => finish("policies", Ok(0), out, err),
        Err(wrong) => end_wrongly(&wrong, out, err),
    }
}

/// Ends a run that was not done, or that was asked only for help.
fn end_wrongly<O: Write, E: Write>(wrong: &Wrong<'_>, out: &mut O, err: &mut E) -> u8 {
    match wrong {
        Wrong::Request(fault) => end_request(wrong, fault, out, err),
        _ => tell(wrong, out, err),
    }
}

/// The same where words made no request.
fn end_request<O: Write, E: Write>(
    wrong: &Wrong<'_>,
    fault: &RequestFault<'_>,
    out: &mut O,
    err: &mut E,
) -> u8 {
    match fault {
        RequestFault::Words(error) => {
            if error.use_stderr() {
                tell(wrong, out, err)
            } else {
                show_help(error, out, err)
            }
        }
        _ => tell(wrong, out, err),
    }
}

/// Help that was asked for.
fn show_help<O: Write, E: Write>(help: &clap::Error, out: &mut O, err: &mut E) -> u8 {
    match write!(out, "{help}") {
        Ok(()) => finish("policies", Ok(0), out, err),
        Err(_) => finish("policies", Err(Fault::CannotWrite), out, err),
    }
}

/// What is wrong with what the program was given.
fn tell<O: Write, E: Write>(wrong: &Wrong<'_>, out: &mut O, err: &mut E) -> u8 {
    let _ = out.flush();
    let _ = writeln!(err, "policies: {wrong}");
    let _ = err.flush();
    2
}

fn run_words<'a, R: Files + AllocGlobal, S: AsStr, O: Write, E: Write>(
    rt: &R,
    words: &'a [S],
    out: &mut O,
    err: &mut E,
) -> Result<(), Wrong<'a>> {
    run_request(rt, read_request(rt.alloc(), words)?, out, err)
}

fn run_request<'a, R: Files + AllocGlobal, O: Write, E: Write>(
    rt: &R,
    request: PoliciesRequest<'a>,
    out: &mut O,
    err: &mut E,
) -> Result<(), Wrong<'a>> {
    match request {
        PoliciesRequest::Misses(request) => run_misses(rt, request, out, err),
        PoliciesRequest::Trace(request) => as_wrong(run_trace(rt, &request, out)),
        PoliciesRequest::Replay(request) => run_replay(rt, &request, out, err),
        PoliciesRequest::Curve(request) => run_curve(rt, &request, out, err),
        PoliciesRequest::WriteBacks(request) => run_write_backs(rt, &request, out, err),
        PoliciesRequest::Totals(request) => run_totals(rt, &request, out, err),
    }
}

fn as_wrong<'a>(done: Result<(), Fault<'a>>) -> Result<(), Wrong<'a>> {
    match done {
        Ok(()) => Ok(()),
        Err(fault) => Err(Wrong::Fault(fault)),
    }
}
