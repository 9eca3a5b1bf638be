//! `policies write-backs`: how many pages of a trace are written back.

ghost use Rattle.std.specs.Prelude.{◌≡◌, map, IfOk, IfSome};
ghost use Rattle.miss_counts.specs.FrameNumbers.{frames_for};
ghost use Rattle.whole_strings.specs.PageCounts.{page_count};
ghost use Rattle.miss_counts.specs.StringPages.{pages_of};
ghost use Rattle.trace_files.specs.ReferenceAnswers.{to_come};
ghost use Rattle.policies_cli.specs.Replays.{OfFile, WritesBackAsAsked};

use crate::teller::Teller;
use crate::wrong::Wrong;
use miss_counts::{PolicyCounts, StageListener, frames_for_string, write_back_rows};
use policies_requests::WriteBacksRequest;
use policies_tables::write_table;
use std::alloc::Global;
use std::io::{BufRead, Write};
use std::rt::Files;
use trace_files::{TraceFile, open_trace, read_references};

/// Plays a trace on each policy, and writes a table of the pages that are written back.
pub(crate) fn run_write_backs<'a, R: Files + AllocGlobal, W: Write, E: Write>(
    rt: &R,
    request: &WriteBacksRequest<'a>,
    out: &mut W,
    err: &mut E,
) -> Result<(), Wrong<'a>> {
    let rows = count_told(rt, request, err)?;
    Ok(write_table(rows.as_slice(), request.printing, out)?)
}

/// The progress of the count is reported meanwhile.
fn count_told<'a, R: Files + AllocGlobal, E: Write>(
    rt: &R,
    request: &WriteBacksRequest<'a>,
    err: &mut E,
) -> Result<Vec<PolicyCounts>, Wrong<'a>>
    ensures { IfOk result (λ rows. OfFile R.File.remaining request.now.format (WritesBackAsAsked
        request.now rows.items)) }
{
    let mut teller = Teller::new(err, request.is_told);
    let counted = count_trace(rt, request, &mut teller);
    teller.erase();
    counted
}

/// The rows of the table.
#[tactic(auto, using(crate::proofs::Opened::of_file))]
fn count_trace<'a, R: Files + AllocGlobal, P: StageListener>(
    rt: &R,
    request: &WriteBacksRequest<'a>,
    progress: &mut P,
) -> Result<Vec<PolicyCounts>, Wrong<'a>>
    ensures { IfOk result (λ rows. OfFile R.File.remaining request.now.format (WritesBackAsAsked
        request.now rows.items)) }
{
    let mut trace = open_trace(rt, request.trace, request.format)?;
    let rows = count_opened(rt.alloc(), &mut trace, request, progress)?;
    Ok(rows)
}

/// The same of a trace that is open.
pub fn count_opened<'a, B: BufRead + Drop, P: StageListener>(
    alloc: Global,
    trace: &mut TraceFile<'a, B>,
    request: &WriteBacksRequest<'a>,
    progress: &mut P,
) -> Result<Vec<PolicyCounts>, Wrong<'a>>
    ensures { IfOk result (λ rows. WritesBackAsAsked request.now rows.items (to_come B.remaining
        trace.old)) }
{
    let string = read_references(alloc, trace, progress)?;
    let frames = frames_for_string(alloc, request.sizes.as_slice(), string.as_slice())?;
    let rows = write_back_rows(
        alloc,
        frames.as_slice(),
        string.as_slice(),
        request.policies.as_slice(),
        progress,
    )?;
    Ok(rows)
}
