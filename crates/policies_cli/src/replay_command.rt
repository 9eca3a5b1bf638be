//! `policies replay`: what a trace misses.

ghost use Rattle.std.specs.Prelude.{IfOk};
ghost use Rattle.trace_files.specs.ReferenceAnswers.{to_come};
ghost use Rattle.policies_cli.specs.Replays.{OfFile, ReplaysAsAsked};

use crate::replay_kept::{count_kept, count_whole};
use crate::replay_stream::count_as_it_comes;
use crate::teller::Teller;
use crate::wrong::Wrong;
use miss_counts::{PolicyCounts, StageListener, has_part};
use policies_requests::ReplayRequest;
use policies_tables::write_table;
use std::alloc::Global;
use std::io::{BufRead, Write};
use std::rt::Files;
use trace_files::{TraceFile, open_trace};

/// Plays a trace on each policy as it comes, and writes the table.
pub(crate) fn run_replay<'a, R: Files + AllocGlobal, W: Write, E: Write>(
    rt: &R,
    request: &ReplayRequest<'a>,
    out: &mut W,
    err: &mut E,
) -> Result<(), Wrong<'a>> {
    let rows = count_told(rt, request, err)?;
    Ok(write_table(rows.as_slice(), request.printing, out)?)
}

/// The progress of the count is reported meanwhile.
fn count_told<'a, R: Files + AllocGlobal, E: Write>(
    rt: &R,
    request: &ReplayRequest<'a>,
    err: &mut E,
) -> Result<Vec<PolicyCounts>, Wrong<'a>>
    ensures { IfOk result (λ rows. OfFile R.File.remaining request.now.format (ReplaysAsAsked
        request.now rows.items)) }
{
    let mut teller = Teller::new(err, request.is_told);
    let counted = count_trace(rt, request, &mut teller);
    teller.erase();
    counted
}

/// The rows of the table.
#[tactic(auto, using(crate::proofs::Opened::of_file))]
fn count_trace<'a, R: Files + AllocGlobal, P: StageListener>(
    rt: &R,
    request: &ReplayRequest<'a>,
    progress: &mut P,
) -> Result<Vec<PolicyCounts>, Wrong<'a>>
    ensures { IfOk result (λ rows. OfFile R.File.remaining request.now.format (ReplaysAsAsked
        request.now rows.items)) }
{
    let mut trace = open_trace(rt, request.trace, request.format)?;
    let rows = count_opened(rt.alloc(), &mut trace, request, progress)?;
    Ok(rows)
}

/// The same of a trace that is open.
pub fn count_opened<'a, B: BufRead + Drop, P: StageListener>(
    alloc: Global,
    trace: &mut TraceFile<'a, B>,
    request: &ReplayRequest<'a>,
    progress: &mut P,
) -> Result<Vec<PolicyCounts>, Wrong<'a>>
    ensures { IfOk result (λ rows. ReplaysAsAsked request.now rows.items (to_come B.remaining
        trace.old)) }
{
    if request.wanted.optimum {
        return count_whole(alloc, trace, request, progress);
    }
    if has_part(request.sizes.as_slice()) {
        return count_kept(alloc, trace, request, progress);
    }
    count_as_it_comes(alloc, trace, request, progress)
}
