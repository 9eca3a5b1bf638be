//! A trace that is kept as a whole while it is played.

ghost use Rattle.std.specs.Prelude.{◌≡◌, ◌<◌, ◌^◌, true, false, length, IfOk};
ghost use Rattle.trace_files.specs.ReferenceAnswers.{to_come};
ghost use Rattle.policies_cli.specs.Replays.{PlaysParts, ReplaysAsAsked};

use crate::replay_rows::{new_rows, none_played};
use crate::wrong::Wrong;
use guest_strings::Reference;
use miss_counts::{PolicyCounts, Rows, StageListener, frames_for_string, rows_of};
use policies_requests::ReplayRequest;
use std::alloc::Global;
use std::io::BufRead;
use trace_files::{TraceFile, read_references};

/// What the whole string misses: the optimum is asked for, and none are skipped.
pub(crate) fn count_whole<'a, B: BufRead + Drop, P: StageListener>(
    alloc: Global,
    trace: &mut TraceFile<'a, B>,
    request: &ReplayRequest<'a>,
    progress: &mut P,
) -> Result<Vec<PolicyCounts>, Wrong<'a>>
    requires { request.now.wanted.optimum ≡ true }
    ensures { IfOk result (λ rows. ReplaysAsAsked request.now rows.items (to_come B.remaining
        trace.old)) }
{
    let string = read_references(alloc, trace, progress)?;
    let frames = frames_for_string(alloc, request.sizes.as_slice(), string.as_slice())?;
    let rows = rows_of(
        alloc,
        frames.as_slice(),
        string.as_slice(),
        &request.wanted,
        progress,
    )?;
    Ok(rows)
}

/// What the string misses whose numbers of frames follow from its pages.
pub(crate) fn count_kept<'a, B: BufRead + Drop, P: StageListener>(
    alloc: Global,
    trace: &mut TraceFile<'a, B>,
    request: &ReplayRequest<'a>,
    progress: &mut P,
) -> Result<Vec<PolicyCounts>, Wrong<'a>>
    requires { request.now.wanted.optimum ≡ false }
    ensures { IfOk result (λ rows. ReplaysAsAsked request.now rows.items (to_come B.remaining
        trace.old)) }
{
    let string = read_references(alloc, trace, progress)?;
    let frames = frames_for_string(alloc, request.sizes.as_slice(), string.as_slice())?;
    let rows = new_rows(alloc, frames.as_slice(), &request.wanted)?;
    if string.len() as u64 <= request.skip {
        return Err(none_played(request, string.len() as u64));
    }
    let counts = play_kept(alloc, string.as_slice(), request, rows)?;
    Ok(counts)
}

/// Plays a string. What the first references miss that are skipped is left out.
fn play_kept<'a>(
    alloc: Global,
    string: &[Reference],
    request: &ReplayRequest<'a>,
    mut rows: Rows,
) -> Result<Vec<PolicyCounts>, Wrong<'a>>
    requires some { request.now.skip < length string.now }
    requires few { length string.now < 2 ^ 64 }
    ensures { IfOk result (λ counts. PlaysParts request.now string.now rows counts.items) }
{
    let skipped = request.skip as usize;
    rows.play(&string[..skipped])?;
    rows.skip();
    rows.play(&string[skipped..])?;
    let counts = rows.counts(alloc)?;
    Ok(counts)
}
