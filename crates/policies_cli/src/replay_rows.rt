//! Rows in which nothing is played yet, and why nothing is.

ghost use Rattle.std.specs.Prelude.{[], IfOk};
ghost use Rattle.miss_counts.specs.Replayed.{HavePlayed};

use crate::wrong::Wrong;
use miss_counts::{PolicySet, Rows};
use page_policies::Frames;
use policies_requests::ReplayRequest;
use std::alloc::Global;
use trace_files::TraceFault;

/// A row for each of these numbers of frames, where anything is counted.
pub(crate) fn new_rows<'a>(
    alloc: Global,
    frames: &[Frames],
    wanted: &PolicySet,
) -> Result<Rows, Wrong<'a>>
    ensures { IfOk result (HavePlayed wanted.now.policies.items frames.now [] []) }
{
    if !wanted.is_counted(frames) {
        return Err(Wrong::BadSize);
    }
    let rows = Rows::new(alloc, frames, wanted.policies.as_slice())?;
    Ok(rows)
}

/// Why no reference was played, where so many were skipped.
pub(crate) fn none_played<'a>(request: &ReplayRequest<'a>, skipped: u64) -> Wrong<'a> {
    if skipped == 0 {
        Wrong::Trace(TraceFault::Empty(request.trace))
    } else {
        Wrong::AllSkipped(request.skip, request.trace, skipped)
    }
}
