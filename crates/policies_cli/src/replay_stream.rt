//! A trace that is played as it comes.

ghost use Rattle.std.specs.Prelude.{◌≡◌, ◌≤◌, ◌<◌, ◌^◌, false, [], map, Some, IfOk, IfSome};
ghost use Rattle.miss_counts.specs.FrameNumbers.{has_part, frames_for};
ghost use Rattle.whole_strings.specs.PageCounts.{page_count};
ghost use Rattle.miss_counts.specs.Replayed.{HavePlayed};
ghost use Rattle.trace_files.specs.References.{Ends};
ghost use Rattle.trace_files.specs.ReferenceAnswers.{to_come};
ghost use Rattle.policies_cli.specs.Replays.{PlaysNext, ReplaysAsAsked, StreamsAsAsked};

use crate::replay_rows::{new_rows, none_played};
use crate::wrong::Wrong;
use image_files::Fault;
use miss_counts::{PolicyCounts, Rows, Stage, StageListener, frames_for};
use policies_requests::ReplayRequest;
use std::alloc::Global;
use std::io::BufRead;
use trace_files::{BLOCK, TraceFile};

/// What the string misses: the policies keep what they keep, and nothing else is kept but a block of references.
#[tactic(auto, using(crate::proofs::Streaming::stream_as_asked))]
pub(crate) fn count_as_it_comes<'a, B: BufRead + Drop, P: StageListener>(
    alloc: Global,
    trace: &mut TraceFile<'a, B>,
    request: &ReplayRequest<'a>,
    progress: &mut P,
) -> Result<Vec<PolicyCounts>, Wrong<'a>>
    requires none { request.now.wanted.optimum ≡ false }
    requires whole { has_part request.now.sizes.items ≡ false }
    ensures { IfOk result (λ rows. ReplaysAsAsked request.now rows.items (to_come B.remaining
        trace.old)) }
{
    let frames = frames_for(alloc, request.sizes.as_slice(), 0)?;
    let rows = new_rows(alloc, frames.as_slice(), &request.wanted)?;
    let counts = play_all(alloc, trace, request, rows, progress)?;
    Ok(counts)
}

/// Plays the whole trace. What the first references miss that are skipped is left out.
#[tactic(auto, using(crate::proofs::Streaming::all_played))]
fn play_all<'a, B: BufRead + Drop, P: StageListener>(
    alloc: Global,
    trace: &mut TraceFile<'a, B>,
    request: &ReplayRequest<'a>,
    mut rows: Rows,
    progress: &mut P,
) -> Result<Vec<PolicyCounts>, Wrong<'a>>
    ensures { IfOk result (λ counts. StreamsAsAsked request.now (to_come B.remaining trace.old)
        rows counts.items) }
{
    let skipped = play(alloc, trace, &mut rows, request.skip, progress)?;
    if skipped < request.skip {
        return Err(none_played(request, skipped));
    }
    rows.skip();
    let count = play(alloc, trace, &mut rows, u64::MAX, progress)?;
    if count == 0 {
        return Err(none_played(request, skipped));
    }
    if count == u64::MAX {
        // nothing says that a reader ends: std gives up after as many turns
        return Err(Wrong::Fault(Fault::CannotRead(request.trace)));
    }
    let counts = rows.counts(alloc)?;
    Ok(counts)
}

/// Plays the next references, so many at most, and answers how many there were: fewer only at the end of the trace.
fn play<'a, B: BufRead + Drop, P: StageListener>(
    alloc: Global,
    trace: &mut TraceFile<'a, B>,
    rows: &mut Rows,
    most: u64,
    progress: &mut P,
) -> Result<u64, Wrong<'a>>
    ensures played { IfOk result (PlaysNext (to_come B.remaining trace.old) (to_come B.remaining
        trace.new) rows.old rows.new) }
    ensures few { IfOk result (λ count. count ≤ most) }
    ensures end { IfOk result (λ count. count < most → IfSome (to_come B.remaining trace.old) (λ _.
        to_come B.remaining trace.new ≡ Some Ends)) }
{
    let mut block = Vec::new(alloc);
    let mut count = 0u64;
    'turns: for _ in 0..u64::MAX {
        let left = (most - count).min(BLOCK as u64);
        trace.fill(&mut block, left as usize)?;
        if block.is_empty() {
            return Ok(count);
        }
        rows.play(block.as_slice())?;
        count += block.len() as u64;
        progress.tell(Stage::References(count));
    }
    Ok(count)
}
