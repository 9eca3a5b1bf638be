//! Runs a process by the turns of a record.

ghost use Rattle.std.specs.Prelude.{◌≡◌, ◌⊎◌, ◌↔◌, ◌==◌, Some, IsTrue, IfOk, IfErr, OnOk, length};
ghost use Rattle.flat_machine.specs.Process.{flat_run};
ghost use Rattle.flat_machine.specs.Schedule.{written_out};
ghost use Rattle.run_records.specs.Records.{value_of};
ghost use Rattle.run_records.specs.Replaying.{
  EndsLike,
  IsKill,
  Replays,
  StopsReplay,
  StopsRun,
  TakesNoMore,
};

use crate::fingerprint::is_print_of;
use crate::record::Record;
use flat_machine::{End, FlatProcess, Schedule, StepRefusal, Turn};
use std::alloc::Global;
use thiserror::Error;

/// Why a record does not replay.
#[derive(Clone, Copy, Debug, PartialEq, Eq, Error)]
pub enum ReplayFault {
    /// A schedule has no entries for so many.
    #[error("the record has more than 1000000 turns")]
    TooManyTurns,
    #[error("the turns of the record are not as many steps as it says")]
    OtherSteps,
    /// A turn is left when the process has ended, after so many steps.
    #[error("the process has ended after {0} steps, and the record goes on")]
    HasEnded(u64),
    /// After so many steps, the next step is of a hart that is not live.
    #[error("the hart of the step after {0} steps is not live")]
    NotLive(u64),
    #[error("the process has not ended as the record says")]
    OtherEnd,
    #[error("the output is not that of the record")]
    OtherOutput,
    #[error("no memory")]
    NoMemory,
}

/// Runs a process by the turns of a record, and compares what it came to.
pub fn replay(alloc: Global, process: &mut FlatProcess, told: &Record) -> Result<(), ReplayFault>
    ensures replays { OnOk result (Replays (value_of told.now) process.old process.new) }
    ensures refused { IfErr result (λ fault. StopsReplay fault (value_of told.now) process.old
        process.new) }
{
    let turns = told.turns.as_slice();
    if !has_steps(turns, told.closing.steps) {
        return Err(ReplayFault::OtherSteps);
    }
    let schedule = schedule_of(alloc, turns)?;
    run_by(process, &schedule)?;
    if !is_end(told.closing.end, process.end()) {
        return Err(ReplayFault::OtherEnd);
    }
    if !is_print_of(&told.closing.output, process.output()) {
        return Err(ReplayFault::OtherOutput);
    }
    Ok(())
}

/// Runs a schedule.
fn run_by(process: &mut FlatProcess, schedule: &Schedule) -> Result<(), ReplayFault>
    ensures ok { OnOk result (flat_run (written_out schedule.now) process.old ≡ Some process.new) }
    ensures refused { IfErr result (λ fault. StopsRun fault (written_out schedule.now) process.old
        process.new) }
{
    match process.run(schedule) {
        Ok(()) => Ok(()),
        Err((StepRefusal::Ended, done)) => Err(ReplayFault::HasEnded(done)),
        Err((StepRefusal::NoHart, done)) => Err(ReplayFault::NotLive(done)),
        Err((StepRefusal::NoMemory, _)) => Err(ReplayFault::NoMemory),
    }
}

/// Whether turns are so many steps.
#[tactic(auto, using(crate::proofs::Counting::one_more_counted, crate::proofs::Counting::too_many))]
fn has_steps(turns: &[Turn], steps: u64) -> bool
    ensures { result ≡ (length (written_out turns.now) == steps) }
{
    let mut left = steps;
    'turns: for turn in turns {
        let count = u64::from(turn.count);
        if left < count {
            return false;
        }
        left -= count;
    }
    left == 0
}

/// The schedule of these turns, of which neighbours of one hart are joined.
#[tactic(auto, using(crate::proofs::Counting::one_more_recorded, crate::proofs::Counting::takes_no_more))]
fn schedule_of(alloc: Global, turns: &[Turn]) -> Result<Schedule, ReplayFault>
    ensures same { IfOk result (λ schedule. written_out schedule ≡ written_out turns.now) }
    ensures refused { IfErr result (λ fault. ((fault ≡ ReplayFault.TooManyTurns)
        × TakesNoMore turns.now) ⊎ (fault ≡ ReplayFault.NoMemory)) }
{
    let Ok(mut schedule) = Schedule::new(alloc) else {
        return Err(ReplayFault::NoMemory);
    };
    'turns: for turn in turns {
        if schedule.room(turn.hart) < u64::from(turn.count) {
            // For the proof only: its turns are joined.
            let _ = schedule.turns();
            return Err(ReplayFault::TooManyTurns);
        }
        schedule.record(turn.hart, turn.count);
    }
    Ok(schedule)
}

/// Whether a process whose own ending is this one ended so.
fn is_end(end: End, own: Option<End>) -> bool
    ensures { IsTrue result ↔ EndsLike end own }
{
    match own {
        Some(own) => own == end,
        None => is_kill(end),
    }
}

/// Whether the machine ended it.
fn is_kill(end: End) -> bool
    ensures { IsTrue result ↔ IsKill end }
{
    match end {
        End::Killed(_) => true,
        End::Exited(_) | End::Trapped { .. } => false,
    }
}
