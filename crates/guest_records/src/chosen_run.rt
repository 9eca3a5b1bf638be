//! Runs a process by chosen turns, and keeps the schedule that it ran.

ghost use Rattle.std.specs.Prelude.{◌≡◌, ◌<◌, ◌≤◌, ◌++◌, IfOk, None, Some, replicate, true};
ghost use Rattle.flat_machine.specs.Process.{flat_run, is_live};
ghost use Rattle.flat_machine.specs.Schedule.{fits, written_out};
ghost use Rattle.guest_records.specs.GoingOn.{GoesOn, StopsFor};

use crate::chosen_turn::{Chooser, ChosenTurn};
use crate::live_harts::count_started;
use crate::waiting::{LoopWatch, is_yield};
use flat_machine::{FlatProcess, KillCause, Schedule, StepRefusal};
use std::alloc::AllocError;

/// How far a process ran, and what stopped it, if it has not ended.
#[derive(Clone, Copy, Debug)]
pub(crate) struct Ran {
    pub(crate) steps: u64,
    pub(crate) cause: KillCause,
}

/// The steps of a turn.
#[derive(Clone, Copy)]
struct Taken {
    done: u32,
    /// Whether the hart goes round a loop that changes nothing.
    is_waiting: bool,
}

impl Taken {
    /// So many steps of a hart that does not wait.
    fn of(done: u32) -> Self
        ensures { result.done ≡ done }
    {
        Taken {
            done,
            is_waiting: false,
        }
    }
}

/// Runs a process by chosen turns until it has ended, so many steps are done, or its schedule takes no more. A run whose next step wants memory is
/// given up: with more memory it comes to something else.
#[tactic(auto, using(crate::proofs::Going::goes_nowhere, crate::proofs::Going::goes_further))]
pub(crate) fn run_chosen(
    process: &mut FlatProcess,
    schedule: &mut Schedule,
    turns: &mut Chooser,
    limit: u64,
) -> Result<Ran, AllocError>
    ensures ran { IfOk result (λ ran. GoesOn schedule.old process.old schedule.new process.new
        ran.steps) }
    ensures within { IfOk result (λ ran. ran.steps ≤ limit) }
    ensures stops { IfOk result (λ ran. process.new.ending ≡ None →
        StopsFor limit ran.steps schedule.new process.new ran.cause) }
{
    let mut steps = 0u64;
    'turns: while steps < limit {
        if process.end().is_some() {
            break;
        }
        let mut turn = turns.choose(process, steps);
        if !schedule.fits(turn.hart) {
            return Ok(Ran {
                steps,
                cause: KillCause::ScheduleFull,
            });
        }
        turn.most = fewer(turn.most, limit - steps);
        let taken = take_turn(process, schedule, turn)?;
        steps += u64::from(taken.done);
        if taken.is_waiting {
            turns.put_back(turn.hart, steps);
        }
    }
    Ok(Ran {
        steps,
        cause: KillCause::Limit,
    })
}

/// Runs a hart's turn, as long as it steps and its schedule takes it.
fn take_turn(
    process: &mut FlatProcess,
    schedule: &mut Schedule,
    turn: ChosenTurn,
) -> Result<Taken, AllocError>
    requires live { is_live turn.hart process.old ≡ true }
    requires unended { process.old.ending ≡ None }
    requires fits { fits schedule.old turn.hart ≡ true }
    requires some { 0 < turn.most }
    ensures ran { IfOk result (λ taken. flat_run (replicate taken.done turn.hart) process.old ≡
        Some process.new) }
    ensures recorded { IfOk result (λ taken. written_out schedule.new ≡ written_out schedule.old ++
        replicate taken.done turn.hart) }
    ensures within { IfOk result (λ taken. taken.done ≤ turn.most) }
    ensures some { IfOk result (λ taken. 0 < taken.done) }
{
    let most = fewer(turn.most, schedule.room(turn.hart));
    let taken = step_turn(process, turn.hart, most, turn.is_cut)?;
    schedule.record(turn.hart, taken.done);
    Ok(taken)
}

/// Steps a hart so many times at most, as long as it steps, or its turn is not cut.
fn step_turn(
    process: &mut FlatProcess,
    hart: u32,
    most: u32,
    is_cut: bool,
) -> Result<Taken, AllocError>
    requires live { is_live hart process.old ≡ true }
    requires unended { process.old.ending ≡ None }
    requires some { 0 < most }
    ensures ran { IfOk result (λ taken. flat_run (replicate taken.done hart) process.old ≡
        Some process.new) }
    ensures within { IfOk result (λ taken. taken.done ≤ most) }
    ensures some { IfOk result (λ taken. 0 < taken.done) }
{
    if is_cut {
        repeat_to_call(process, hart, most)
    } else {
        repeat(process, hart, most)
    }
}

/// Steps a hart so many times at most, as long as it steps, up to where it is to yield again, has started a hart, or goes round a loop that
/// changes nothing.
#[tactic(auto, using(flat_machine::proofs::RunLaws::one_more_step, flat_machine::proofs::RunLaws::flat_run_none))]
fn repeat_to_call(process: &mut FlatProcess, hart: u32, most: u32) -> Result<Taken, AllocError>
    requires live { is_live hart process.old ≡ true }
    requires unended { process.old.ending ≡ None }
    requires some { 0 < most }
    ensures ran { IfOk result (λ taken. flat_run (replicate taken.done hart) process.old ≡
        Some process.new) }
    ensures within { IfOk result (λ taken. taken.done ≤ most) }
    ensures some { IfOk result (λ taken. 0 < taken.done) }
{
    let next = count_started(process);
    let mut watch = LoopWatch::new();
    for done in 0..most {
        if done > 0 && is_call_reached(process, hart, next) {
            return Ok(Taken::of(done));
        }
        if watch.is_round(process, hart, done) && done > 0 {
            return Ok(Taken {
                done,
                is_waiting: true,
            });
        }
        match process.step(hart) {
            Ok(()) => {}
            Err(StepRefusal::NoMemory) => return Err(AllocError),
            Err(StepRefusal::Ended | StepRefusal::NoHart) => return Ok(Taken::of(done)),
        }
    }
    Ok(Taken::of(most))
}

/// Whether a hart is to yield, or another one was started.
fn is_call_reached(process: &mut FlatProcess, hart: u32, next: u32) -> bool
    ensures same { process.new ≡ process.old }
{
    process.regs(next).is_some() || is_yield(process, hart)
}

/// Steps a hart so many times at most, as long as it steps.
#[tactic(auto, using(flat_machine::proofs::RunLaws::one_more_step, flat_machine::proofs::RunLaws::flat_run_none))]
fn repeat(process: &mut FlatProcess, hart: u32, most: u32) -> Result<Taken, AllocError>
    requires live { is_live hart process.old ≡ true }
    requires unended { process.old.ending ≡ None }
    requires some { 0 < most }
    ensures ran { IfOk result (λ taken. flat_run (replicate taken.done hart) process.old ≡
        Some process.new) }
    ensures within { IfOk result (λ taken. taken.done ≤ most) }
    ensures some { IfOk result (λ taken. 0 < taken.done) }
{
    for done in 0..most {
        match process.step(hart) {
            Ok(()) => {}
            Err(StepRefusal::NoMemory) => return Err(AllocError),
            Err(StepRefusal::Ended | StepRefusal::NoHart) => return Ok(Taken::of(done)),
        }
    }
    Ok(Taken::of(most))
}

/// The lesser of two numbers.
fn fewer(most: u32, left: u64) -> u32
    ensures few { result ≤ most }
    ensures within { result ≤ left }
    ensures some { 0 < most → 0 < left → 0 < result }
{
    if u64::from(most) <= left {
        most
    } else {
        left as u32
    }
}
