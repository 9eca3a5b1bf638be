//! Steps of a debugger on flat memory, given as steps of a path.

ghost use Rattle.std.specs.Prelude.{◌≡◌, ◌≤◌, ◌∷◌, [], Some, IfOk, OnErr, OnOk};
ghost use Rattle.debug_core.specs.Debugging.{first_moment, lone_moment, turn_left};
ghost use Rattle.debug_core.specs.Stops.{last_hart, Stops};
ghost use Rattle.guest_history.specs.Going.{lacks, shows};
ghost use Rattle.guest_history.specs.Histories.{place_of};
ghost use Rattle.guest_history.specs.Runs.{Ran};
ghost use Rattle.run_paths.specs.Paths.{along, step_of};
ghost use Rattle.run_paths.specs.declared.path.Whose.TheVariants as whose;

use debug_core::{DebugRefusal, DebugStep, Debugger, Why};
use flat_machine::FlatProcess;
use run_paths::{RunFault, Whose};
use std::alloc::AllocError;

/// How a run came to its end: why, after how many steps, and the hart of the last one.
#[derive(Clone, Copy, Debug, PartialEq, Eq)]
pub(crate) struct Run {
    pub(crate) why: Why,
    pub(crate) steps: u64,
    pub(crate) last: u32,
}

/// Takes such steps until there is a reason to stop.
pub(crate) fn run_on(
    debugger: &mut Debugger<FlatProcess>,
    whose: Whose,
    limit: u64,
) -> Result<Run, RunFault>
    ensures moved { IfOk result (λ run. along (record { whose = whose; count = run.steps } ∷ [])
        run.steps (place_of debugger.old) ≡ Some (place_of debugger.new)) }
    ensures ran { IfOk result (λ run. Ran whose limit debugger.old run debugger.new) }
{
    match whose {
        Whose::ByTurns => {
            let (why, steps, last) = go_by_turns(debugger, limit)?;
            Ok(Run { why, steps, last })
        }
        Whose::Hart(hart) => {
            let (why, steps) = go_alone(debugger, hart, limit)?;
            Ok(Run {
                why,
                steps,
                last: hart,
            })
        }
    }
}

/// Steps the harts by turns, until there is a reason to stop. Reports the reason, how many steps were done, and the hart of the last one.
#[tactic(auto, using(crate::proofs::MovesOn::moved_by_turns, crate::proofs::MovesOn::within_limit))]
fn go_by_turns(
    debugger: &mut Debugger<FlatProcess>,
    limit: u64,
) -> Result<(Why, u64, u32), RunFault>
    ensures moved { IfOk result (λ stop. along (record { whose = whose.ByTurns; count = stop.1 } ∷ [])
        stop.1 (place_of debugger.old) ≡ Some (place_of debugger.new)) }
    ensures within { IfOk result (λ stop. stop.1 ≤ limit) }
    ensures points { debugger.new.points ≡ debugger.old.points }
    ensures stops { IfOk result (λ stop. Stops shows lacks debugger.old.target debugger.old.points
        limit stop.0 stop.1 (first_moment debugger.old.target debugger.old.turn) debugger.new.turn
        debugger.new.target) }
    ensures last { IfOk result (λ stop. last_hart stop.1
        (first_moment debugger.old.target debugger.old.turn) ≡ Some stop.2) }
{
    match debugger.go(limit) {
        Ok(stop) => Ok(stop),
        Err(AllocError) => Err(RunFault::NoMemory),
    }
}

/// Steps a hart that is live, until there is a reason to stop. Reports the reason, and how many steps were done.
#[tactic(auto, using(crate::proofs::MovesOn::moved_alone, crate::proofs::MovesOn::within_limit))]
fn go_alone(
    debugger: &mut Debugger<FlatProcess>,
    hart: u32,
    limit: u64,
) -> Result<(Why, u64), RunFault>
    ensures moved { IfOk result (λ stop. along (record { whose = whose.Hart hart; count = stop.1 } ∷ [])
        stop.1 (place_of debugger.old) ≡ Some (place_of debugger.new)) }
    ensures within { IfOk result (λ stop. stop.1 ≤ limit) }
    ensures points { debugger.new.points ≡ debugger.old.points }
    ensures stops { IfOk result (λ stop. Stops shows lacks debugger.old.target debugger.old.points
        limit stop.0 stop.1 (lone_moment debugger.old.target hart) hart debugger.new.target) }
    ensures turn { IfOk result (λ stop. debugger.new.turn ≡ turn_left stop.1 hart debugger.old.turn
        debugger.new.target) }
{
    match debugger.go_hart(hart, limit) {
        Ok(stop) => Ok(stop),
        Err(DebugRefusal::NoMemory) => Err(RunFault::NoMemory),
        Err(_) => Err(RunFault::OtherRun),
    }
}

/// Takes a step of a hart; or says why it is refused.
pub(crate) fn step_once(debugger: &mut Debugger<FlatProcess>, hart: u32) -> Result<(), DebugRefusal>
    ensures stepped { OnOk result (step_of hart (place_of debugger.old) ≡
        Some (place_of debugger.new)) }
    ensures refused { OnErr result (place_of debugger.new ≡ place_of debugger.old) }
    ensures points { debugger.new.points ≡ debugger.old.points }
{
    match debugger.step(hart) {
        Ok(DebugStep::Ran) => Ok(()),
        // It can't be: flat memory has all its pages.
        Ok(DebugStep::Absent) => Err(DebugRefusal::NoMemory),
        Err(refusal) => Err(refusal),
    }
}
