//! The rest of a step after its instruction: an ECALL is served, any other outcome is passed on.

ghost use Rattle.std.specs.Prelude.{◌≡◌, Err, IfOk, OnErr};
ghost use Rattle.rv_exec.specs.Bounds.{Bounds};
ghost use Rattle.env_calls.specs.Serving.{TakesMemory};
ghost use Rattle.env_calls.specs.Finishing.{rest_effect, rest_pages, rest_stores, RestUses};
ghost use Rattle.env_calls.specs.Leaving.{LeavesRest};
ghost use Rattle.env_calls.specs.Stepping.{IsEffect, Stays, served_step};

use crate::env::Env;
use crate::served::{ServeStop, Served};
use crate::serving::serve;
use rv_exec::{Bus, Cause, Outcome, Regs};

/// What became of a hart, and of its process, by one step.
#[derive(Clone, Copy, Debug, PartialEq, Eq)]
pub enum Stepped {
    /// The hart goes on.
    Ran,
    /// The hart goes on, and lets others have their turn.
    Yielded,
    /// The hart goes on, and a new hart with this number and these registers is started.
    Spawned { hart: u32, regs: Regs },
    /// The hart is done; another hart of its process is live.
    HartDone,
    /// The process ends with this exit status.
    Exited(u32),
    /// The instruction traps, with its cause and trap value, and the process ends. Nothing else has changed.
    Trapped(Cause, u32),
}

/// Ends the step of a hart whose instruction came to an outcome: serves the call that it makes, and does nothing more of
/// any other.
///
/// # Errors
///
/// `Absent`, with its number, where a page that the call uses has to be brought in first, or where the instruction's own
/// outcome is that; `NoMemory` where the output or the mapped pages could not grow. Nothing has changed since the instruction.
#[cold]
#[inline(never)]
pub fn finish<B: Bus>(
    env: &mut Env,
    hart: u32,
    regs: &mut Regs,
    bus: &mut B,
    outcome: Outcome,
) -> Result<Stepped, ServeStop>
    ensures stepped { let effect = rest_effect outcome hart regs.old env.old (B.memory bus.old) in
        IfOk result (λ stepped. IsEffect effect stepped regs.new env.new (B.memory bus.new)) }
    ensures regs_stay { Stays result (regs.new ≡ regs.old) }
    ensures env_stays { Stays result (env.new ≡ env.old) }
    ensures memory_stays { Stays result (B.memory bus.new ≡ B.memory bus.old) }

    // The call's pages, as `serve` answers of them; with no call the outcome says what the answer is.
    ensures pages { RestUses (B.has bus.old) (B.marks bus.new) (B.lacks bus.old) outcome regs.old
        (B.memory bus.old) result }
    ensures bound { let memory = B.memory bus.old in
        Bounds (B.within bus.old) (B.within bus.new) (rest_pages outcome regs.old memory)
        (rest_stores outcome regs.old memory) }

    // Each page that the call stores to takes stores; or the absent one was not at hand when its access came.
    ensures leaves { LeavesRest (B.takes bus.new) (B.misses bus.old) outcome regs.old
        (B.memory bus.old) result }

    // Only output and new pages take memory.
    ensures no_memory { result ≡ Err ServeStop.NoMemory →
        TakesMemory env.old (rest_effect outcome hart regs.old env.old (B.memory bus.old)) }
    ensures kept { B.keeps bus.old bus.new }
{
    match outcome {
        Outcome::Done => Ok(Stepped::Ran),
        Outcome::Ecall => match serve(env, hart, regs, bus) {
            Ok(served) => Ok(step_of(served)),
            Err(stop) => Err(stop),
        },
        Outcome::Trap(cause, value) => Ok(Stepped::Trapped(cause, value)),
        Outcome::Absent(page) => Err(ServeStop::Absent(page)),
    }
}

/// A step whose call was served.
#[inline]
fn step_of(served: Served) -> Stepped
    ensures { result ≡ served_step served }
{
    match served {
        Served::Continue => Stepped::Ran,
        Served::Yield => Stepped::Yielded,
        Served::HartDone => Stepped::HartDone,
        Served::Ended(status) => Stepped::Exited(status),
        Served::Spawned { hart, regs } => Stepped::Spawned { hart, regs },
    }
}
