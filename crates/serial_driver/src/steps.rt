//! A run up to so many steps of a process.

ghost use Rattle.std.specs.Prelude.{◌≡◌, ◌*◌, ℕ, map, max, List, length, None, false};
ghost use Rattle.elf_image.specs.Start.{Start};
ghost use Rattle.flat_machine.specs.Schedule.{written_out};
ghost use Rattle.machine_core.specs.Applying.{LeadsTo};
ghost use Rattle.machine_core.specs.Opening.{MachineBegins};
ghost use Rattle.machine_sides.specs.FlatLines.{HaveLines};
ghost use Rattle.machine_sides.specs.Reporting.{come_to};
ghost use Rattle.serial_driver.specs.Owing.{no_duty};
ghost use Rattle.serial_driver.specs.Patience.{IsPatient, tries_per_frame};
ghost use Rattle.serial_driver.specs.StepsLimit.{EndsStuck, GoesOn, PlaysSome, PlaysToSteps};
ghost use Rattle.serial_driver.specs.StepsLimit.{limited_at, steps_at};
ghost use Rattle.serial_driver.specs.TurnsDuty.{duty_of};

use crate::patience::Patience;
use crate::serial::{act, what_is_next};
use crate::turns::Turns;
use clock_policy::Clock;
use flat_machine::{KillCause, Schedule};
use machine_core::{Core, Event};
use std::sync::ledger::Ledger;
use swap_slots::SwapSlot;

/// Plays a machine until a process has done so many steps, or each process has ended. A slice is so many instructions of a hart (or
/// one, for none). What the machine has come to is left in it: no process is ended for the limit, and none is purged that goes on.
/// It takes no memory but for the processes that run.
pub fn play_steps<L: Ledger, S: SwapSlot, C: Clock>(
    core: &mut Core<L, S, C>,
    slice: u32,
    process: u32,
    limit: u64,
)
    ensures plays { PlaysToSteps S.content S.honest S.failures
        (max slice 1) process limit core.old core.new }
    ensures unlimited { (number : ℕ) → limited_at number core.old ≡ false →
        limited_at number core.new ≡ false }
    ensures reached { LeadsTo S.content S.honest S.failures core.old core.new }

    // Where the machine has just begun, each process represents a flat run of the image and the input that it was given.
    ensures flat { (frames : ℕ) → (free : List S) → (starts : List Start) →
        MachineBegins frames free starts core.old → S.honest →
        HaveLines starts (map come_to core.new.processes) }
{
    let mut turns = Turns::new(slice);
    let mut patience = Patience::new(core.size());
    let stuck = is_stuck(core, &mut turns, &mut patience, process, limit);
    end_stuck(core, stuck, process);
    core.faithful();
}

/// Ends a process that is stuck, for want of a place for its pages.
fn end_stuck<L: Ledger, S: SwapSlot, C: Clock>(core: &mut Core<L, S, C>, stuck: bool, process: u32)
    ensures { EndsStuck S.content S.honest S.failures stuck process core.old core.new }
{
    if stuck {
        core.apply(Event::Kill {
            process,
            cause: KillCause::NoSwap,
        });
    }
}

/// Plays a machine until a process has done so many steps, or each process has ended, or it is stuck: so often in a row as many events as
/// it had steps to do brought no step of it.
fn is_stuck<L: Ledger, S: SwapSlot, C: Clock>(
    core: &mut Core<L, S, C>,
    turns: &mut Turns,
    patience: &mut Patience,
    process: u32,
    limit: u64,
) -> bool
    requires patient { IsPatient (tries_per_frame * core.old.pager.pager.size) (λ _.
        0) patience.old }
    requires spent { patience.old.spent ≡ None }
    requires free { duty_of turns.old ≡ no_duty turns.old.slice }
    ensures { PlaysSome S.content S.honest S.failures turns.old.slice process limit result core.old
        core.new }
{
    let mut done = steps_done(core, process);
    let mut idle = u64::MAX;
    'tries: while done < limit {
        if idle == 0 {
            return true;
        }
        if go_on(core, turns, patience, limit - done) {
            return false;
        }
        let now = steps_done(core, process);
        idle = if now > done { u64::MAX } else { idle - 1 };
        done = now;
    }
    false
}

/// Does what comes next until so many events have happened, and returns whether each process has ended before.
fn go_on<L: Ledger, S: SwapSlot, C: Clock>(
    core: &mut Core<L, S, C>,
    turns: &mut Turns,
    patience: &mut Patience,
    most: u64,
) -> bool
    ensures { (bound : ℕ) (tried : ℕ → ℕ) → IsPatient bound tried patience.old →
        GoesOn S.content S.honest S.failures bound tried (duty_of turns.old) patience.old.spent
        most result core.old core.new patience.new (duty_of turns.new) }
{
    let mut left = most;
    'events: while left > 0 {
        let Some(next) = what_is_next(core, turns, patience, left) else {
            return true;
        };
        left -= act(core, turns, patience, next);
    }
    false
}

/// How many steps a process did.
fn steps_done<L: Ledger, S: SwapSlot, C: Clock>(core: &Core<L, S, C>, process: u32) -> u64
    ensures { result ≡ steps_at process core.now }
{
    match core.schedule(process) {
        Some(schedule) => steps_of(schedule),
        None => 0,
    }
}

/// How many instructions a schedule has.
#[tactic(auto, using(crate::proofs::Recorded::written_more))]
fn steps_of(schedule: &Schedule) -> u64
    ensures { result ≡ length (written_out schedule.now) }
{
    let mut steps = 0;
    'turns: for turn in schedule.turns() {
        steps += u64::from(turn.count);
    }
    steps
}
