//! Plays a machine on one thread until each process has ended, or up to a limit of events.

ghost use Rattle.std.specs.Prelude.{◌≡◌, ◌<◌, ◌≤◌, ◌*◌, ℕ, map, max, List, false, None, IfNone};
ghost use Rattle.std.specs.Prelude.{IfSome};
ghost use Rattle.machine_core.specs.Applying.{LeadsTo};
ghost use Rattle.machine_core.specs.declared.event.Event.TheVariants.{Step};
ghost use Rattle.serial_driver.specs.Closing.{is_limit_kill};
ghost use Rattle.machine_core.specs.Opening.{MachineBegins};
ghost use Rattle.elf_image.specs.Start.{Start};
ghost use Rattle.serial_driver.specs.Endings.{HasEnded};
ghost use Rattle.machine_sides.specs.FlatLines.{HaveLines};
ghost use Rattle.machine_sides.specs.Reporting.{come_to};
ghost use Rattle.serial_driver.specs.Limit.{Closes, DoesSave, EndsByLimit, EndsOne, PlaysUpTo};
ghost use Rattle.serial_driver.specs.Limit.{PlaysWith};
ghost use Rattle.serial_driver.specs.Nexts.{IsNext, IsNoStep, MayCome, most_events};
ghost use Rattle.serial_driver.specs.Owing.{next_owed, no_duty, Pays};
ghost use Rattle.serial_driver.specs.Turning.{IsInTurn};
ghost use Rattle.serial_driver.specs.TurnsDuty.{duty_of, stage_owes, turn_of};
ghost use Rattle.serial_driver.specs.Patience.{IsPatient, tries_per_frame, try_of};

use crate::harts::is_running;
use crate::patience::Patience;
use crate::turns::{Next, Turns};
use clock_policy::{Clock, Key};
use flat_machine::KillCause;
use machine_core::{Core, Event};
use std::sync::ledger::Ledger;
use swap_slots::SwapSlot;

/// Plays a machine until each process has ended, or so many events have happened. A slice is so many instructions of a hart (or
/// one, for none). What the machine has come to is left in it. It takes no memory but for the processes that run.
///
/// Where the limit ends the run, a save that is out is done, and then each process that goes on is killed; for the limit
/// none is killed before. Each process that ended is purged before anything else happens.
pub fn play<L: Ledger, S: SwapSlot, C: Clock>(core: &mut Core<L, S, C>, slice: u32, limit: u64)
    ensures reached { LeadsTo S.content S.honest S.failures core.old core.new }
    ensures limited { EndsByLimit S.content S.honest S.failures
        (max slice 1) limit core.old core.new }
    ensures ended { (number : ℕ) → HasEnded core.new number }

    // Of a machine that has just begun, each process shows a flat run of the image and the input that it was given.
    ensures flat { (frames : ℕ) → (free : List S) → (starts : List Start) →
        MachineBegins frames free starts core.old → S.honest →
        HaveLines starts (map come_to core.new.processes) }
{
    core.faithful();
    let mut turns = Turns::new(slice);
    let mut patience = Patience::new(core.size());
    let unsaved = play_events(core, &mut turns, &mut patience, limit);
    save(core, unsaved);
    end_all(core);
    core.faithful();
}

/// Plays a machine until each process has ended, or so many events have happened. Answers the page whose save is out then.
fn play_events<L: Ledger, S: SwapSlot, C: Clock>(
    core: &mut Core<L, S, C>,
    turns: &mut Turns,
    patience: &mut Patience,
    limit: u64,
) -> Option<Key>
    requires patient { IsPatient (tries_per_frame * core.old.pager.pager.size) (λ _.
        0) patience.old }
    requires spent { patience.old.spent ≡ None }
    requires free { duty_of turns.old ≡ no_duty turns.old.slice }
    ensures { PlaysUpTo S.content S.honest S.failures turns.old.slice limit result core.old
        core.new }
{
    let mut left = limit;
    'turns: while left > 0 {
        let Some(next) = what_is_next(core, turns, patience, left) else {
            return None;
        };
        left -= act(core, turns, patience, next);
    }
    turns.unsaved()
}

/// What comes next where so many events may happen still, or `None` once each process has ended. A process whose pages were
/// tried for too often is ended, once what the last reply has settled is done.
pub(crate) fn what_is_next<L: Ledger, S: SwapSlot, C: Clock>(
    core: &Core<L, S, C>,
    turns: &Turns,
    patience: &Patience,
    allowed: u64,
) -> Option<Next>
    requires { 0 < allowed }
    ensures next { IfSome result (IsNext S.honest core.now allowed patience.now.spent
        (duty_of turns.now)) }
    ensures no_step { IfSome result IsNoStep }
    ensures none { IfNone result ((number : ℕ) → HasEnded core.now number) }
    ensures settled { IfNone result (stage_owes turns.now.stage ≡ None) }
{
    if turns.is_settled() {
        return turns.next(core, allowed);
    }
    let Some(process) = patience.spent() else {
        return turns.next(core, allowed);
    };
    Some(Next::Event(Event::Kill {
        process,
        cause: KillCause::NoSwap,
    }))
}

/// Does what comes next, and answers how many events that was.
pub(crate) fn act<L: Ledger, S: SwapSlot, C: Clock>(
    core: &mut Core<L, S, C>,
    turns: &mut Turns,
    patience: &mut Patience,
    next: Next,
) -> u64
    requires some { 0 < most_events next }
    requires may_come { MayCome S.honest core.old patience.old.spent (duty_of turns.old) next }
    ensures plays { (most : ℕ) (tried : ℕ → ℕ) → IsPatient most tried patience.old →
        PlaysWith S.content S.honest S.failures most tried (duty_of turns.old) patience.old.spent
        result core.old core.new patience.new (duty_of turns.new) }
    ensures some { 0 < result }
    ensures within { result ≤ most_events next }
{
    match next {
        Next::Event(event) => apply(core, turns, patience, event),
        Next::Steps {
            process,
            hart,
            most,
        } => run(core, turns, patience, process, hart, most),
    }
}

/// Applies an event.
fn apply<L: Ledger, S: SwapSlot, C: Clock>(
    core: &mut Core<L, S, C>,
    turns: &mut Turns,
    patience: &mut Patience,
    event: Event,
) -> u64
    requires unlimited { is_limit_kill event ≡ false }
    requires pays { Pays (next_owed (stage_owes turns.old.stage) patience.old.spent) event }
    requires in_turn { IsInTurn S.honest core.old (turn_of turns.old) event }
    ensures plays { (most : ℕ) (tried : ℕ → ℕ) → IsPatient most tried patience.old →
        PlaysWith S.content S.honest S.failures most tried (duty_of turns.old) patience.old.spent 1
        core.old core.new patience.new (duty_of turns.new) }
    ensures one { result ≡ 1 }
{
    let reply = core.apply(event);
    patience.heed(event, reply);
    turns.heed(event, reply);
    1
}

/// Runs steps of a hart, and answers how many events that was.
fn run<L: Ledger, S: SwapSlot, C: Clock>(
    core: &mut Core<L, S, C>,
    turns: &mut Turns,
    patience: &mut Patience,
    process: u32,
    hart: u32,
    most: u32,
) -> u64
    requires some { 0 < most }
    requires pays { Pays (next_owed (stage_owes turns.old.stage) patience.old.spent)
        (Step process hart) }
    requires in_turn { IsInTurn S.honest core.old (turn_of turns.old) (Step process hart) }
    requires few { most ≤ max turns.old.left 1 }
    ensures plays { (bound : ℕ) (tried : ℕ → ℕ) → IsPatient bound tried patience.old →
        PlaysWith S.content S.honest S.failures bound tried (duty_of turns.old) patience.old.spent
        result core.old core.new patience.new (duty_of turns.new) }
    ensures some { 0 < result }
    ensures within { result ≤ most }
{
    let done = core.steps(process, hart, most);
    turns.heed_steps(process, hart, done);
    patience.heed_steps(process, done);
    match done.last {
        Some(_) => u64::from(done.ran) + 1,
        None => u64::from(done.ran),
    }
}

/// Does the save that is out, if there is one.
pub(crate) fn save<L: Ledger, S: SwapSlot, C: Clock>(core: &mut Core<L, S, C>, unsaved: Option<Key>)
    ensures { DoesSave S.content S.honest S.failures unsaved core.old core.new }
{
    let Some(page) = unsaved else {
        return;
    };
    core.apply(Event::Saved(page));
}

/// Ends each process that goes on, and takes back what the processes have.
pub(crate) fn end_all<L: Ledger, S: SwapSlot, C: Clock>(core: &mut Core<L, S, C>)
    ensures closes { Closes S.content S.honest S.failures core.old core.new }
    ensures ended { (number : ℕ) → HasEnded core.new number }
{
    'processes: for process in 0..core.processes() as u32 {
        end(core, process);
        core.apply(Event::Purge { process });
    }
}

/// Ends a process that goes on.
fn end<L: Ledger, S: SwapSlot, C: Clock>(core: &mut Core<L, S, C>, process: u32)
    ensures ends { EndsOne S.content S.honest S.failures process core.old core.new }
    ensures ended { HasEnded core.new process }
    ensures kept { (number : ℕ) → HasEnded core.old number → HasEnded core.new number }
{
    if !is_running(core, process) {
        return;
    }
    core.apply(Event::Kill {
        process,
        cause: KillCause::Limit,
    });
}
