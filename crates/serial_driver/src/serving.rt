//! One instruction of a hart, with the pages that it needs brought in as a run brings them. Nothing that fails ends the process.

ghost use Rattle.std.specs.Prelude.{◌≡◌, ℕ, false, true};
ghost use Rattle.machine_core.specs.Headline.{HappensInvisibly};
ghost use Rattle.machine_core.specs.declared.event.Event.TheVariants.{Step};
ghost use Rattle.serial_driver.specs.Closing.{is_limit_kill};
ghost use Rattle.serial_driver.specs.Nexts.{is_step};
ghost use Rattle.serial_driver.specs.Owing.{Pays, duty_with, is_absent, is_full, next_owed};
ghost use Rattle.serial_driver.specs.Patience.{IsPatient, spent_with, tried_with};
ghost use Rattle.serial_driver.specs.Serving.{is_paging, owes_pages, GivesUp, Goes, IsServing};
ghost use Rattle.serial_driver.specs.Serving.{PlaysHart, Proceeds, Serves};
ghost use Rattle.serial_driver.specs.Turning.{IsInTurn};
ghost use Rattle.serial_driver.specs.TurnsDuty.{duty_of, stage_owes, turn_of};

use crate::harts::HartOf;
use crate::heeding::is_out_of_memory;
use crate::patience::{Patience, has_run, is_served};
use crate::serial::what_is_next;
use crate::turns::{Next, Turns};
use clock_policy::Clock;
use machine_core::{Core, Event, Reply};
use std::sync::ledger::Ledger;
use swap_slots::SwapSlot;

/// What has come of an instruction that was served.
#[derive(Clone, Copy, Debug, PartialEq, Eq)]
pub enum ServedStep {
    /// It ran.
    Ran,
    /// A page that it needs could not be had, or no such hart may step. It did not run.
    Absent,
    /// The schedule takes no further instruction of the hart. It did not run.
    Full,
    /// Memory was refused. It did not run.
    NoMemory,
}

/// More events than one instruction can take.
const MOST_EVENTS: u64 = u64::MAX;

/// Runs one instruction of a hart. The pages that it needs are brought in by the events of a run. Where a run would end the
/// process, the instruction is given up, and the process is as before.
pub fn serve_step<L: Ledger, S: SwapSlot, C: Clock>(
    core: &mut Core<L, S, C>,
    process: u32,
    hart: u32,
) -> ServedStep
    ensures serves { Serves S.content S.honest S.failures process hart result core.old core.new }
    ensures plays { PlaysHart S.content S.honest S.failures process hart core.old core.new }
    ensures given_up { result ≡ ServedStep.Absent →
        GivesUp S.content S.honest S.failures process hart core.old core.new }
{
    let mut turns = Turns::at(HartOf { process, hart });
    let mut patience = Patience::new(core.size());
    let mut left = MOST_EVENTS;
    'events: while left > 0 {
        left -= 1;
        match serve_next(core, &mut turns, &mut patience, process, hart) {
            Some(served) => return served,
            None => {}
        }
    }
    ServedStep::Absent
}

/// Does what comes next for a hart, and returns what has come of its instruction where that is settled.
fn serve_next<L: Ledger, S: SwapSlot, C: Clock>(
    core: &mut Core<L, S, C>,
    turns: &mut Turns,
    patience: &mut Patience,
    process: u32,
    hart: u32,
) -> Option<ServedStep>
    requires serving { IsServing process hart (turn_of turns.old) }
    requires owes { owes_pages (stage_owes turns.old.stage) ≡ true }
    ensures goes { Goes S.content S.honest S.failures process hart result core.old core.new }
    ensures proceeds { (most : ℕ) (tried : ℕ → ℕ) → IsPatient most tried patience.old →
        Proceeds S.content S.honest S.failures process hart result most tried (duty_of turns.old)
        patience.old.spent core.old core.new patience.new (duty_of turns.new) }
{
    match what_is_next(core, turns, patience, 1) {
        None => Some(ServedStep::Absent),
        Some(Next::Steps { .. }) => step(core, turns, patience, process, hart),
        Some(Next::Event(event)) => bring(core, turns, patience, process, hart, event),
    }
}

/// The hart's step.
fn step<L: Ledger, S: SwapSlot, C: Clock>(
    core: &mut Core<L, S, C>,
    turns: &mut Turns,
    patience: &mut Patience,
    process: u32,
    hart: u32,
) -> Option<ServedStep>
    requires pays { Pays (next_owed (stage_owes turns.old.stage) patience.old.spent)
        (Step process hart) }
    requires in_turn { IsInTurn S.honest core.old (turn_of turns.old) (Step process hart) }
    ensures goes { Goes S.content S.honest S.failures process hart result core.old core.new }
    ensures proceeds { (most : ℕ) (tried : ℕ → ℕ) → IsPatient most tried patience.old →
        Proceeds S.content S.honest S.failures process hart result most tried (duty_of turns.old)
        patience.old.spent core.old core.new patience.new (duty_of turns.new) }
{
    let reply = happen(core, turns, patience, Event::Step { process, hart });
    if has_run(reply) {
        return Some(ServedStep::Ran);
    }
    if is_full(reply) {
        return Some(ServedStep::Full);
    }
    if is_out_of_memory(reply) {
        return Some(ServedStep::NoMemory);
    }
    if is_absent(reply) {
        None
    } else {
        Some(ServedStep::Absent)
    }
}

/// An event that brings pages in. Where a run would end the process or purge it, the instruction is given up.
fn bring<L: Ledger, S: SwapSlot, C: Clock>(
    core: &mut Core<L, S, C>,
    turns: &mut Turns,
    patience: &mut Patience,
    process: u32,
    hart: u32,
    event: Event,
) -> Option<ServedStep>
    requires serving { IsServing process hart (turn_of turns.old) }
    requires owes { owes_pages (stage_owes turns.old.stage) ≡ true }
    requires unlimited { is_limit_kill event ≡ false }
    requires no_step { is_step event ≡ false }
    requires pays { Pays (next_owed (stage_owes turns.old.stage) patience.old.spent) event }
    requires in_turn { IsInTurn S.honest core.old (turn_of turns.old) event }
    ensures goes { Goes S.content S.honest S.failures process hart result core.old core.new }
    ensures proceeds { (most : ℕ) (tried : ℕ → ℕ) → IsPatient most tried patience.old →
        Proceeds S.content S.honest S.failures process hart result most tried (duty_of turns.old)
        patience.old.spent core.old core.new patience.new (duty_of turns.new) }
{
    if !is_paging(event) {
        return Some(ServedStep::Absent);
    }
    let reply = happen(core, turns, patience, event);
    if is_out_of_memory(reply) {
        return Some(ServedStep::NoMemory);
    }
    if is_served(reply) {
        None
    } else {
        Some(ServedStep::Absent)
    }
}

/// Applies an event, and heeds the reply.
fn happen<L: Ledger, S: SwapSlot, C: Clock>(
    core: &mut Core<L, S, C>,
    turns: &mut Turns,
    patience: &mut Patience,
    event: Event,
) -> Reply
    ensures happens { HappensInvisibly S.content S.honest S.failures event result core.old core.new }
    ensures tries { (most : ℕ) (tried : ℕ → ℕ) → IsPatient most tried patience.old →
        IsPatient most (λ number. tried_with number event result (tried number)) patience.new }
    ensures spent { (most : ℕ) (tried : ℕ → ℕ) → IsPatient most tried patience.old →
        patience.new.spent ≡ spent_with most tried event result }
    ensures owes { duty_of turns.new ≡ duty_with event result (duty_of turns.old) }
{
    let reply = core.apply(event);
    patience.heed(event, reply);
    turns.heed(event, reply);
    reply
}

/// Whether an event brings pages in, or makes room for them.
fn is_paging(event: Event) -> bool
    ensures { result ≡ is_paging event }
{
    match event {
        Event::Notice { .. } => true,
        Event::Sweep => true,
        Event::Collect(_) => true,
        Event::Saved(_) => true,
        Event::PageIn(_) => true,
        _ => false,
    }
}

/// Whether the schedule takes no further instruction.
fn is_full(reply: Reply) -> bool
    ensures { result ≡ is_full reply }
{
    matches!(reply, Reply::ScheduleFull)
}

/// Whether a page has to be brought in first.
fn is_absent(reply: Reply) -> bool
    ensures { result ≡ is_absent reply }
{
    matches!(reply, Reply::Absent(_))
}
