//! A run that goes on one event at a time, for who looks at the machine in between.

ghost use Rattle.std.specs.Prelude.{◌≡◌, ◌<◌, ℕ, max, false, IfNone, IfSome, OnSome};
ghost use Rattle.machine_core.specs.Applying.{Applies};
ghost use Rattle.machine_core.specs.Faithful.{IsFaithful};
ghost use Rattle.machine_core.specs.Machine.{CoreValue};
ghost use Rattle.serial_driver.specs.Endings.{HasEnded};
ghost use Rattle.serial_driver.specs.Limit.{EndsByLimit, PlaysUpTo, PlaysWith};
ghost use Rattle.serial_driver.specs.Nexts.{MayCome};
ghost use Rattle.serial_driver.specs.Owing.{Pays, next_owed};
ghost use Rattle.serial_driver.specs.Patience.{IsPatient};
ghost use Rattle.serial_driver.specs.Turning.{IsInTurn};
ghost use Rattle.serial_driver.specs.TurnsDuty.{duty_of, stage_owes, turn_of};
ghost use Rattle.serial_driver.specs.Closing.{is_limit_kill};
ghost use Rattle.serial_driver.specs.Watched.{HasPlayed, left_of, unsaved_of};

use crate::patience::Patience;
use crate::serial::{end_all, save, what_is_next};
use crate::turns::{Next, Turns};
use clock_policy::Clock;
use machine_core::{Core, Event, Reply};
use std::sync::ledger::Ledger;
use swap_slots::SwapSlot;

/// A run of the driver that returns each event as it happens.
#[derive(Drop)]
pub struct SerialRun {
    turns: Turns,
    patience: Patience,
    left: u64,
}

impl SerialRun {
    /// The start of a run of this machine, in slices of so many instructions (or one, for none) and of so many events at most.
    #[tactic(auto, using(crate::proofs::Watching::played_none))]
    pub fn new<L: Ledger, S: SwapSlot, C: Clock>(
        core: &Core<L, S, C>,
        slice: u32,
        limit: u64,
    ) -> Self
        ensures begins { HasPlayed S.content S.honest S.failures
            (max slice 1) limit core.now core.now result }
    {
        core.faithful();
        SerialRun {
            turns: Turns::new(slice),
            patience: Patience::new(core.size()),
            left: limit,
        }
    }

    /// Applies the event that comes next, and returns it with its reply. It returns `None` once each process has ended, or so many events
    /// have happened. Then the machine is as it was, and [`SerialRun::close`] is left to be done.
    pub fn next<L: Ledger, S: SwapSlot, C: Clock>(
        &mut self,
        core: &mut Core<L, S, C>,
    ) -> Option<(Event, Reply)>
        ensures applies { IfSome result (λ told.
            Applies S.content S.honest S.failures told.0 core.old core.new told.1) }
        ensures none { IfNone result (core.new ≡ core.old) }
        ensures goes_on { OnSome result ((slice limit : ℕ) (first : CoreValue S) →
            HasPlayed S.content S.honest S.failures slice limit first core.old self.old →
            HasPlayed S.content S.honest S.failures slice limit first core.new self.new) }
        ensures over { IfNone result ((slice limit : ℕ) (first : CoreValue S) →
            HasPlayed S.content S.honest S.failures slice limit first core.old self.old →
            PlaysUpTo S.content S.honest S.failures slice limit
            (unsaved_of self.new) first core.new) }
        ensures fewer { OnSome result (left_of self.new < left_of self.old) }
    {
        if self.left == 0 {
            return None;
        }
        let Some(next) = what_is_next(core, &self.turns, &self.patience, 1) else {
            return None;
        };
        let told = act_once(core, &mut self.turns, &mut self.patience, next);
        self.left -= 1;
        Some(told)
    }

    /// Closes a run that is over: the save that is out is done, each process that goes on is killed for the limit, and all are purged.
    pub fn close<L: Ledger, S: SwapSlot, C: Clock>(&self, core: &mut Core<L, S, C>)
        ensures closed { (slice limit : ℕ) (first : CoreValue S) →
            IsFaithful S.content S.honest first →
            PlaysUpTo S.content S.honest S.failures slice limit
            (unsaved_of self.now) first core.old →
            EndsByLimit S.content S.honest S.failures slice limit first core.new }
        ensures ended { (number : ℕ) → HasEnded core.new number }
    {
        let unsaved = self.turns.unsaved();
        save(core, unsaved);
        end_all(core);
    }
}

/// Does what comes next: of steps the first.
fn act_once<L: Ledger, S: SwapSlot, C: Clock>(
    core: &mut Core<L, S, C>,
    turns: &mut Turns,
    patience: &mut Patience,
    next: Next,
) -> (Event, Reply)
    requires may_come { MayCome S.honest core.old patience.old.spent (duty_of turns.old) next }
    ensures applies { Applies S.content S.honest S.failures result.0 core.old core.new result.1 }
    ensures plays { (most : ℕ) (tried : ℕ → ℕ) → IsPatient most tried patience.old →
        PlaysWith S.content S.honest S.failures most tried (duty_of turns.old) patience.old.spent 1
        core.old core.new patience.new (duty_of turns.new) }
{
    match next {
        Next::Event(event) => (event, happen(core, turns, patience, event)),
        Next::Steps { process, hart, .. } => {
            let event = Event::Step { process, hart };
            (event, happen(core, turns, patience, event))
        }
    }
}

/// Applies an event, and heeds the reply.
fn happen<L: Ledger, S: SwapSlot, C: Clock>(
    core: &mut Core<L, S, C>,
    turns: &mut Turns,
    patience: &mut Patience,
    event: Event,
) -> Reply
    requires unlimited { is_limit_kill event ≡ false }
    requires pays { Pays (next_owed (stage_owes turns.old.stage) patience.old.spent) event }
    requires in_turn { IsInTurn S.honest core.old (turn_of turns.old) event }
    ensures applies { Applies S.content S.honest S.failures event core.old core.new result }
    ensures plays { (most : ℕ) (tried : ℕ → ℕ) → IsPatient most tried patience.old →
        PlaysWith S.content S.honest S.failures most tried (duty_of turns.old) patience.old.spent 1
        core.old core.new patience.new (duty_of turns.new) }
{
    let reply = core.apply(event);
    patience.heed(event, reply);
    turns.heed(event, reply);
    reply
}
