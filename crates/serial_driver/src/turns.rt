//! Which event comes next.

ghost use Rattle.std.specs.Prelude.{◌≡◌, ◌<◌, ◌≤◌, ◌+◌, ◌-◌, ℕ, max, min, false, IfSome};
ghost use Rattle.std.specs.Prelude.{IfNone, Option, Some, None, is_some};
ghost use Rattle.serial_driver.specs.Endings.{HasEnded};
ghost use Rattle.serial_driver.specs.Nexts.{AreSteps, IsNext, IsNoStep, IsOrdinary, is_step};
ghost use Rattle.serial_driver.specs.Owing.{no_duty, next_owed, owed_save};
ghost use Rattle.serial_driver.specs.Turning.{Turn, Clears, Runs, Waits};
ghost use Rattle.serial_driver.specs.TurnsDuty.{duty_of, phase_of, stage_owes, turn_of};
ghost use Rattle.machine_core.specs.declared.event.Event.TheVariants as machine;

use crate::failure::Failure;
use crate::harts::{HartOf, live_hart_above, next_hart};
use clock_policy::{Clock, Key};
use machine_core::{Core, Event};
use std::sync::ledger::Ledger;
use swap_slots::SwapSlot;

/// What the driver is about to do.
#[derive(Clone, Copy)]
pub(crate) enum Stage {
    /// The next hart gets a slice: the one after this one of the process that had the last turn, if one has had a turn.
    Choose(Option<u32>),
    /// The hart runs its next instruction.
    Run,
    /// The hart's slice is over.
    Rest,
    /// The hart waits for its page.
    Wait,
    /// The live harts of the victim's process, above the last that did, drop their translations; then the victim is collected.
    Clear { victim: Key, last: Option<u32> },
    /// The victim was copied and is saved.
    Save(Key),
    Kill { process: u32, failure: Failure },
    Purge { process: u32 },
}

/// What comes next.
#[derive(Clone, Copy)]
pub(crate) enum Next {
    /// Steps of a hart, up to so many, until one does not go on.
    Steps { process: u32, hart: u32, most: u32 },
    Event(Event),
}

/// Whose turn it is, and at what.
#[derive(Drop)]
pub(crate) struct Turns {
    pub(crate) stage: Stage,
    /// The hart that has the slice, or had the last one.
    pub(crate) running: HartOf,
    /// How many more instructions it may run, or the next one.
    pub(crate) left: u32,
    /// The page that it waits for.
    pub(crate) wanted: u32,
    pub(crate) slice: u32,
    /// Load faults in a row since the last page-in that mapped its page, while one hart waits.
    pub(crate) load_faults: u32,
}

impl Turns {
    /// The start of a machine whose slices are of so many instructions, or of one.
    pub(crate) fn new(slice: u32) -> Self
        ensures { duty_of result ≡ no_duty (max slice 1) }
    {
        let first = HartOf {
            process: 0,
            hart: 0,
        };
        let slice = slice.max(1);
        Turns {
            stage: Stage::Choose(None),
            running: first,
            left: slice,
            wanted: 0,
            slice,
            load_faults: 0,
        }
    }

    /// A hart that runs its next instruction, and no more.
    pub(crate) fn at(running: HartOf) -> Self
        ensures { duty_of result ≡ record {
          faults = 0;
          owed = None;
          turn = record {
            slice = 1;
            process = running.process;
            hart = running.hart;
            left = 1;
            wanted = 0;
            phase = Runs;
          };
        } }
    {
        Turns {
            stage: Stage::Run,
            running,
            left: 1,
            wanted: 0,
            slice: 1,
            load_faults: 0,
        }
    }

    /// What comes next where so many events may happen still, or `None` once each process has ended.
    pub(crate) fn next<L: Ledger, S: SwapSlot, C: Clock>(
        &self,
        core: &Core<L, S, C>,
        allowed: u64,
    ) -> Option<Next>
        requires { 0 < allowed }
        ensures next { (spent : Option ℕ) → next_owed (stage_owes self.now.stage) spent ≡
            stage_owes self.now.stage →
            IfSome result (IsNext S.honest core.now allowed spent (duty_of self.now)) }
        ensures no_step { IfSome result IsNoStep }
        ensures none { IfNone result ((number : ℕ) → HasEnded core.now number) }
        ensures settled { IfNone result (stage_owes self.now.stage ≡ None) }
    {
        let event = match self.stage {
            Stage::Run => return Some(self.steps(self.running, allowed)),
            Stage::Choose(last) => {
                let next = next_hart(core, self.running.process, last)?;
                return Some(self.steps(next, allowed));
            }
            Stage::Rest => notice(self.running),
            Stage::Wait => self.bring(core),
            Stage::Clear { victim, last } => clear(core, victim, last),
            Stage::Save(victim) => Event::Saved(victim),
            Stage::Kill { process, failure } => Event::Kill {
                process,
                cause: failure.cause(),
            },
            Stage::Purge { process } => Event::Purge { process },
        };
        Some(Next::Event(event))
    }

    /// The page that is copied and not yet saved, if there is one.
    pub(crate) fn unsaved(&self) -> Option<Key>
        ensures { result ≡ owed_save (stage_owes self.now.stage) }
    {
        match self.stage {
            Stage::Save(victim) => Some(victim),
            _ => None,
        }
    }

    /// Whether the last reply has settled what comes next: the save of a page, or the end of a process.
    pub(crate) fn is_settled(&self) -> bool
        ensures { result ≡ is_some (stage_owes self.now.stage) }
    {
        matches!(
            self.stage,
            Stage::Save(_) | Stage::Kill { .. } | Stage::Purge { .. }
        )
    }

    /// Steps of a hart, as many as its slice has left and as may happen still.
    fn steps(&self, of: HartOf, allowed: u64) -> Next
        requires { 0 < allowed }
        ensures { AreSteps of.process of.hart allowed self.now.left result }
    {
        let HartOf { process, hart } = of;
        let most = u32::try_from(allowed)
            .unwrap_or(u32::MAX)
            .min(self.left.max(1));
        Next::Steps {
            process,
            hart,
            most,
        }
    }

    /// Brings the page in that the hart waits for, or asks the list for a victim where no frame is free.
    fn bring<L: Ledger, S: SwapSlot, C: Clock>(&self, core: &Core<L, S, C>) -> Event
        ensures ordinary { phase_of self.now.stage ≡ Waits →
            IsOrdinary S.honest core.now (turn_of self.now) result }
        ensures no_step { is_step result ≡ false }
    {
        if core.counts().pager.free > 0 {
            Event::PageIn(Key {
                process: self.running.process,
                vpn: self.wanted,
            })
        } else {
            Event::Sweep
        }
    }
}

/// The next live hart of the victim's process, after the last that did, drops its translations, or the victim is collected.
fn clear<L: Ledger, S: SwapSlot, C: Clock>(
    core: &Core<L, S, C>,
    victim: Key,
    last: Option<u32>,
) -> Event
    ensures ordinary { (turn : Turn) → turn.phase ≡ Clears victim last →
        IsOrdinary S.honest core.now turn result }
    ensures no_step { is_step result ≡ false }
{
    let process = victim.process;
    match live_hart_above(core, process, last) {
        Some(hart) => notice(HartOf { process, hart }),
        None => Event::Collect(victim),
    }
}

fn notice(of: HartOf) -> Event
    ensures { result ≡ machine.Notice of.process of.hart }
{
    let HartOf { process, hart } = of;
    Event::Notice { process, hart }
}
