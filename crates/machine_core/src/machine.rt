//! The machine: pager, slots, processes, and jobs that are out; its events step, notice, kill and sweep.

ghost use Rattle.std.specs.Prelude.{◌≡◌, ◌⊎◌};
ghost use Rattle.clock_policy.specs.ClockPro.{question_of};
ghost use Rattle.machine_core.specs.MachineRun.{hart_refusal, kill_refusal, sweep_refusal};
ghost use Rattle.machine_core.specs.MachineRun.{RefusesEvent, StepsHart, Notices, Kills};
ghost use Rattle.machine_core.specs.MachineRun.{SweepsOnce};

use crate::core_steps;
use crate::error::EventRefusal;
use crate::event::Reply;
use clock_policy::Clock;
use flat_machine::KillCause;
use machine_sides::PagerSide;
use page_store::{CleanJob, SaveJob};
use space_core::Space;
use std::marker::Model;
use std::sync::ledger::Ledger;
use swap_slots::{SlotPool, SwapSlot};

/// All processes, the frames that they share with the replacement list, the slots, and the saves and the copies that are out.
#[derive(Drop)]
pub struct Core<L: Ledger, S: SwapSlot, C: Clock> {
    pub(crate) pager: PagerSide<L, C>,
    pub(crate) slots: SlotPool<S>,
    pub(crate) processes: Vec<Space<L, S>>,
    pub(crate) jobs: Vec<SaveJob<S>>,
    pub(crate) copies: Vec<CleanJob<S>>,
}

impl<L: Ledger, S: SwapSlot, C: Clock> Model for Core<L, S, C> {
    ghost use Rattle.std.specs.Prelude.{◌≤◌, vec_capacity};
    ghost use Rattle.machine_core.specs.Machine.{CoreValue, IsMachine};

    ghost Value = { CoreValue S };

    ghost view = { λ c. record {
      pager = c.pager;
      slots = c.slots;
      processes = c.processes.items;
      jobs = c.jobs.items;
      copies = c.copies.items;
    } };

    ghost invariant = { λ c. record {
      machine : IsMachine (record {
        pager = c.pager;
        slots = c.slots;
        processes = c.processes.items;
        jobs = c.jobs.items;
        copies = c.copies.items;
      });
      roomy : c.pager.pager.size ≤ vec_capacity c.jobs;
      spacious : c.pager.pager.size ≤ vec_capacity c.copies;
    } };
}

impl<L: Ledger, S: SwapSlot, C: Clock> Core<L, S, C> {
    /// A hart runs one instruction.
    pub(crate) fn step(&mut self, process: u32, hart: u32) -> Reply
        ensures { RefusesEvent (hart_refusal process hart self.old.processes) self.old self.new
            result ⊎ StepsHart S.content S.honest process hart self.old self.new result }
    {
        let refusal = core_steps::hart_refusal(self.processes.as_slice(), process, hart);
        if let Some(refusal) = refusal {
            return Reply::Refused(refusal);
        }
        let stop = core_steps::step(self.processes.as_mut_slice(), process as usize, hart);
        core_steps::step_reply(stop)
    }

    /// A hart drops its translations that are to be dropped.
    pub(crate) fn notice(&mut self, process: u32, hart: u32) -> Reply
        ensures { RefusesEvent (hart_refusal process hart self.old.processes) self.old self.new
            result ⊎ Notices process hart self.old self.new result }
    {
        let refusal = core_steps::hart_refusal(self.processes.as_slice(), process, hart);
        if let Some(refusal) = refusal {
            return Reply::Refused(refusal);
        }
        core_steps::notice(self.processes.as_mut_slice(), process as usize, hart);
        Reply::Noticed
    }

    /// The machine ends a process.
    pub(crate) fn kill(&mut self, process: u32, cause: KillCause) -> Reply
        ensures { RefusesEvent (kill_refusal process self.old.processes) self.old self.new result ⊎
            Kills process cause self.old self.new result }
    {
        let refusal = core_steps::kill_refusal(self.processes.as_slice(), process);
        if let Some(refusal) = refusal {
            return Reply::Refused(refusal);
        }
        core_steps::kill(self.processes.as_mut_slice(), process as usize, cause);
        Reply::Killed
    }

    /// The list asks for a page, and is answered by its accessed bit.
    pub(crate) fn sweep(&mut self) -> Reply
        ensures { RefusesEvent (sweep_refusal (question_of self.old.pager.pager.list)) self.old
            self.new result ⊎ SweepsOnce self.old self.new result }
    {
        let Some(key) = self.pager.question() else {
            return Reply::Refused(EventRefusal::NothingResident);
        };
        let swept = core_steps::sweep_at(
            &mut self.pager,
            self.processes.as_mut_slice(),
            key.process as usize,
        );
        core_steps::swept_reply(swept)
    }
}
