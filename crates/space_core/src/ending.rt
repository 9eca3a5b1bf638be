//! How an instruction ends that was not simply done: one that calls, traps or uses a page that is absent.

ghost use Rattle.std.specs.Prelude.{◌≡◌, ℕ, ◌≤◌, ◌<◌, true, length};
ghost use Rattle.env_calls.specs.Finishing.{IsRest};
ghost use Rattle.env_calls.specs.Leaving.{LeavesRest};
ghost use Rattle.flat_machine.specs.Process.{may_step};
ghost use Rattle.paged_memory.specs.access.HartMemory.{KeepsAccess, UsedSince};
ghost use Rattle.paged_memory.specs.access.Missing.{MissesIn, TakesSince};
ghost use Rattle.paged_memory.specs.Paged.{memory_of};
ghost use Rattle.paged_memory.specs.access.Using.{cache_in, HasIn, LacksIn, MarkedIn};
ghost use Rattle.paged_memory.specs.Whole.{harts_in};
ghost use Rattle.space_core.specs.Endings.{EndsOne, EndsStep, LeftBy};
ghost use Rattle.space_core.specs.RunningValue.{with_memory};

use crate::progress::{Progress, Slice, stop_before};
use crate::running::Running;
use env_calls::{Env, ServeStop, Stepped, finish};
use flat_machine::settle;
use paged_memory::{HartMemory, Opening, PagedMemory};
use rv_exec::{Outcome, Regs};
use std::marker::Brand;
use std::sync::ledger::Ledger;
use swap_slots::SwapSlot;

/// Does what is left of a hart's step, once its instruction came to an outcome, on its process's memory.
#[tactic(auto, using(paged_memory::proofs::access_laws::ToldLaws::kept_told))]
fn finish_on<L: Ledger, S: SwapSlot, O: Opening>(
    env: &mut Env,
    hart: u32,
    regs: &mut Regs,
    memory: &mut PagedMemory<L, S>,
    outcome: Outcome,
) -> Result<Stepped, ServeStop>
    requires started { hart < harts_in memory.old }
    requires opening { cache_in memory.old hart ≡ O.opening }
    ensures rest { IsRest (HasIn memory.old hart) (UsedSince hart memory.new
        (cache_in memory.old hart)) (LacksIn memory.old) (MarkedIn memory.old)
        (MarkedIn memory.new)
        hart outcome regs.old env.old (memory_of S.content memory.old) result regs.new env.new
        (memory_of S.content memory.new) }
    ensures leaves { LeavesRest (TakesSince memory.new (cache_in memory.old hart))
        (MissesIn memory.old hart) outcome regs.old (memory_of S.content memory.old) result }
    ensures kept { KeepsAccess hart memory.old memory.new }
{
    let mut bus: HartMemory<L, S, O> = HartMemory::new(memory, hart as usize);
    finish(env, hart, regs, &mut bus, outcome)
}

impl Running {
    /// Ends the step of a hart that may step, once its instruction came to an outcome. A trap ends the process, and is a step.
    ///
    /// # Errors
    ///
    /// `Absent`, with its number, where a page that the step uses has to be brought in first; `NoMemory` where
    /// the output or the mapped pages could not grow. Nothing has changed.
    fn end_step<L: Ledger, S: SwapSlot>(
        &mut self,
        hart: u32,
        memory: &mut PagedMemory<L, S>,
        outcome: Outcome,
    ) -> Result<Progress, ServeStop>
        requires may { may_step hart (with_memory self.old (memory_of S.content memory.old)) ≡
            true }
        requires cached { harts_in memory.old ≡ length self.old.harts }
        requires left { LeftBy S.content S.honest hart outcome self.old memory.old }
        ensures ends { (left : LeftBy S.content S.honest hart outcome self.old memory.old) →
            EndsStep S.content S.honest hart result self.old left.before self.new memory.new }
    {
        let regs = &mut self.harts[hart as usize];
        match finish_on::<L, S, Brand>(&mut self.env, hart, regs, memory, outcome) {
            Ok(stepped) => {
                let pc = regs.pc();
                let progress = Progress::of_step(&stepped);
                settle(&mut self.harts, &mut self.end, hart, pc, stepped);
                Ok(progress)
            }
            Err(stop) => Err(stop),
        }
    }

    /// The same, as a slice of that one instruction.
    #[cold]
    #[inline(never)]
    pub(crate) fn end_slice<L: Ledger, S: SwapSlot>(
        &mut self,
        hart: u32,
        memory: &mut PagedMemory<L, S>,
        outcome: Outcome,
    ) -> Slice
        requires may { may_step hart (with_memory self.old (memory_of S.content memory.old)) ≡
            true }
        requires cached { harts_in memory.old ≡ length self.old.harts }
        requires left { LeftBy S.content S.honest hart outcome self.old memory.old }
        ensures within { result.ran ≤ 1 }
        ensures ends { (left : LeftBy S.content S.honest hart outcome self.old memory.old) →
            (fits : ℕ) → 0 < fits → EndsOne S.content S.honest hart fits result.ran result.stop
            self.old left.before self.new memory.new }
    {
        match self.end_step(hart, memory, outcome) {
            Ok(progress) => Slice {
                ran: 1,
                stop: progress.stop(),
            },
            Err(stop) => Slice {
                ran: 0,
                stop: stop_before(stop),
            },
        }
    }
}
