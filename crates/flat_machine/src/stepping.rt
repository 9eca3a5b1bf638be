//! One step of a hart on flat memory, and its refusals; also many plain instructions in a row.

ghost use Rattle.std.specs.Prelude.{◌≡◌, ◌<◌, ◌≤◌, Err, Some, None, true, OnOk, OnErr, IfOk, IfErr, replicate};
ghost use Rattle.rv_exec.specs.Line.{line};
ghost use Rattle.env_calls.specs.Serving.{TakesMemory};
ghost use Rattle.env_calls.specs.Step.{effect};
ghost use Rattle.env_calls.specs.Stepping.{IsEffect, Stays};
ghost use Rattle.flat_machine.specs.Process.{may_step, flat_run, flat_step};
ghost use Rattle.flat_machine.specs.ByTurns.{by_turns, turn_after};
ghost use Rattle.flat_machine.specs.PlainRun.{StopsAs, StopsNext};
ghost use Rattle.flat_machine.specs.Refusals.{RefusesStep, WantsMemory};

use crate::plain_run::run_plainly;
use crate::process::FlatProcess;
use crate::settling::{goes_alike, settle};
use env_calls::{Env, ServeStop, Stepped, finish};
use page_memory::FlatMemory;
use rv_exec::{Outcome, Regs};
use std::alloc::AllocError;
use thiserror::Error;

/// Why a step is not taken, in the order in which it is tested.
#[derive(Clone, Copy, PartialEq, Eq, Debug, Error)]
pub enum StepRefusal {
    #[error("the process has ended")]
    Ended,
    #[error("the process has no such live hart")]
    NoHart,
    #[error("there is no memory for the output or the pages of the process")]
    NoMemory,
}

/// How far a hart came by its instructions.
#[derive(Clone, Copy)]
pub(crate) struct Course {
    /// How many were done.
    pub done: u64,
    /// What the one after them came to, where there were fewer than were allowed: that one is still to be ended.
    pub last: Outcome,
}

impl FlatProcess {
    /// Runs one instruction of a hart. A trap ends the process, and is a step; a refusal changes nothing.
    pub fn step(&mut self, hart: u32) -> Result<(), StepRefusal>
        ensures ok { OnOk result (flat_step hart self.old ≡ Some self.new) }
        ensures refused { IfErr result (λ refusal. RefusesStep refusal hart self.old) }
        ensures err { OnErr result (self.new ≡ self.old) }
    {
        if self.end.is_some() {
            return Err(StepRefusal::Ended);
        }
        if !self.env.is_live(hart) {
            return Err(StepRefusal::NoHart);
        }
        match self.step_live(hart) {
            Ok(_) => Ok(()),
            Err(AllocError) => Err(StepRefusal::NoMemory),
        }
    }

    /// Runs one instruction of a hart that may step, and answers whether the process goes on with the
    /// same harts live. Where there is not enough memory, nothing has changed.
    #[inline]
    pub(crate) fn step_live(&mut self, hart: u32) -> Result<bool, AllocError>
        requires { may_step hart self.old ≡ true }
        ensures ok { OnOk result (flat_step hart self.old ≡ Some self.new) }
        ensures same { IfOk result (λ same. same ≡ true → (self.new.ending ≡ None) ×
            (self.new.environment.live ≡ self.old.environment.live)) }
        ensures wants { OnErr result (WantsMemory hart self.old) }
        ensures err { OnErr result (self.new ≡ self.old) }
    {
        let course = self.step_plainly(hart, 1);
        if course.done == 1 {
            return Ok(true);
        }
        self.end_step(hart, course.last)
    }

    /// Steps a hart that may step, up to so many times, until its next instruction calls or traps, and reports how far that
    /// was. Nothing but its registers and the memory has changed.
    #[inline]
    pub(crate) fn step_plainly(&mut self, hart: u32, most: u64) -> Course
        requires { may_step hart self.old ≡ true }
        ensures none { result.done ≡ 0 → self.new ≡ self.old }
        ensures one { result.done ≡ 1 → flat_step hart self.old ≡ Some self.new }
        ensures alone { turn_after hart self.old ≡ hart → by_turns result.done hart self.old ≡
            Some (hart, self.new) }
        ensures ran { flat_run (replicate result.done hart) self.old ≡ Some self.new }
        ensures stopped { result.done < most → StopsNext hart result.last self.new }
        ensures same { (self.new.ending ≡ None) ×
            (self.new.environment.live ≡ self.old.environment.live) }
        ensures within { result.done ≤ most }
    {
        let regs = &mut self.harts[hart as usize];
        let halt = run_plainly(hart, regs, &mut self.memory, &self.decoded, most);
        Course {
            done: most - halt.left,
            last: halt.last,
        }
    }

    /// The same as `step_live`, once the hart's next instruction came to an outcome: it calls or traps.
    #[cold]
    #[inline(never)]
    pub(crate) fn end_step(&mut self, hart: u32, outcome: Outcome) -> Result<bool, AllocError>
        requires may { may_step hart self.old ≡ true }
        requires stops { StopsNext hart outcome self.old }
        ensures ok { OnOk result (flat_step hart self.old ≡ Some self.new) }
        ensures same { IfOk result (λ same. same ≡ true → (self.new.ending ≡ None) ×
            (self.new.environment.live ≡ self.old.environment.live)) }
        ensures wants { OnErr result (WantsMemory hart self.old) }
        ensures err { OnErr result (self.new ≡ self.old) }
    {
        let regs = &mut self.harts[hart as usize];
        match finish_step(&mut self.env, hart, regs, &mut self.memory, outcome) {
            Ok(stepped) => {
                let pc = regs.pc();
                let alike = goes_alike(&stepped);
                settle(&mut self.harts, &mut self.end, hart, pc, stepped);
                Ok(alike)
            }
            Err(ServeStop::Absent(_)) => unreachable!(),
            Err(ServeStop::NoMemory) => Err(AllocError),
        }
    }
}

/// Does what is left of a hart's step, once its instruction came to an outcome.
fn finish_step(
    env: &mut Env,
    hart: u32,
    regs: &mut Regs,
    memory: &mut FlatMemory,
    outcome: Outcome,
) -> Result<Stepped, ServeStop>
    requires stops { StopsAs outcome (line hart regs.old memory.old) }
    ensures stepped { IfOk result (λ stepped.
        IsEffect (effect hart regs.old env.old memory.old) stepped regs.new env.new memory.new) }
    ensures regs_stay { Stays result (regs.new ≡ regs.old) }
    ensures env_stays { Stays result (env.new ≡ env.old) }
    ensures memory_stays { Stays result (memory.new ≡ memory.old) }
    ensures stop { IfErr result (λ stop. stop ≡ ServeStop.NoMemory) }
    ensures no_memory { result ≡ Err ServeStop.NoMemory →
        TakesMemory env.old (effect hart regs.old env.old memory.old) }
{
    finish(env, hart, regs, memory, outcome)
}
