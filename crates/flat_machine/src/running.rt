//! Runs a process on flat memory by a schedule, up to the first step that is refused.

ghost use Rattle.std.specs.Prelude.{◌≡◌, ◌<◌, ◌≤◌, Some, IfErr, OnOk, replicate};
ghost use Rattle.flat_machine.specs.Process.{flat_run};
ghost use Rattle.flat_machine.specs.Refusals.{RefusesStep, StopsAt};
ghost use Rattle.flat_machine.specs.Schedule.{written_out};

use crate::process::FlatProcess;
use crate::schedule::Schedule;
use crate::stepping::StepRefusal;
use std::alloc::AllocError;

impl FlatProcess {
    /// Runs a schedule. It stops at the first step that is refused, and reports how many were done: those
    /// remain.
    pub fn run(&mut self, schedule: &Schedule) -> Result<(), (StepRefusal, u64)>
        ensures ok { OnOk result (flat_run (written_out schedule.now) self.old ≡ Some self.new) }
        ensures refused { IfErr result (λ stop.
            StopsAt (written_out schedule.now) self.old stop.0 stop.1 self.new) }
    {
        let mut before: u64 = 0;
        for turn in schedule.turns() {
            if let Err((refusal, done)) = self.repeat(turn.hart, turn.count) {
                return Err((refusal, before + u64::from(done)));
            }
            before += u64::from(turn.count);
        }
        Ok(())
    }

    /// Steps one hart so many times.
    fn repeat(&mut self, hart: u32, count: u32) -> Result<(), (StepRefusal, u32)>
        ensures ok { OnOk result (flat_run (replicate count hart) self.old ≡ Some self.new) }
        ensures refused { IfErr result (λ stop. (stop.1 < count) ×
            (flat_run (replicate stop.1 hart) self.old ≡ Some self.new) ×
            RefusesStep stop.0 hart self.new) }
    {
        let mut done: u32 = 0;
        while done < count {
            if self.end.is_some() {
                return Err((StepRefusal::Ended, done));
            }
            if !self.env.is_live(hart) {
                return Err((StepRefusal::NoHart, done));
            }
            let course = self.step_plainly(hart, u64::from(count - done));
            done += course.done as u32;
            if done == count {
                return Ok(());
            }
            match self.end_step(hart, course.last) {
                Ok(_) => done += 1,
                Err(AllocError) => return Err((StepRefusal::NoMemory, done)),
            }
        }
        Ok(())
    }
}
