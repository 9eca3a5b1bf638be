//! Steps by turns, one after another.

ghost use Rattle.std.specs.Prelude.{◌≡◌, ◌≤◌, ◌⊎◌, true, IfOk, IfSome, IsSome, None, OnErr};
ghost use Rattle.flat_machine.specs.ByTurns.{first_turn};
ghost use Rattle.flat_machine.specs.Process.{is_live};
ghost use Rattle.flat_machine.specs.Refusals.{WantsMemory};

use crate::step::step;
use crate::told_step::ToldStep;
use flat_machine::{FlatProcess, StepRefusal};
use std::alloc::AllocError;

/// A process and whose turn it is: after a step of a hart it is that of the least live hart above it, else of the least live one.
#[derive(Drop)]
pub struct StepString {
    process: FlatProcess,
    turn: u32,
    /// How many steps were done.
    done: u64,
    /// How many may be done.
    limit: u64,
    ghost live: { is_live turn process ≡ true },
    ghost within: { done ≤ limit },
}

impl StepString {
    ghost use Rattle.guest_steps.specs.StepsToCome.{Moves};

    /// A process that is to do so many steps at most. At first it is the turn of hart 0, or where that is not live of the least live one.
    pub fn new(process: FlatProcess, limit: u64) -> Self
        ensures process { result.process ≡ process }
        ensures turn { result.turn ≡ first_turn process }
        ensures limit { result.limit ≡ limit }
        ensures none { result.done ≡ 0 }
    {
        let turn = if process.is_live(0) {
            0
        } else {
            process.turn_after(0)
        };
        StepString {
            process,
            turn,
            done: 0,
            limit,
        }
    }

    /// Does the next step, and reports it; `None` where the process has ended or no more steps may be done.
    ///
    /// # Errors
    ///
    /// Want of memory for it; nothing has changed then.
    pub fn next(&mut self) -> Result<Option<ToldStep>, AllocError>
        ensures moves { IfOk result (λ next. IfSome next (λ told. Moves told self.old self.new)) }
        ensures end { IfOk result (λ next. next ≡ None → (self.new ≡ self.old) ×
            ((self.old.done ≡ self.old.limit) ⊎ IsSome self.old.process.ending)) }
        ensures wants { OnErr result (WantsMemory self.old.turn self.old.process) }
        ensures err { OnErr result (self.new ≡ self.old) }
    {
        if self.done == self.limit || self.process.end().is_some() {
            return Ok(None);
        }
        match step(&mut self.process, self.turn) {
            Ok(told) => {
                self.done += 1;
                self.turn = self.process.turn_after(self.turn);
                Ok(Some(told))
            }
            Err(StepRefusal::NoMemory) => Err(AllocError),
            Err(StepRefusal::Ended | StepRefusal::NoHart) => Ok(None),
        }
    }

    /// The process as it is now.
    pub fn process(&self) -> &FlatProcess
        ensures { result.now ≡ self.now.process }
    {
        &self.process
    }

    /// How many steps were done.
    pub fn done(&self) -> u64
        ensures { result ≡ self.now.done }
    {
        self.done
    }
}
