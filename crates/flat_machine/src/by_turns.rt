//! Runs a process on flat memory by turns of its live harts, up to a number of steps.

ghost use Rattle.std.specs.Prelude.{◌≡◌, ◌<◌, ◌≤◌, ℕ, Some, true, IfSome, IsSome, IfOk, IfErr, OnErr};
ghost use Rattle.env_calls.specs.Environment.{next_live};
ghost use Rattle.flat_machine.specs.Process.{is_live, may_step};
ghost use Rattle.flat_machine.specs.ByTurns.{by_turns, first_turn, turn_after};
ghost use Rattle.flat_machine.specs.Refusals.{WantsAt};

use crate::process::FlatProcess;
use machine_limits::MOST_HARTS;
use std::alloc::AllocError;
use thiserror::Error;

/// There is no memory for the next step of a run by turns; the steps before it remain.
#[derive(Clone, Copy, PartialEq, Eq, Debug, Error)]
#[error("there is no memory for the step after {steps}")]
pub struct OutOfMemory {
    /// How many steps were done.
    pub steps: u64,
}

impl FlatProcess {
    /// Steps the harts by turns until the process has ended or the limit is reached, and reports how many
    /// steps that took. Where there is not enough memory, the earlier steps remain.
    ///
    /// At first it is the turn of hart 0, or where that is not live of the least live one; after a step of
    /// a hart, of the least live one above it, else of the least live one.
    pub fn run_for(&mut self, limit: u64) -> Result<u64, OutOfMemory>
        ensures ran { IfOk result (λ steps. (turn : ℕ) ×
            (by_turns steps (first_turn self.old) self.old ≡ Some (turn, self.new))) }
        ensures within { IfOk result (λ steps. steps ≤ limit) }
        ensures ended { IfOk result (λ steps. steps < limit → IsSome self.new.ending) }
        ensures memory { IfErr result (λ stop. (stop.steps < limit) ×
            ((turn : ℕ) × WantsAt (first_turn self.old) self.old stop.steps turn self.new)) }
    {
        let mut turn = self.first_turn();
        self.run_turns(&mut turn, limit)
    }

    /// Steps the hart whose turn it is, which is live, then the next, until the process has ended or so many steps are done,
    /// and reports how many that was. Where there is not enough memory, the earlier steps remain.
    pub fn run_turns(&mut self, turn: &mut u32, most: u64) -> Result<u64, OutOfMemory>
        requires live { is_live turn.old self.old ≡ true }
        ensures ran { IfOk result (λ steps.
            by_turns steps turn.old self.old ≡ Some (turn.new, self.new)) }
        ensures within { IfOk result (λ steps. steps ≤ most) }
        ensures ended { IfOk result (λ steps. steps < most → IsSome self.new.ending) }
        ensures memory { IfErr result (λ stop. (stop.steps < most) ×
            WantsAt turn.old self.old stop.steps turn.new self.new) }
        ensures live { is_live turn.new self.new ≡ true }
    {
        let mut steps: u64 = 0;
        while steps < most {
            if self.end.is_some() {
                return Ok(steps);
            }
            match self.run_turn(*turn, most - steps) {
                Ok(more) => steps += more,
                Err(stop) => {
                    return Err(OutOfMemory {
                        steps: steps + stop.steps,
                    });
                }
            }
            *turn = self.turn_after(*turn);
        }
        Ok(steps)
    }

    /// Steps a hart that may step: once, or where no other one is live, up to so many times.
    fn run_turn(&mut self, hart: u32, most: u64) -> Result<u64, OutOfMemory>
        requires may { may_step hart self.old ≡ true }
        requires some { 0 < most }
        ensures ran { IfOk result (λ steps. by_turns steps hart self.old ≡
            Some (turn_after hart self.new, self.new)) }
        ensures within { IfOk result (λ steps. (0 < steps) × (steps ≤ most)) }
        ensures memory { IfErr result (λ stop. (stop.steps < most) ×
            WantsAt hart self.old stop.steps hart self.new) }
        ensures live { OnErr result (is_live hart self.new ≡ true) }
    {
        if self.turn_after(hart) == hart {
            self.run_alone(hart, most)
        } else {
            match self.step_live(hart) {
                Ok(_) => Ok(1),
                Err(AllocError) => Err(OutOfMemory { steps: 0 }),
            }
        }
    }

    /// Steps the only live hart until another may be live, the process has ended, or so many steps are done.
    fn run_alone(&mut self, hart: u32, most: u64) -> Result<u64, OutOfMemory>
        requires may { may_step hart self.old ≡ true }
        requires alone { turn_after hart self.old ≡ hart }
        ensures ran { IfOk result (λ steps. by_turns steps hart self.old ≡
            Some (turn_after hart self.new, self.new)) }
        ensures some { IfOk result (λ steps. 0 < most → 0 < steps) }
        ensures within { IfOk result (λ steps. steps ≤ most) }
        ensures memory { IfErr result (λ stop. (stop.steps < most) ×
            WantsAt hart self.old stop.steps hart self.new) }
        ensures live { OnErr result (is_live hart self.new ≡ true) }
    {
        let mut steps: u64 = 0;
        while steps < most {
            let course = self.step_plainly(hart, most - steps);
            steps += course.done;
            if steps == most {
                return Ok(steps);
            }
            match self.end_step(hart, course.last) {
                Ok(true) => steps += 1,
                Ok(false) => return Ok(steps + 1),
                Err(AllocError) => return Err(OutOfMemory { steps }),
            }
        }
        Ok(steps)
    }

    /// Whose turn it is at first.
    fn first_turn(&self) -> u32
        ensures turn { result ≡ first_turn self.now }
        ensures lives { is_live result self.now ≡ true }
    {
        if self.env.is_live(0) {
            0
        } else {
            self.turn_after(0)
        }
    }

    /// The live hart after whose step it is a hart's turn; there is one at most. Where a run by turns has ended, its last step was
    /// that hart's.
    pub fn turn_before(&self, turn: u32) -> Option<u32>
        ensures found { IfSome result (λ hart. (is_live hart self.now ≡ true) ×
            (turn_after hart self.now ≡ turn)) }
        ensures only { (hart : ℕ) → is_live hart self.now ≡ true →
            turn_after hart self.now ≡ turn → result ≡ Some hart }
    {
        // For the proof only: a read shows its invariant.
        let _ = &self.harts;
        'harts: for hart in 0..MOST_HARTS as u32 {
            if self.is_live(hart) && self.turn_after(hart) == turn {
                return Some(hart);
            }
        }
        None
    }

    /// Whose turn it is after a hart's.
    pub fn turn_after(&self, hart: u32) -> u32
        ensures turn { result ≡ turn_after hart self.now }
        ensures lives { is_live result self.now ≡ true }
    {
        self.env.next_live(hart).unwrap_or(hart)
    }
}
