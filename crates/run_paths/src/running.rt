//! Runs a process along a path.

ghost use Rattle.std.specs.Prelude.{◌≡◌, Some, true, IfOk, OnOk, replicate};
ghost use Rattle.flat_machine.specs.ByTurns.{first_turn, turn_after};
ghost use Rattle.flat_machine.specs.Process.{flat_run, is_live};
ghost use Rattle.run_paths.specs.Paths.{along, first_place, hart_of, step_of, steps_of};
ghost use Rattle.run_paths.specs.Paths.{HasTurn, Leads};
ghost use Rattle.run_paths.specs.declared.path.Whose.TheVariants as whose;

use crate::fault::RunFault;
use crate::path::{Stretch, Whose, hart_of};
use flat_machine::{FlatProcess, Schedule, StepRefusal};
use std::alloc::{AllocError, Global};

/// So many steps of a hart are taken one by one: a schedule costs as much as some hundreds of them.
const FEW: u64 = 512;

/// Most steps of a schedule.
const MOST: u64 = 1 << 30;

/// A process, and whose turn it is.
#[derive(Drop)]
pub struct Place {
    pub turn: u32,
    pub process: FlatProcess,
}

impl Place {
    /// A process before its first step.
    pub fn first(process: FlatProcess) -> Self
        ensures place { result ≡ first_place process }
        ensures live { HasTurn result }
    {
        let turn = first_turn(&process);
        Place { turn, process }
    }

    /// A copy, which goes on by itself.
    pub fn try_clone(&self, alloc: Global) -> Result<Self, AllocError>
        ensures { IfOk result (λ copy. copy ≡ self.now) }
    {
        Ok(Place {
            turn: self.turn,
            process: self.process.try_clone(alloc)?,
        })
    }

    /// Takes the steps of a path.
    #[tactic(auto, using(crate::proofs::Along::along_stretch, crate::proofs::Along::along_all, crate::proofs::Along::along_begins))]
    pub fn go_along(&mut self, alloc: Global, path: &[Stretch]) -> Result<(), RunFault>
        requires live { HasTurn self.old }
        ensures led { OnOk result (along path.now (steps_of path.now) self.old ≡ Some self.new) }
        ensures live { OnOk result (HasTurn self.new) }
    {
        'stretches: for stretch in path {
            self.go(alloc, *stretch)?;
        }
        Ok(())
    }

    /// Takes so many steps in a row.
    fn go(&mut self, alloc: Global, stretch: Stretch) -> Result<(), RunFault>
        requires live { HasTurn self.old }
        ensures led { OnOk result (Leads stretch self.old self.new) }
        ensures live { OnOk result (HasTurn self.new) }
    {
        match stretch.whose {
            Whose::ByTurns => self.go_by_turns(stretch.count),
            Whose::Hart(hart) => self.go_alone(alloc, hart, stretch.count),
        }
    }

    /// Takes so many steps by turns.
    #[tactic(auto, using(crate::proofs::Along::leads_by_turns))]
    fn go_by_turns(&mut self, count: u64) -> Result<(), RunFault>
        requires live { HasTurn self.old }
        ensures led { OnOk result (Leads (record { whose = whose.ByTurns; count = count }) self.old
            self.new) }
        ensures live { OnOk result (HasTurn self.new) }
    {
        match self.process.run_turns(&mut self.turn, count) {
            Ok(steps) if steps == count => Ok(()),
            Ok(_) => Err(RunFault::OtherRun),
            Err(_) => Err(RunFault::NoMemory),
        }
    }

    /// Takes so many steps of a hart.
    #[tactic(auto, using(crate::proofs::Along::way_begins, crate::proofs::Along::one_of_hart, crate::proofs::Along::some_of_hart, crate::proofs::Along::all_of_hart))]
    fn go_alone(&mut self, alloc: Global, hart: u32, count: u64) -> Result<(), RunFault>
        requires live { HasTurn self.old }
        ensures led { OnOk result (Leads (record { whose = whose.Hart hart; count = count })
            self.old self.new) }
        ensures live { OnOk result (HasTurn self.new) }
    {
        let mut left = count;
        while left > 0 {
            if left < FEW {
                self.step(Whose::Hart(hart))?;
                left -= 1;
            } else {
                let piece = left.min(MOST) as u32;
                self.go_piece(alloc, hart, piece)?;
                left -= u64::from(piece);
            }
        }
        Ok(())
    }

    /// Takes so many steps of a hart, at once.
    #[tactic(auto, using(crate::proofs::Along::room_first))]
    fn go_piece(&mut self, alloc: Global, hart: u32, count: u32) -> Result<(), RunFault>
        ensures ran { OnOk result (flat_run (replicate count hart) self.old.process ≡
            Some self.new.process) }
        ensures turn { OnOk result (self.new.turn ≡ turn_after hart self.new.process) }
        ensures live { OnOk result (HasTurn self.new) }
    {
        let mut schedule = Schedule::new(alloc)?;
        schedule.record(hart, count);
        match self.process.run(&schedule) {
            Ok(()) => {
                self.turn = self.process.turn_after(hart);
                Ok(())
            }
            Err((StepRefusal::NoMemory, _)) => Err(RunFault::NoMemory),
            Err(_) => Err(RunFault::OtherRun),
        }
    }

    /// Takes one step.
    pub fn step(&mut self, whose: Whose) -> Result<(), RunFault>
        ensures stepped { OnOk result (step_of (hart_of whose self.old.turn) self.old ≡
            Some self.new) }
        ensures live { OnOk result (HasTurn self.new) }
    {
        let hart = hart_of(whose, self.turn);
        match self.process.step(hart) {
            Ok(()) => {
                self.turn = self.process.turn_after(hart);
                Ok(())
            }
            Err(StepRefusal::NoMemory) => Err(RunFault::NoMemory),
            Err(_) => Err(RunFault::OtherRun),
        }
    }
}

/// Whose turn it is at first: hart 0's, where it is live.
fn first_turn(process: &FlatProcess) -> u32
    ensures turn { result ≡ first_turn process.now }
    ensures live { is_live result process.now ≡ true }
{
    if process.is_live(0) {
        return 0;
    }
    process.turn_after(0)
}
