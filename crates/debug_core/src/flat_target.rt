//! A process on flat memory is a target: it shows itself, and lacks nothing.

ghost use Rattle.std.specs.Prelude.{◌≡◌, ℕ, ◌+◌, ◌^◌, ◌<◌, ◌≤◌, [], true, IfErr, IfOk, Some, length};
ghost use Rattle.page_memory.specs.Memory.{Memory};
ghost use Rattle.flat_machine.specs.ByTurns.{turn_after};
ghost use Rattle.flat_machine.specs.Process.{Process, is_live};
ghost use Rattle.debug_core.specs.Debugging.{first_moment};
ghost use Rattle.debug_core.specs.Limits.{lacks_none};
ghost use Rattle.debug_core.specs.Points.{bytes_from};
ghost use Rattle.debug_core.specs.Stops.{last_hart, PassesTo, WantsAfter};

use crate::target::{StepsTaken, Target, TargetFault, TargetStep};
use flat_machine::{End, FlatProcess, OutOfMemory, StepRefusal};
use rv_exec::Regs;
use std::alloc::AllocError;

impl Target for FlatProcess {
    ghost shown = { λ process. process };

    ghost limits = { λ process. lacks_none };

    fn is_live(&self, hart: u32) -> bool {
        FlatProcess::is_live(self, hart)
    }

    fn turn_after(&self, hart: u32) -> u32 {
        FlatProcess::turn_after(self, hart)
    }

    fn is_mapped(&self, address: u32) -> bool {
        self.byte(address).is_some()
    }

    fn end(&self) -> Option<End> {
        FlatProcess::end(self)
    }

    fn regs(&self, hart: u32) -> Option<&Regs> {
        FlatProcess::regs(self, hart)
    }

    fn step(&mut self, hart: u32) -> Result<TargetStep, AllocError> {
        match FlatProcess::step(self, hart) {
            Ok(()) => Ok(TargetStep::Ran),
            Err(StepRefusal::NoMemory) => Err(AllocError),
            Err(_) => unreachable!(),
        }
    }

    fn take_turns(&mut self, turn: &mut u32, most: u64) -> Result<StepsTaken, OutOfMemory> {
        take_turns(self, turn, most)
    }

    fn read(&mut self, address: u32, bytes: &mut [Option<u8>]) -> Result<(), TargetFault> {
        read_all(self, address, bytes);
        Ok(())
    }
}

/// Steps the harts by turns until the process has ended or so many steps are done.
fn take_turns(
    process: &mut FlatProcess,
    turn: &mut u32,
    most: u64,
) -> Result<StepsTaken, OutOfMemory>
    requires live { is_live turn.old process.old ≡ true }
    ensures passed { IfOk result (λ taken. PassesTo lacks_none [] most taken.steps
        (first_moment process.old turn.old) turn.new process.new) }
    ensures last { IfOk result (λ taken. last_hart taken.steps
        (first_moment process.old turn.old) ≡ Some taken.last) }
    ensures wants { IfErr result (λ stop. WantsAfter (λ _. lacks_none) process.old [] most stop.steps
        (first_moment process.old turn.old) turn.new process.new) }
    ensures live { is_live turn.new process.new ≡ true }
{
    if most == 0 {
        return Ok(StepsTaken {
            steps: 0,
            last: *turn,
        });
    }
    let first = *turn;
    // The last step is taken by itself: so its hart is known, where the process goes on.
    let steps = process.run_turns(turn, most - 1)?;
    if process.end().is_some() {
        let last = last_of(process, steps, first, *turn);
        return Ok(StepsTaken { steps, last });
    }
    let last = *turn;
    match process.step(last) {
        Ok(()) => {
            *turn = process.turn_after(last);
            Ok(StepsTaken {
                steps: steps + 1,
                last,
            })
        }
        Err(_) => Err(OutOfMemory { steps }),
    }
}

/// The hart of the last of so many steps by turns, after which the process has ended: of none the first.
fn last_of(process: &FlatProcess, steps: u64, first: u32, turn: u32) -> u32
    ensures none { steps ≡ 0 → result ≡ first }
    ensures some { (hart : ℕ) → 0 < steps → is_live hart process.now ≡ true →
        turn_after hart process.now ≡ turn → result ≡ hart }
{
    if steps == 0 {
        return first;
    }
    process.turn_before(turn).unwrap_or(first)
}

/// Reads the bytes from an address on.
pub fn read_all(process: &FlatProcess, address: u32, bytes: &mut [Option<u8>])
    requires { address + length bytes.old ≤ 2 ^ 32 }
    ensures { bytes.new ≡ bytes_from process.now.memory address (length bytes.old) }
{
    'bytes: for i in 0..bytes.len() {
        bytes[i] = process.byte(address + i as u32);
    }
}
