//! What a debugger looks at.

ghost use Rattle.std.specs.Prelude.{◌≡◌, ◌+◌, ◌^◌, ◌≤◌, ℕ, [], true, is_some, length, option_copied, OnOk, OnErr, IfOk, IfErr, Some};
ghost use Rattle.flat_machine.specs.ByTurns.{turn_after};
ghost use Rattle.flat_machine.specs.Process.{Process, hart_registers, is_live, may_step};
ghost use Rattle.page_memory.specs.Memory.{byte_at};
ghost use Rattle.debug_core.specs.Debugging.{first_moment};
ghost use Rattle.debug_core.specs.Points.{bytes_from};
ghost use Rattle.debug_core.specs.Stops.{last_hart, PassesTo, RoomAfter, WantsAfter};
ghost use Rattle.debug_core.specs.Limits.{CanRead, CannotRead, CannotRecord, HeedsLimits, IsFirstFault, KeepsRoom, LeavesRoom, Limit};
ghost use Rattle.debug_core.specs.Progresses.{Progresses};

use flat_machine::{End, OutOfMemory};
use rv_exec::Regs;
use std::alloc::AllocError;

/// What has come of a step.
#[derive(Clone, Copy, Debug, PartialEq, Eq)]
pub enum TargetStep {
    /// It was taken.
    Ran,
    /// A page that it needs could not be had; it was not taken.
    Absent,
    /// No more steps can be recorded; it was not taken, and the process is ended for that.
    Full,
}

/// Steps that were taken at once.
#[derive(Clone, Copy, Debug, PartialEq, Eq)]
pub struct StepsTaken {
    /// How many.
    pub steps: u64,
    /// The hart of the last one: of none the hart whose turn it was.
    pub last: u32,
}

/// Why bytes can't be read, in the order in which it is tested.
#[derive(Clone, Copy, Debug, PartialEq, Eq)]
pub enum TargetFault {
    /// The process has ended, and a page was given back.
    Purged,
    /// A page could not be loaded.
    Device,
}

/// A process that a debugger steps and looks at: whatever shows the state of a process on flat memory.
pub trait Target: Drop {
    ghost use Rattle.debug_core.specs.Limits.{Limit};

    /// The flat process that it shows.
    ghost shown: { Self → Process };

    /// What it lacks, though the flat process does not.
    ghost limits: { Self → Limit → Type 0 };

    /// Whether a hart was started and is live.
    fn is_live(&self, hart: u32) -> bool
        ensures { result ≡ is_live hart (shown self.now) };

    /// The least live hart above one, else the least live one: some hart is live always.
    fn turn_after(&self, hart: u32) -> u32
        ensures turn { result ≡ turn_after hart (shown self.now) }
        ensures live { is_live result (shown self.now) ≡ true };

    /// Whether a page is mapped at an address.
    fn is_mapped(&self, address: u32) -> bool
        ensures { result ≡ is_some (byte_at (shown self.now).memory address) };

    /// How the process ended, if it did.
    fn end(&self) -> Option<End>
        ensures { result ≡ (shown self.now).ending };

    /// A hart's registers, where the hart was started.
    fn regs(&self, hart: u32) -> Option<&Regs>
        ensures { option_copied result ≡ hart_registers hart (shown self.now) };

    /// Runs one instruction of a hart that may step, unless it can't be recorded, which is tested first, or a page that it needs
    /// can't be had.
    ///
    /// # Errors
    ///
    /// Want of memory, where the instruction could be recorded; the process is as before.
    fn step(&mut self, hart: u32) -> Result<TargetStep, AllocError>
        requires { may_step hart (shown self.old) ≡ true }
        ensures ok { IfOk result (λ progress. Progresses progress hart (shown self.old)
            (shown self.new)) }
        ensures heeds { IfOk result (λ progress. HeedsLimits progress hart (limits self.old)) }
        ensures recorded { IfOk result (λ progress. LeavesRoom progress hart (limits self.old)
            (limits self.new)) }
        ensures err { OnErr result (shown self.new ≡ shown self.old) }
        ensures wants { OnErr result (¬ limits self.old (CannotRecord [] hart)) }
        ensures kept { OnErr result (KeepsRoom (limits self.old) (limits self.new)) };

    /// Steps the hart whose turn it is, then the next, as far as it can at once, up to so many and to the end of the process: none,
    /// where each step has to be looked at.
    ///
    /// # Errors
    ///
    /// Want of memory for the next step; the steps before it remain.
    fn take_turns(&mut self, turn: &mut u32, most: u64) -> Result<StepsTaken, OutOfMemory>
        requires live { is_live turn.old (shown self.old) ≡ true }
        ensures passed { IfOk result (λ taken. PassesTo (limits self.old) [] most taken.steps
            (first_moment (shown self.old) turn.old) turn.new (shown self.new)) }
        ensures last { IfOk result (λ taken. last_hart taken.steps
            (first_moment (shown self.old) turn.old) ≡ Some taken.last) }
        ensures recorded { IfOk result (λ taken. RoomAfter (limits self.old) (limits self.new)
            taken.steps (first_moment (shown self.old) turn.old)) }
        ensures wants { IfErr result (λ stop. WantsAfter limits self.old [] most stop.steps
            (first_moment (shown self.old) turn.old) turn.new (shown self.new)) }
        ensures live { is_live turn.new (shown self.new) ≡ true };

    /// Reads the bytes from an address on, as many as there are places; `None` where no page is mapped. What the process shows
    /// stays. Where it fails, what is in the places is open.
    fn read(&mut self, address: u32, bytes: &mut [Option<u8>]) -> Result<(), TargetFault>
        requires { address + length bytes.old ≤ 2 ^ 32 }
        ensures ok { OnOk result (bytes.new ≡ bytes_from (shown self.old).memory address
            (length bytes.old)) }
        ensures readable { OnOk result (CanRead (limits self.old) address (length bytes.old)) }
        ensures refused { IfErr result (λ why.
            limits self.old (CannotRead address (length bytes.old) why)) }
        ensures first { IfErr result (IsFirstFault (limits self.old) address (length bytes.old)) }
        ensures shown { shown self.new ≡ shown self.old }
        ensures kept { KeepsRoom (limits self.old) (limits self.new) };
}
