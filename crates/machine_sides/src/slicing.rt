//! A process's hart runs: what a `Space` says of its slices, as one record.

ghost use Rattle.std.specs.Prelude.{◌≡◌, ◌<◌, ◌≤◌, option_map, IfSome, IfNone};
ghost use Rattle.machine_sides.specs.ProcessCalls.{Slices, SlicesMany, StepsOnce};

use space_core::{Slice, SliceStop, Space, Steps};
use std::sync::ledger::Ledger;
use swap_slots::SwapSlot;

/// Runs up to so many instructions of a hart, and records each; see [`Space::slice`].
pub fn run_slice<L: Ledger, S: SwapSlot>(space: &mut Space<L, S>, hart: u32, budget: u32) -> Slice
    ensures slice { Slices S.content S.honest hart budget space.old space.new
        result.ran result.stop }
{
    space.slice(hart, budget)
}

/// A hart runs one instruction, or says why not.
pub fn run_step<L: Ledger, S: SwapSlot>(space: &mut Space<L, S>, hart: u32) -> SliceStop
    ensures { StepsOnce S.content S.honest hart result space.old space.new }
{
    run_slice(space, hart, 1).stop
}

/// Runs instructions of a hart one at a time, up to so many, until one does not go on; see [`Space::steps`].
pub fn run_steps<L: Ledger, S: SwapSlot>(space: &mut Space<L, S>, hart: u32, most: u32) -> Steps
    ensures slices { SlicesMany S.content S.honest hart result.ran (option_map (λ slice.
        slice.stop) result.last) space.old space.new }
    ensures within { result.ran ≤ most }
    ensures all { IfNone result.last (result.ran ≡ most) }
    ensures short { IfSome result.last (λ _. result.ran < most) }
{
    space.steps(hart, most)
}
