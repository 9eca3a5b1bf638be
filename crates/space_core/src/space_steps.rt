//! A hart's instructions one at a time, each as a slice of its own.

ghost use Rattle.std.specs.Prelude.{◌≡◌, ◌≤◌, ◌<◌, ◌⊎◌, true, option_map, IfNone, IfSome};
ghost use Rattle.flat_machine.specs.Process.{may_step};
ghost use Rattle.flat_machine.specs.Schedule.{room};
ghost use Rattle.paged_memory.specs.Paged.{memory_of};
ghost use Rattle.paged_memory.specs.access.Using.{LacksIn};
ghost use Rattle.space_core.specs.Next.{answered, begun};
ghost use Rattle.space_core.specs.RunningValue.{with_memory};
ghost use Rattle.space_core.specs.Slices.{StopsRecorded};
ghost use Rattle.space_core.specs.Slicing.{shown_process};
ghost use Rattle.space_core.specs.StepByStep.{SlicesOne, StepsEach};
ghost use Rattle.space_core.specs.Endings.{RefusesAll};

use crate::left_caches::{add_harts, settle_caches};
use crate::progress::{Slice, SliceStop, Steps};
use crate::recorded::{Recorded, least};
use crate::space::Space;
use paged_memory::PagedMemory;
use std::sync::ledger::Ledger;
use swap_slots::SwapSlot;

/// Why a hart stops whose next instruction is not run, whatever it is.
fn stop_refused<L: Ledger, S: SwapSlot>(
    recorded: &Recorded,
    memory: &PagedMemory<L, S>,
    hart: u32,
) -> SliceStop
    requires refused { may_step hart (with_memory recorded.now.running
        (memory_of S.content memory.now)) ≡ true → room recorded.now.schedule hart ≡ 0 }
    ensures answers { answered result 0 ≡ 0 }
    ensures begins { begun result 0 ≡ 0 }
    ensures stop { let now = with_memory recorded.now.running (memory_of S.content memory.now) in
        StopsRecorded (LacksIn memory.now) hart 1 (room recorded.now.schedule hart) now result 0 now }
{
    let running = recorded.running();
    if running.end().is_some() {
        return SliceStop::Ended;
    }
    if !running.is_live(hart) {
        return SliceStop::NoHart;
    }
    SliceStop::ScheduleFull
}

impl<L: Ledger, S: SwapSlot> Space<L, S> {
    /// Whether a hart was started and is live in a process that has not ended.
    fn may_step(&self, hart: u32) -> bool
        ensures { result ≡ may_step hart (shown_process S.content self.now) }
    {
        self.recorded.running().may_step(hart)
    }

    /// Runs and records instructions of a hart that may step, up to so many, which its schedule takes.
    fn run(&mut self, hart: u32, most: u32) -> Steps
        requires may { may_step hart (shown_process S.content self.old) ≡ true }
        requires some { 0 < most }
        requires fits { most ≤ room self.old.schedule hart }
        ensures within { result.ran ≤ most }
        ensures each { StepsEach S.content S.honest hart result.ran (option_map (λ slice.
            (slice.ran, slice.stop)) result.last) self.old self.new }
        ensures all { IfNone result.last (result.ran ≡ most) }
        ensures short { IfSome result.last (λ _. result.ran < most) }
    {
        let steps = self
            .recorded
            .run(hart, &mut self.memory, &self.decoded, most);
        let Some(slice) = steps.last else {
            return steps;
        };
        add_harts(&mut self.memory, self.recorded.running().started());
        settle_caches(&mut self.memory, hart as usize, slice.stop);
        self.memory.coherent();
        steps
    }

    /// The same of any hart: none run where it may not step, and no more than the schedule takes.
    fn run_allowed(&mut self, hart: u32, most: u32) -> Steps
        ensures within { result.ran ≤ most }
        ensures each { StepsEach S.content S.honest hart result.ran (option_map (λ slice.
            (slice.ran, slice.stop)) result.last) self.old self.new }
        ensures all { IfNone result.last ((result.ran ≡ most) ⊎
            RefusesAll S.content hart self.new) }
        ensures short { IfSome result.last (λ _. result.ran < most) }
    {
        let allowed = least(most, self.schedule().room(hart));
        if allowed == 0 {
            return Steps { ran: 0, last: None };
        }
        if !self.may_step(hart) {
            return Steps { ran: 0, last: None };
        }
        self.run(hart, allowed)
    }

    /// Stops a hart whose next instruction is not run, whatever it is.
    #[cold]
    #[inline(never)]
    fn refuse(&mut self, hart: u32) -> Slice
        requires refused { RefusesAll S.content hart self.old }
        ensures slice { SlicesOne S.content S.honest hart result.ran result.stop self.old self.new }
    {
        let stop = stop_refused(&self.recorded, &self.memory, hart);
        settle_caches(&mut self.memory, hart as usize, stop);
        self.memory.coherent();
        Slice { ran: 0, stop }
    }

    /// Runs instructions of a hart one at a time, up to so many, each as a slice of its own, until one of them does
    /// not pass on to the next.
    pub fn steps(&mut self, hart: u32, most: u32) -> Steps
        ensures within { result.ran ≤ most }
        ensures each { StepsEach S.content S.honest hart result.ran (option_map (λ slice.
            (slice.ran, slice.stop)) result.last) self.old self.new }
        ensures all { IfNone result.last (result.ran ≡ most) }
        ensures short { IfSome result.last (λ _. result.ran < most) }
    {
        let steps = self.run_allowed(hart, most);
        if steps.last.is_some() {
            return steps;
        }
        if steps.ran == most {
            return steps;
        }
        let slice = self.refuse(hart);
        Steps {
            ran: steps.ran,
            last: Some(slice),
        }
    }
}
