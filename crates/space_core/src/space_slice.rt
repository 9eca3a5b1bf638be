//! Several instructions of a hart in a row.

ghost use Rattle.std.specs.Prelude.{◌≡◌, ◌≤◌, ◌+◌, ◌++◌, All, Some, replicate};
ghost use Rattle.rv_exec.specs.Outcomes.{Used};
ghost use Rattle.flat_machine.specs.Process.{flat_run};
ghost use Rattle.flat_machine.specs.Schedule.{written_out, room};
ghost use Rattle.paged_memory.specs.access.HartMemory.{MarksSince};
ghost use Rattle.paged_memory.specs.Coheres.{Coheres};
ghost use Rattle.paged_memory.specs.access.Missing.{TakesIn};
ghost use Rattle.space_core.specs.Next.{next_pages, next_stores, answered, begun};
ghost use Rattle.space_core.specs.Slices.{EachStep, BoundsEach, StopsRecorded};
ghost use Rattle.space_core.specs.Slicing.{shown_process, KeepsSpace};
ghost use Rattle.space_core.specs.StandsFor.{StandsFor};
ghost use Rattle.space_core.specs.StepByStep.{SlicesEach};
ghost use Rattle.paged_memory.specs.access.Using.{cache_in, HasIn, LacksIn, MarkedIn};

use crate::progress::{Slice, SliceStop};
use crate::space::Space;
use std::sync::ledger::Ledger;
use swap_slots::SwapSlot;

impl<L: Ledger, S: SwapSlot> Space<L, S> {
    /// Runs instructions of a hart, each as a slice of its own, up to so many, until one of them stops.
    fn slice_each(&mut self, hart: u32, budget: u32) -> Slice
        ensures each { SlicesEach S.content S.honest hart budget result.ran result.stop self.old
            self.new }
    {
        let mut ran = 0;
        'turns: loop {
            let steps = self.steps(hart, budget - ran);
            ran += steps.ran;
            let Some(last) = steps.last else {
                return Slice {
                    ran,
                    stop: SliceStop::Budget,
                };
            };
            ran += last.ran;
            if !last.stop.goes_on() {
                return Slice {
                    ran,
                    stop: last.stop,
                };
            }
        }
    }

    /// Runs up to so many instructions of a hart, and records each.
    ///
    /// It stops early for a page that has to be brought in, a yield, the end of the hart or of the process, a schedule that
    /// takes no more instructions of the hart, or lack of memory. Of several reasons it gives the first of: ended, no such live
    /// hart, schedule full, the next instruction's. With no instruction allowed, the budget is the only reason.
    ///
    /// A hart that does not go on drops its translations, and so do all where the process ended.
    pub fn slice(&mut self, hart: u32, budget: u32) -> Slice
        ensures ran { flat_run (replicate result.ran hart) (shown_process S.content self.old) ≡
            Some (shown_process S.content self.new) }
        ensures recorded { written_out self.new.schedule ≡ written_out self.old.schedule ++
            replicate result.ran hart }
        ensures left { room self.new.schedule hart + result.ran ≡ room self.old.schedule hart }
        ensures within { result.ran ≤ budget }
        ensures stop { StopsRecorded (LacksIn self.old.memory) hart budget
            (room self.old.schedule hart) (shown_process S.content self.old) result.stop result.ran
            (shown_process S.content self.new) }
        ensures pages { let opening = cache_in self.old.memory hart in
            EachStep (λ at. Used (HasIn self.old.memory hart) (MarksSince self.new.memory opening)
            (next_pages hart at)) hart (answered result.stop result.ran)
            (shown_process S.content self.old) }
        ensures bound { BoundsEach (MarkedIn self.old.memory) (MarkedIn self.new.memory) hart
            (begun result.stop result.ran) (shown_process S.content self.old) }

        // Each page that an answered instruction stored to takes stores: a copy of it, if one is out, will not become its backing.
        ensures takes { EachStep (λ at. All (TakesIn self.new.memory) (next_stores hart at)) hart
            (answered result.stop result.ran) (shown_process S.content self.old) }
        ensures kept { KeepsSpace hart result.stop self.old self.new }
        ensures stands { S.honest → StandsFor S.content self.new }
        ensures coheres { Coheres S.content S.honest self.new.memory }

        // Each instruction says of itself which pages were had and marked: a page's use may be without a mark only where the hart
        // had a translation of it that was to be dropped when that very instruction began; and, at an absent page, that the hart's cache
        // did not show it when its access came.
        ensures each { SlicesEach S.content S.honest hart budget result.ran result.stop self.old
            self.new }
    {
        self.memory.coherent();
        self.slice_each(hart, budget)
    }
}
