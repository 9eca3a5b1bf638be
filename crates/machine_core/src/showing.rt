//! What the machine shows of a page and of its replacement list.

ghost use Rattle.std.specs.Prelude.{◌≡◌, ◌++◌, ◌+◌, ◌≤◌, length, slice_get, vec_len, vec_capacity};
ghost use Rattle.std.specs.Prelude.{IsOk, OnOk, OnErr};
ghost use Rattle.std.specs.Option.{option_and_then};
ghost use Rattle.machine_sides.specs.PageStatusAt.{status_at};

use crate::machine::Core;
use clock_policy::{Clock, Entry};
use machine_sides::status;
use paged_memory::PageStatus;
use pager_core::Hands;
use std::alloc::AllocError;
use std::sync::ledger::Ledger;
use swap_slots::SwapSlot;

impl<L: Ledger, S: SwapSlot, C: Clock> Core<L, S, C> {
    /// What is shown of a page of a process, or `None` where there is no such process or none is mapped.
    pub fn status(&self, process: u32, vpn: u32) -> Option<PageStatus>
        ensures { result ≡ option_and_then (λ process. status_at process vpn)
            (slice_get self.now.processes process) }
    {
        status(self.processes.get(process as usize)?, vpn)
    }

    /// Where the list's hands are, and its two numbers.
    pub fn hands(&self) -> Hands
        ensures share { result.share ≡ self.now.pager.pager.list.share }
        ensures asked { result.asked ≡ self.now.pager.pager.list.asked }
        ensures cold { result.cold ≡ self.now.pager.pager.list.cold_hand }
        ensures test { result.test ≡ self.now.pager.pager.list.test_hand }
    {
        self.pager.hands()
    }

    /// Adds all entries of the list to a vector, from the front, in time linear in the list. It takes memory only where the
    /// vector has not the room.
    pub fn copy_entries(&self, to: &mut Vec<Entry>) -> Result<(), AllocError>
        ensures items { OnOk result (to.new.items ≡ to.old.items ++
            self.now.pager.pager.list.entries) }
        ensures err { OnErr result (to.new.items ≡ to.old.items) }
        ensures room { vec_len to.old + length self.now.pager.pager.list.entries ≤
            vec_capacity to.old → IsOk result }
    {
        self.pager.copy_entries(to)
    }
}
