//! Read-only access to the memory of a process.

ghost use Rattle.std.specs.Prelude.{◌≡◌};

use crate::space::Space;
use paged_memory::PagedMemory;
use std::sync::ledger::Ledger;
use swap_slots::SwapSlot;

impl<L: Ledger, S: SwapSlot> Space<L, S> {
    /// The memory of the process, to be looked at.
    pub fn memory(&self) -> &PagedMemory<L, S>
        ensures { result.now ≡ self.now.memory }
    {
        &self.memory
    }
}
