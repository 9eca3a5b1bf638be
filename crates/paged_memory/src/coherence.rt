//! What pages, page tables and caches always say of one another, as a contract for other proofs.

ghost use Rattle.paged_memory.specs.Paged.{Holds};
ghost use Rattle.paged_memory.specs.Coherence.{MarksClear, HoldsFramed, CopiesUnmarked, WalksLead};

use crate::memory::PagedMemory;
use std::sync::ledger::Ledger;
use swap_slots::SwapSlot;

impl<L: Ledger, S: SwapSlot> PagedMemory<L, S> {
    /// What pages, tables and caches say of one another between any two calls. It does nothing.
    #[tactic(auto, using(crate::proofs::CoherenceLaws::marks_clear))]
    pub fn coherent(&self)
        ensures agree { Holds S.content S.honest self.now.pages self.now.tables self.now.caches }
        ensures accessed { MarksClear self.now.pages self.now.tables self.now.caches }
        ensures framed { HoldsFramed self.now.pages self.now.caches }
        ensures unmarked { CopiesUnmarked self.now.pages self.now.tables self.now.caches }
        ensures walks { WalksLead self.now.pages self.now.tables }
    {
        // For the proof only: a read shows its invariant.
        let _ = &self.pages;
        self.tables.translates();
    }
}
