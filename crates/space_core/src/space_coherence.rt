//! What always holds of a process, as a contract for other proofs; the function does nothing.

ghost use Rattle.std.specs.Prelude.{◌≡◌, length};
ghost use Rattle.paged_memory.specs.Coheres.{HoldsIn, MarksClearIn, HoldsFramedIn};
ghost use Rattle.paged_memory.specs.Coheres.{CopiesUnmarkedIn, WalksLeadIn};
ghost use Rattle.space_core.specs.StandsFor.{StandsFor};
ghost use Rattle.paged_memory.specs.Whole.{harts_in};

use crate::space::Space;
use std::sync::ledger::Ledger;
use swap_slots::SwapSlot;

impl<L: Ledger, S: SwapSlot> Space<L, S> {
    /// What holds of it between any two calls: it represents a flat process where slots are honest, and its pages, tables
    /// and caches are consistent. It does nothing.
    pub fn coherent(&self)
        ensures stands { S.honest → StandsFor S.content self.now }
        ensures harts { harts_in self.now.memory ≡ length self.now.running.harts }
        ensures agree { HoldsIn S.content S.honest self.now.memory }
        ensures accessed { MarksClearIn self.now.memory }
        ensures framed { HoldsFramedIn self.now.memory }
        ensures unmarked { CopiesUnmarkedIn self.now.memory }
        ensures walks { WalksLeadIn self.now.memory }
    {
        // For the proof only: a read shows its invariant.
        let _ = &self.image;
        self.memory.coherent();
    }
}
