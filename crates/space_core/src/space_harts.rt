//! Whether a hart of a process is live.

ghost use Rattle.std.specs.Prelude.{◌≡◌, slice_index_or, false};

use crate::space::Space;
use std::sync::ledger::Ledger;
use swap_slots::SwapSlot;

impl<L: Ledger, S: SwapSlot> Space<L, S> {
    /// Whether a hart was started and is live.
    pub fn is_live(&self, hart: u32) -> bool
        ensures { result ≡ slice_index_or self.now.running.environment.live hart false }
    {
        self.recorded.running().is_live(hart)
    }
}
