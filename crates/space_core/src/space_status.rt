//! What is shown of one page of a process: its state, frame and bits.

ghost use Rattle.std.specs.Prelude.{◌≡◌, ◌<◌, ◌^◌, is_some};
ghost use Rattle.paged_memory.specs.moves.PageStatus.{status_in};

use crate::space::Space;
use paged_memory::PageStatus;
use std::sync::ledger::Ledger;
use swap_slots::SwapSlot;

impl<L: Ledger, S: SwapSlot> Space<L, S> {
    /// What is shown of a page, or `None` where none is mapped.
    pub fn status(&self, vpn: u32) -> Option<PageStatus>
        requires { vpn < 2 ^ 20 }
        ensures { result ≡ status_in (is_some self.now.running.ending) self.now.memory vpn }
    {
        let ended = self.recorded.running().end().is_some();
        self.memory.status(vpn, ended)
    }
}
