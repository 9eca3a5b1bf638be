//! The harts of a process's memory: an empty cache for a new one, and doomed or all translations dropped.

ghost use Rattle.std.specs.Prelude.{◌≡◌, ◌<◌};
ghost use Rattle.paged_memory.specs.Fresh.{AddsHart};
ghost use Rattle.paged_memory.specs.access.Notices.{cleared, dropped, emptied};
ghost use Rattle.paged_memory.specs.Whole.{harts_in};

use crate::memory::PagedMemory;
use std::sync::ledger::Ledger;
use swap_slots::SwapSlot;

impl<L: Ledger, S: SwapSlot> PagedMemory<L, S> {
    /// How many harts have a cache.
    pub fn harts(&self) -> usize
        ensures { result ≡ harts_in self.now }
    {
        self.caches.len()
    }

    /// Gives one more hart an empty cache. Takes no memory: there is room for eight.
    pub fn add_hart(&mut self)
        requires { harts_in self.old < 8 }
        ensures { AddsHart self.old self.new }
    {
        self.caches.add();
    }

    /// A hart drops its translations that are marked as ones to be dropped.
    pub fn take_notices(&mut self, hart: usize)
        requires { hart < harts_in self.old }
        ensures { self.new ≡ dropped hart self.old }
    {
        self.caches.drop_doomed(hart);
    }

    /// Drops all translations of a hart.
    pub fn clear_cache(&mut self, hart: usize)
        requires { hart < harts_in self.old }
        ensures { self.new ≡ cleared hart self.old }
    {
        self.caches.clear(hart);
    }

    /// Drops all translations of all harts.
    pub fn clear_caches(&mut self)
        ensures { self.new ≡ emptied self.old }
    {
        self.caches.clear_all();
    }
}
