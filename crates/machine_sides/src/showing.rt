//! What is shown of a page and of the replacement list.

ghost use Rattle.std.specs.Prelude.{◌≡◌, ◌++◌, ◌+◌, ◌≤◌, length, vec_len, vec_capacity, IsOk, OnOk};
ghost use Rattle.std.specs.Prelude.{OnErr};
ghost use Rattle.machine_sides.specs.PageStatusAt.{status_at};

use crate::pager_side::PagerSide;
use clock_policy::{Clock, Entry};
use page_memory::PAGE_COUNT;
use paged_memory::PageStatus;
use pager_core::Hands;
use space_core::Space;
use std::alloc::AllocError;
use std::sync::ledger::Ledger;
use swap_slots::SwapSlot;

/// What is shown of a page, or `None` where none is mapped.
pub fn status<L: Ledger, S: SwapSlot>(space: &Space<L, S>, vpn: u32) -> Option<PageStatus>
    ensures { result ≡ status_at space.now vpn }
{
    if vpn >= PAGE_COUNT {
        return None;
    }
    space.status(vpn)
}

impl<L: Ledger, C: Clock> PagerSide<L, C> {
    /// The positions of the list's hands, and the list's two numbers.
    pub fn hands(&self) -> Hands
        ensures share { result.share ≡ self.now.pager.list.share }
        ensures asked { result.asked ≡ self.now.pager.list.asked }
        ensures cold { result.cold ≡ self.now.pager.list.cold_hand }
        ensures test { result.test ≡ self.now.pager.list.test_hand }
    {
        self.pager.hands()
    }

    /// Adds all entries of the list to a vector, from the front, in time linear in the list. It takes memory only where the
    /// vector has not the room.
    pub fn copy_entries(&self, to: &mut Vec<Entry>) -> Result<(), AllocError>
        ensures items { OnOk result (to.new.items ≡ to.old.items ++ self.now.pager.list.entries) }
        ensures err { OnErr result (to.new.items ≡ to.old.items) }
        ensures room { vec_len to.old + length self.now.pager.list.entries ≤ vec_capacity to.old →
            IsOk result }
    {
        self.pager.copy_entries(to)
    }
}
