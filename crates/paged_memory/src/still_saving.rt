//! Whether bytes of any page of a process are on their way to a slot.

ghost use Rattle.std.specs.Prelude.{◌≡◌, ◌<◌, ◌^◌};
ghost use Rattle.std.specs.Bool.{OnTrue, OnFalse};
ghost use Rattle.page_store.specs.PageValue.{is_out};
ghost use Rattle.paged_memory.specs.Counting.{page_passes};
ghost use Rattle.paged_memory.specs.moves.Moving.{SavesNone, SavesSome};
ghost use Rattle.paged_memory.specs.Paged.{page_at};

use crate::memory::PagedMemory;
use page_memory::PageMap;
use page_store::StoredPage;
use std::sync::ledger::Ledger;
use swap_slots::SwapSlot;

impl<L: Ledger, S: SwapSlot> PagedMemory<L, S> {
    /// Whether bytes of a page are out with a job: it is being saved, or a copy of it is out.
    pub fn is_saving(&self) -> bool
        ensures some { OnTrue result (SavesSome self.now) }
        ensures none { OnFalse result (SavesNone self.now) }
    {
        for place in 0..self.pages.len() {
            if is_out(&self.pages, self.pages.page(place)) {
                return true;
            }
        }
        false
    }
}

#[tactic(auto, unfolding(crate::specs::Paged::page_at))]
fn is_out<L: Ledger, S: SwapSlot>(pages: &PageMap<StoredPage<L, S>>, vpn: u32) -> bool
    requires { vpn < 2 ^ 20 }
    ensures { result ≡ page_passes (λ page. is_out page.place) (page_at pages.now vpn) }
{
    match pages.place(vpn) {
        Some(place) => pages.at(place).is_out(),
        None => false,
    }
}
