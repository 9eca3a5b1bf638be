//! What a process's memory shows of how addresses are translated.

ghost use Rattle.std.specs.Prelude.{◌≡◌, ◌≤◌, ◌%◌, option_copied};
ghost use Rattle.paged_memory.specs.Whole.{harts_in};
ghost use Rattle.paged_memory.specs.access.Translating.{changed_in, framed_word, framed_word_in};
ghost use Rattle.paged_memory.specs.access.Translating.{tables_in, translations_in};

use crate::memory::PagedMemory;
use page_memory::{PAGE_COUNT, Width, number, page_of};
use page_store::StoredPage;
use std::sync::ledger::Ledger;
use swap_slots::SwapSlot;
use tlb_core::Translation;

impl<L: Ledger, S: SwapSlot> PagedMemory<L, S> {
    /// How many harts have a cache: no more than eight.
    pub fn cached_harts(&self) -> u32
        ensures count { result ≡ harts_in self.now }
        ensures few { result ≤ 8 }
    {
        self.caches.count()
    }

    /// What a hart has cached, the oldest first, or `None` where there is no such hart.
    pub fn translations(&self, hart: usize) -> Option<&[Translation]>
        ensures { option_copied result ≡ translations_in self.now hart }
    {
        self.caches.entries(hart)
    }

    /// The words of the page tables, the root's first. The root is in the physical page `TABLE_PPN`, and table `k` is in the
    /// `k`-th page after it.
    pub fn tables(&self) -> &[[u32; 1024]]
        ensures { result.now ≡ tables_in self.now }
    {
        self.tables.words()
    }

    /// Whether a page counts as changed, so that it is saved before its frame goes, or `None` where none is mapped.
    #[tactic(auto, unfolding(crate::specs::Paged::page_at))]
    pub fn is_changed(&self, vpn: u32) -> Option<bool>
        ensures { result ≡ changed_in self.now vpn }
    {
        if vpn >= PAGE_COUNT {
            return None;
        }
        let place = self.pages.place(vpn)?;
        let dirty = self.tables.is_dirty(vpn);
        Some(self.pages.at(place).is_changed(dirty))
    }

    /// The word at an address, or `None` where that is no multiple of 4 or its page is in no frame.
    #[tactic(auto, unfolding(crate::specs::Paged::page_at))]
    pub fn framed_word(&self, address: u32) -> Option<u32>
        ensures { result ≡ framed_word_in self.now address }
    {
        if address % 4 != 0 {
            return None;
        }
        let place = self.pages.place(page_of(address))?;
        word_of(self.pages.at(place), address)
    }
}

/// The word at an address of a page, if the page is in a frame.
fn word_of<L: Ledger, S: SwapSlot>(page: &StoredPage<L, S>, address: u32) -> Option<u32>
    requires { address % 4 ≡ 0 }
    ensures { result ≡ framed_word page.now address }
{
    match page.frame() {
        Some(frame) => Some(number(frame.bytes(), Width::Word, address)),
        None => None,
    }
}
