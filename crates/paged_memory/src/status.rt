//! What a process's memory shows of one of its pages.

ghost use Rattle.std.specs.Prelude.{◌≡◌, ◌<◌, ◌^◌, option_map, false, if◌then◌else◌};
ghost use Rattle.page_store.specs.Cleaning.{is_being_cleaned};
ghost use Rattle.page_store.specs.PageValue.{frame_of};
ghost use Rattle.paged_memory.specs.moves.PageStatus.{status_in};

use crate::memory::PagedMemory;
use page_store::{PageState, StoredPage};
use std::sync::ledger::Ledger;
use swap_slots::SwapSlot;

/// Where a page is, and what is known of its use.
#[derive(Clone, Copy, PartialEq, Eq, Debug)]
pub struct PageStatus {
    pub state: PageState,
    /// The number of its frame, if it has one.
    pub frame: Option<u32>,
    /// Whether its page-table entry has A, if there is one with V.
    pub accessed: Option<bool>,
    /// Whether its page-table entry has D, and V.
    pub dirty: bool,
    /// Whether it counts as changed: it would have to be saved before its frame could go.
    pub changed: bool,
    /// Whether it is being cleaned, and no copy of it is out.
    pub cleaning: bool,
    /// Whether a copy of it is out.
    pub copied: bool,
}

impl<L: Ledger, S: SwapSlot> PagedMemory<L, S> {
    /// What is shown of a page, or `None` where none is mapped. `ended` says whether the process has ended, and with it each cleaning
    /// that has no copy.
    #[tactic(auto, unfolding(crate::specs::Paged::page_at))]
    pub fn status(&self, vpn: u32, ended: bool) -> Option<PageStatus>
        requires { vpn < 2 ^ 20 }
        ensures { result ≡ status_in ended self.now vpn }
    {
        let place = self.pages.place(vpn)?;
        let page = self.pages.at(place);
        let dirty = self.tables.is_dirty(vpn);
        Some(PageStatus {
            state: page.state(),
            frame: frame_number(page),
            accessed: self.tables.accessed(vpn),
            dirty,
            changed: page.is_changed(dirty),
            cleaning: is_cleaning(page, ended),
            copied: page.is_copied(),
        })
    }
}

fn frame_number<L: Ledger, S: SwapSlot>(page: &StoredPage<L, S>) -> Option<u32>
    ensures { result ≡ option_map (λ frame. frame.number) (frame_of page.now.place) }
{
    match page.frame() {
        Some(frame) => Some(frame.number()),
        None => None,
    }
}

fn is_cleaning<L: Ledger, S: SwapSlot>(page: &StoredPage<L, S>, ended: bool) -> bool
    ensures { result ≡ (if ended then false else is_being_cleaned page.now.place) }
{
    if ended {
        return false;
    }
    page.is_being_cleaned()
}
