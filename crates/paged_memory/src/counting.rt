//! How many pages of a process are in frames.

ghost use Rattle.std.specs.Prelude.{◌≡◌, ◌≤◌, ◌<◌, ◌^◌, true, ◌&&◌, cond};
ghost use Rattle.page_store.specs.PageValue.{frame_of, slot_of};
ghost use Rattle.paged_memory.specs.Counting.{frame_passes, is_kept, is_resident_place, page_passes};
ghost use Rattle.paged_memory.specs.Paged.{page_at};
ghost use Rattle.paged_memory.specs.moves.Stages.{has_frame_stage, is_resident_stage};
ghost use Rattle.paged_memory.specs.Whole.{frames_among, residents_among, slots_within};

use crate::eviction::state_in;
use crate::memory::PagedMemory;
use page_memory::PageMap;
use page_store::{PageState, StoredPage};
use std::sync::ledger::Ledger;
use swap_slots::SwapSlot;

/// How many pages are resident, and how many hold a frame.
#[derive(Clone, Copy, Debug, PartialEq, Eq)]
pub struct HeldPages {
    pub resident: usize,
    pub framed: usize,
}

impl<L: Ledger, S: SwapSlot> PagedMemory<L, S> {
    /// Counts the pages that are in frames, by their numbers.
    pub fn held_pages(&self) -> HeldPages
        ensures resident { result.resident ≡ residents_among self.now (λ _. true) }
        ensures framed { result.framed ≡ frames_among self.now (λ _. true) }
        ensures few_resident { result.resident ≤ 2 ^ 20 }
        ensures few_framed { result.framed ≤ 2 ^ 20 }
    {
        let mut held = HeldPages {
            resident: 0,
            framed: 0,
        };
        let mut from = 0;
        'pages: while let Some(vpn) = self.pages.first_from(from) {
            let more = held_at(&self.pages, vpn);
            held.resident += more.resident;
            held.framed += more.framed;
            from = vpn + 1;
        }
        held
    }

    /// Counts the pages that have a slot at hand.
    pub fn slots_at_hand(&self) -> usize
        ensures { result ≡ slots_within self.now }
    {
        let mut count = 0;
        let mut from = 0;
        'pages: while let Some(vpn) = self.pages.first_from(from) {
            count += slot_at(&self.pages, vpn);
            from = vpn + 1;
        }
        count
    }
}

/// Whether a page has a slot at hand, as a number.
fn slot_at<L: Ledger, S: SwapSlot>(pages: &PageMap<StoredPage<L, S>>, vpn: u32) -> usize
    requires { vpn < 2 ^ 20 }
    ensures count { result ≡ cond (page_passes (λ page. is_kept (slot_of page.place))
        (page_at pages.now vpn)) 1 0 }
    ensures few { result ≤ 1 }
{
    if has_slot(pages, vpn) { 1 } else { 0 }
}

#[tactic(auto, using(crate::proofs::HeldLaws::slotted_by), unfolding(crate::specs::Paged::page_at))]
fn has_slot<L: Ledger, S: SwapSlot>(pages: &PageMap<StoredPage<L, S>>, vpn: u32) -> bool
    requires { vpn < 2 ^ 20 }
    ensures { result ≡ page_passes (λ page. is_kept (slot_of page.place)) (page_at pages.now vpn) }
{
    let Some(place) = pages.place(vpn) else {
        return false;
    };
    pages.at(place).has_slot()
}

/// Whether a page is resident, and whether it holds a frame, as numbers.
#[tactic(auto, using(crate::proofs::HeldLaws::resident_by, crate::proofs::HeldLaws::framed_by))]
fn held_at<L: Ledger, S: SwapSlot>(pages: &PageMap<StoredPage<L, S>>, vpn: u32) -> HeldPages
    requires { vpn < 2 ^ 20 }
    ensures resident { result.resident ≡ cond (page_passes (λ page. is_resident_place page.place &&
        true) (page_at pages.now vpn)) 1 0 }
    ensures framed { result.framed ≡ cond (page_passes (λ page. frame_passes (λ _.
        true) (frame_of page.place)) (page_at pages.now vpn)) 1 0 }
    ensures few_resident { result.resident ≤ 1 }
    ensures few_framed { result.framed ≤ 1 }
{
    held_by(state_in(pages, vpn))
}

/// The same of a page that is there, or none.
fn held_by(state: Option<PageState>) -> HeldPages
    ensures resident { result.resident ≡ cond (is_resident_stage state) 1 0 }
    ensures framed { result.framed ≡ cond (has_frame_stage state) 1 0 }
    ensures few_resident { result.resident ≤ 1 }
    ensures few_framed { result.framed ≤ 1 }
{
    let (resident, framed) = match state {
        Some(PageState::Resident) => (1, 1),
        Some(PageState::Leaving | PageState::Saving) => (0, 1),
        Some(PageState::Fresh | PageState::Away | PageState::Purged) => (0, 0),
        None => (0, 0),
    };
    HeldPages { resident, framed }
}
