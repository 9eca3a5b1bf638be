//! The state of a page, its accessed bit (read and cleared), and the beginning of its eviction.

ghost use Rattle.std.specs.Prelude.{◌≡◌, ◌<◌, ◌^◌, Some, None, option_map, OnSome, IfNone, OnOk};
ghost use Rattle.std.specs.Prelude.{OnErr, IfErr};
ghost use Rattle.page_store.specs.PageValue.{page_state_of};
ghost use Rattle.paged_memory.specs.Paged.{page_at, memory_of};
ghost use Rattle.paged_memory.specs.Calls.{ChangesBy, Leaves, RefusesLeave};
ghost use Rattle.paged_memory.specs.moves.Moving.{BeginsToLeave, DoesNotLeave, ForgetsUse};
ghost use Rattle.paged_memory.specs.Whole.{accessed_in, stage_in};

use crate::memory::PagedMemory;
use crate::placing::place_there;
use page_memory::PageMap;
use page_store::{LeaveRefusal, PageState, StoredPage};
use std::sync::ledger::Ledger;
use swap_slots::SwapSlot;

impl<L: Ledger, S: SwapSlot> PagedMemory<L, S> {
    /// Where a page is, or `None` where none is mapped.
    pub fn state(&self, vpn: u32) -> Option<PageState>
        requires { vpn < 2 ^ 20 }
        ensures { result ≡ stage_in self.now vpn }
    {
        state_in(&self.pages, vpn)
    }

    /// Clears the mark that a resident page was used, and answers what it was, or `None` where the page is not resident.
    /// Its translations are marked as ones to be dropped, so that the next use marks it again.
    pub fn test_and_clear_accessed(&mut self, vpn: u32) -> Option<bool>
        requires { vpn < 2 ^ 20 }
        ensures answer { result ≡ accessed_in self.old vpn }
        ensures forgets { OnSome result (ForgetsUse vpn self.old self.new) }
        ensures gone { IfNone result (self.new ≡ self.old) }
        ensures process { self.new.process ≡ self.old.process }
        ensures reserved { self.new.reserved ≡ self.old.reserved }
    {
        // A resident page has an entry, and no other has: the page itself is not looked at.
        match self.tables.test_and_clear_accessed(vpn) {
            None => None,
            Some(accessed) => {
                self.caches.doom(vpn);
                Some(accessed)
            }
        }
    }

    /// A resident page begins to leave its frame: it is unmapped, and its translations are marked as ones to be dropped.
    /// The frame stays with it until `collect`.
    pub fn begin_evict(&mut self, vpn: u32) -> Result<(), LeaveRefusal>
        requires { vpn < 2 ^ 20 }
        ensures ok { OnOk result (BeginsToLeave vpn self.old self.new) }
        ensures refused { IfErr result (λ refusal. DoesNotLeave vpn refusal self.old) }
        ensures err { OnErr result (self.new ≡ self.old) }
        ensures process { self.new.process ≡ self.old.process }
        ensures memory { memory_of S.content self.new ≡ memory_of S.content self.old }
    {
        refuse_leave(&self.pages, vpn)?;
        let changed = self.tables.is_dirty(vpn);
        leave(&mut self.pages, vpn, changed);
        self.tables.unmap(vpn);
        self.caches.doom(vpn);
        Ok(())
    }
}

#[tactic(auto, unfolding(crate::specs::Paged::page_at))]
pub(crate) fn state_in<L: Ledger, S: SwapSlot>(
    pages: &PageMap<StoredPage<L, S>>,
    vpn: u32,
) -> Option<PageState>
    requires { vpn < 2 ^ 20 }
    ensures { result ≡ option_map (λ page. page_state_of page.place) (page_at pages.now vpn) }
{
    let place = pages.place(vpn)?;
    Some(pages.at(place).state())
}

/// Why a page does not begin to leave, if it does not.
#[tactic(auto, unfolding(crate::specs::Paged::page_at))]
fn refuse_leave<L: Ledger, S: SwapSlot>(
    pages: &PageMap<StoredPage<L, S>>,
    vpn: u32,
) -> Result<(), LeaveRefusal>
    requires { vpn < 2 ^ 20 }
    ensures resident { OnOk result (option_map (λ page. page_state_of page.place)
        (page_at pages.now vpn) ≡ Some PageState.Resident) }
    ensures refused { IfErr result (RefusesLeave (page_at pages.now vpn)) }
{
    match state_in(pages, vpn) {
        Some(PageState::Resident) => Ok(()),
        Some(PageState::Leaving) => Err(LeaveRefusal::AlreadyLeaving),
        Some(PageState::Saving) => Err(LeaveRefusal::AlreadyLeaving),
        _ => Err(LeaveRefusal::NotResident),
    }
}

/// A resident page begins to leave.
fn leave<L: Ledger, S: SwapSlot>(pages: &mut PageMap<StoredPage<L, S>>, vpn: u32, changed: bool)
    requires vpn { vpn < 2 ^ 20 }
    requires resident { option_map (λ page. page_state_of page.place) (page_at pages.old vpn) ≡
        Some PageState.Resident }
    ensures { ChangesBy (Leaves changed) pages.old pages.new vpn }
{
    let place = place_there(&*pages, vpn);
    let _ = pages.at_mut(place).leave(changed);
}
