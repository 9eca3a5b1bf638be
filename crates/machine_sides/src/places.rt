//! Where a page of a process is, whatever its number.

ghost use Rattle.std.specs.Prelude.{◌≡◌};
ghost use Rattle.machine_sides.specs.Admitting.{stage_at, is_absent_at, is_resident_at};

use page_memory::PAGE_COUNT;
use page_store::PageState;
use space_core::Space;
use std::sync::ledger::Ledger;
use swap_slots::SwapSlot;

/// Where a page is, or `None` where none is mapped.
pub fn state<L: Ledger, S: SwapSlot>(space: &Space<L, S>, vpn: u32) -> Option<PageState>
    ensures { result ≡ stage_at space.now vpn }
{
    if vpn >= PAGE_COUNT {
        return None;
    }
    space.state(vpn)
}

/// Whether a page is mapped, has no frame and was not given up.
pub(crate) fn is_absent<L: Ledger, S: SwapSlot>(space: &Space<L, S>, vpn: u32) -> bool
    ensures { result ≡ is_absent_at space.now vpn }
{
    match state(space, vpn) {
        Some(PageState::Fresh | PageState::Away) => true,
        Some(PageState::Resident | PageState::Leaving | PageState::Saving | PageState::Purged) =>
            false,
        None => false,
    }
}

/// Whether a page is mapped to its frame.
pub fn is_resident<L: Ledger, S: SwapSlot>(space: &Space<L, S>, vpn: u32) -> bool
    ensures { result ≡ is_resident_at space.now vpn }
{
    match state(space, vpn) {
        Some(PageState::Resident) => true,
        Some(
            PageState::Fresh
            | PageState::Leaving
            | PageState::Saving
            | PageState::Away
            | PageState::Purged,
        ) => false,
        None => false,
    }
}
