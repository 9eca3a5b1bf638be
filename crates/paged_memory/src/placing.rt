//! The place of a page that is there.

ghost use Rattle.std.specs.Prelude.{◌≡◌, ◌≢◌, ◌<◌, ◌^◌, Some, None, length};
ghost use Rattle.page_memory.specs.Entries.{place_of};
ghost use Rattle.paged_memory.specs.Paged.{page_at};

use page_memory::PageMap;
use page_store::StoredPage;
use std::sync::ledger::Ledger;
use swap_slots::SwapSlot;

/// The place of a page that is there.
pub(crate) fn place_there<L: Ledger, S: SwapSlot>(
    pages: &PageMap<StoredPage<L, S>>,
    vpn: u32,
) -> usize
    requires vpn { vpn < 2 ^ 20 }
    requires there { page_at pages.now vpn ≢ None }
    ensures place { place_of vpn pages.now ≡ Some result }
    ensures within { result < length pages.now }
{
    match pages.place(vpn) {
        Some(place) => place,
        None => unreachable!(),
    }
}
