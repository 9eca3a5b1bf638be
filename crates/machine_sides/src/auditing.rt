//! Whether the list and the pages agree, and no frame is lost.

ghost use Rattle.std.specs.Prelude.{◌≡◌, ◌↔◌, ◌≤◌, ◌*◌, ◌^◌, true, IfSome, IsNone, IsTrue, length};
ghost use Rattle.machine_sides.specs.Auditing.{AgreeEverywhere, AreSound, CountsMore, HoldsAll};
ghost use Rattle.machine_sides.specs.Auditing.{IsListed};

use crate::counting::{entries_of_resident_pages, resident_entries};
use crate::pager_side::PagerSide;
use crate::process_reading::held_pages;
use clock_policy::Clock;
use paged_memory::HeldPages;
use space_core::Space;
use std::sync::ledger::Ledger;
use swap_slots::SwapSlot;

/// Whether the list's resident entries are exactly the resident pages of these processes, each of which is the one of its number,
/// and the frames that are free or in pages are as many as the machine was made with. It takes no memory.
pub fn audit<L: Ledger, S: SwapSlot, C: Clock>(
    pager: &PagerSide<L, C>,
    spaces: &[Space<L, S>],
) -> bool
    requires few { length spaces.now ≤ 2 ^ 32 }
    ensures exact { IsTrue result ↔ AreSound pager.now.pager spaces.now }
    ensures agree { result ≡ true → AgreeEverywhere pager.now.pager spaces.now }
{
    let mut found = HeldPages {
        resident: 0,
        framed: 0,
    };
    'spaces: for number in 0..spaces.len() {
        match count_more(pager, number as u32, &spaces[number], found) {
            Some(more) => found = more,
            None => return false,
        }
    }
    // For the proof only: a read shows that what is read is lawful.
    let _ = pager.question();
    is_all(pager, found)
}

/// Counts the pages of one process more. There is `None` where it is not the one of its number, or where the list has not as
/// many of its resident pages as resident ones as there are.
pub fn count_more<L: Ledger, S: SwapSlot, C: Clock>(
    pager: &PagerSide<L, C>,
    number: u32,
    space: &Space<L, S>,
    found: HeldPages,
) -> Option<HeldPages>
    requires resident { found.resident ≤ number * 2 ^ 20 }
    requires framed { found.framed ≤ number * 2 ^ 20 }
    ensures some { IfSome result (CountsMore pager.now.pager number space.now found) }
    ensures none { IsNone result → IsListed pager.now.pager number space.now → ⊥ }
{
    if space.process() != number {
        return None;
    }
    let pages = held_pages(space);
    if entries_of_resident_pages(pager, space) != pages.resident {
        return None;
    }
    Some(HeldPages {
        resident: found.resident + pages.resident,
        framed: found.framed + pages.framed,
    })
}

/// Whether so many pages are all that the pager knows of.
pub fn is_all<L: Ledger, C: Clock>(pager: &PagerSide<L, C>, found: HeldPages) -> bool
    ensures { IsTrue result ↔ HoldsAll pager.now.pager found }
{
    if resident_entries(pager) != found.resident {
        return false;
    }
    let size = pager.size() as usize;
    let free = pager.counts().pager.free;
    if free > size {
        return false;
    }
    found.framed == size - free
}
