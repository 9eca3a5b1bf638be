//! How many entries of the list are resident.

ghost use Rattle.std.specs.Prelude.{◌≡◌, ◌≤◌, ◌&&◌, true, cond};
ghost use Rattle.clock_policy.specs.Residents.{residents, in_frame};
ghost use Rattle.machine_sides.specs.Held.{is_resident_of};

use crate::pager_side::PagerSide;
use crate::places::is_resident;
use clock_policy::{Clock, EntryKind, Key};
use space_core::Space;
use std::sync::ledger::Ledger;
use swap_slots::SwapSlot;

/// How many entries of the list are resident.
pub(crate) fn resident_entries<L: Ledger, C: Clock>(pager: &PagerSide<L, C>) -> usize
    ensures { result ≡ residents pager.now.pager.list (λ _. true) }
{
    // For the proof only: a read shows that what is read is lawful.
    let _ = pager.question();
    let mut count = 0;
    'entries: for i in 0..usize::MAX {
        let Some((_, kind)) = pager.entry(i) else {
            return count;
        };
        count += one_if(is_in_frame(kind));
    }
    count
}

/// How many of them are of resident pages of a process.
pub(crate) fn entries_of_resident_pages<L: Ledger, S: SwapSlot, C: Clock>(
    pager: &PagerSide<L, C>,
    side: &Space<L, S>,
) -> usize
    ensures { result ≡ residents pager.now.pager.list (is_resident_of side.now) }
{
    // For the proof only: a read shows that what is read is lawful.
    let _ = pager.question();
    let mut count = 0;
    'entries: for i in 0..usize::MAX {
        let Some((key, kind)) = pager.entry(i) else {
            return count;
        };
        count += one_if(is_of_resident_page(side, key, kind));
    }
    count
}

/// Whether an entry is resident, and its page is one of the process that is too.
fn is_of_resident_page<L: Ledger, S: SwapSlot>(
    side: &Space<L, S>,
    key: Key,
    kind: EntryKind,
) -> bool
    ensures { result ≡ in_frame kind && is_resident_of side.now key }
{
    if !is_in_frame(kind) {
        return false;
    }
    if key.process != side.process() {
        return false;
    }
    is_resident(side, key.vpn)
}

fn one_if(flag: bool) -> usize
    ensures value { result ≡ cond flag 1 0 }
    ensures small { result ≤ 1 }
{
    if flag { 1 } else { 0 }
}

/// Whether an entry of this kind has its page in a frame.
fn is_in_frame(kind: EntryKind) -> bool
    ensures { result ≡ in_frame kind }
{
    match kind {
        EntryKind::Hot | EntryKind::Test | EntryKind::Cold => true,
        EntryKind::Shadow => false,
    }
}
