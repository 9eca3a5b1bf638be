//! Where a hart's access finds its page: by the hart's cache, else by a walk, which refills the cache.

ghost use Rattle.std.specs.Prelude.{◌≡◌, ◌↔◌, ℕ, ◌<◌, ◌^◌, ◌%◌, length, Some, None, IfSome, IfOk};
ghost use Rattle.std.specs.Prelude.{IfErr, OnOk, true, OnErr};
ghost use Rattle.page_memory.specs.Words.{page_number, page_offset, bytes_in};
ghost use Rattle.page_memory.specs.declared.words.Access.{Access};
ghost use Rattle.sv32_table.specs.Entry.{entry_of};
ghost use Rattle.sv32_table.specs.EntryAt.{dirty_of, entry_at};
ghost use Rattle.paged_memory.specs.Paged.{Holds, seen_at};
ghost use Rattle.paged_memory.specs.Seen.{is_dirty, is_used};
ghost use Rattle.tlb_core.specs.Cache.{Hits, translation_of};
ghost use Rattle.paged_memory.specs.declared.caches.Miss.{Miss};
ghost use Rattle.paged_memory.specs.access.Access.{Reaches, RefusesAccess, Locates, HasPage, MarksUse, Serves};
ghost use Rattle.paged_memory.specs.access.Access.{KeepsTranslations, MayWalk, cache_of, resident_frame};
ghost use Rattle.paged_memory.specs.access.OnePage.{ReachesPage};

use crate::caches::{Caches, Miss};
use page_memory::{Access, MemoryFault, PageMap, Rights, Width, page_of};
use page_store::{PageState, StoredPage};
use rv_exec::BusError;
use std::sync::ledger::Ledger;
use sv32_table::{Leaf, PageTables, WalkFault};
use swap_slots::SwapSlot;
use tlb_core::{Spot, Translation};

/// Where an aligned access of a hart has its bytes, if the address's page is ready.
#[inline]
pub(crate) fn at_hand<L: Ledger, S: SwapSlot>(
    pages: &PageMap<StoredPage<L, S>>,
    tables: &PageTables,
    caches: &Caches,
    hart: usize,
    access: Access,
    width: Width,
    address: u32,
) -> Option<Spot>
    requires hart { hart < length caches.now }
    requires holds { Holds S.content S.honest pages.now tables.now caches.now }
    ensures aligned { IfSome result (λ _. address % bytes_in width ≡ 0) }
    ensures offset { IfSome result (λ spot. spot.offset ≡ page_offset address) }
    ensures reaches { IfSome result (λ spot. Reaches pages.now tables.now access
        (page_number address) spot.place) }
    ensures has { IfSome result (λ _. HasPage pages.now (cache_of caches.now hart)
        (page_number address)) }
    ensures marked { IfSome result (λ _. MarksUse pages.now tables.now
        (cache_of caches.now hart) access (page_number address)) }
    ensures serves { IfSome result (λ _. Serves (cache_of caches.now hart) access
        (page_number address)) }
{
    caches.ready(hart, access, width, address)
}

/// The place of a page that a hart's cache shows for an access.
#[inline]
fn hit(caches: &Caches, hart: usize, access: Access, page: u32) -> Result<usize, Miss>
    requires { hart < length caches.now }
    ensures hits { IfOk result (λ place. Hits (cache_of caches.now hart) access page place) }
    ensures none { OnErr result ((place : ℕ) →
        ¬ Hits (cache_of caches.now hart) access page place) }
    ensures unknown { IfErr result (λ miss. (miss ≡ Miss.Unknown) ↔
        (translation_of page (cache_of caches.now hart) ≡ None)) }
{
    let Some(entry) = caches.look(hart, page) else {
        return Err(Miss::Unknown);
    };
    if !entry.rights.allow(access) {
        return Err(Miss::Unfit);
    }
    match access {
        Access::Store if !entry.dirty => Err(Miss::Unfit),
        _ => Ok(entry.place),
    }
}

/// Whether a page is at hand for a hart's fetches: its cache shows the page.
#[inline]
pub(crate) fn is_fetched_at_once<L: Ledger, S: SwapSlot>(
    pages: &PageMap<StoredPage<L, S>>,
    tables: &PageTables,
    caches: &Caches,
    hart: usize,
    page: u32,
) -> bool
    requires hart { hart < length caches.now }
    requires holds { Holds S.content S.honest pages.now tables.now caches.now }
    ensures has { result ≡ true → HasPage pages.now (cache_of caches.now hart) page }
    ensures marked { result ≡ true → MarksUse pages.now tables.now (cache_of caches.now hart)
        Access.Fetch page }
    ensures serves { result ≡ true → Serves (cache_of caches.now hart) Access.Fetch page }
{
    let _ = pages;
    let _ = tables;
    match hit(caches, hart, Access::Fetch, page) {
        Ok(_) => true,
        Err(_) => false,
    }
}

/// The number of a resident page's frame.
fn frame_number<L: Ledger, S: SwapSlot>(page: &StoredPage<L, S>) -> Option<u32>
    ensures { result ≡ resident_frame page.now.place }
{
    match page.state() {
        PageState::Resident => Some(page.frame()?.number()),
        _ => None,
    }
}

/// Where a resident page is that an access may use.
pub(crate) struct Located {
    place: usize,
    frame: u32,
    rights: Rights,
}

/// Finds a resident page that an access may use. That the right is missing comes before that the page is absent.
fn locate<L: Ledger, S: SwapSlot>(
    pages: &PageMap<StoredPage<L, S>>,
    access: Access,
    page: u32,
) -> Result<Located, BusError>
    requires { page < 2 ^ 20 }
    ensures found { IfOk result (λ found. Locates pages.now access page found.place found.frame
        found.rights) }
    ensures refused { IfErr result (RefusesAccess pages.now access page) }
{
    let Some(place) = pages.place(page) else {
        return Err(BusError::Fault(MemoryFault::PageFault));
    };
    let stored = pages.at(place);
    let rights = stored.rights();
    if !rights.allow(access) {
        return Err(BusError::Fault(MemoryFault::PageFault));
    }
    let Some(frame) = frame_number(stored) else {
        return Err(BusError::Absent(page));
    };
    Ok(Located {
        place,
        frame,
        rights,
    })
}

/// Whether a page's entry has D after a walk: what the leaf says that the walk found.
fn is_dirty_after(tables: &PageTables, page: u32, walked: Result<Leaf, WalkFault>) -> bool
    requires small { page < 2 ^ 20 }
    requires told { IfOk walked (λ leaf. (entry_of leaf.pte.0).dirty ≡
        dirty_of (entry_at tables.now page)) }
    ensures { result ≡ dirty_of (entry_at tables.now page) }
{
    match walked {
        Ok(leaf) => leaf.pte.is_dirty(),
        Err(_) => tables.is_dirty(page),
    }
}

/// Walks the tables for a hart's access to a page that its cache missed so, and caches what they give. Answers the page's place.
#[cold]
fn walk<L: Ledger, S: SwapSlot>(
    pages: &PageMap<StoredPage<L, S>>,
    tables: &mut PageTables,
    caches: &mut Caches,
    hart: usize,
    access: Access,
    page: u32,
    address: u32,
    miss: Miss,
) -> Result<usize, BusError>
    requires page { page ≡ page_number address }
    requires small { page < 2 ^ 20 }
    requires hart { hart < length caches.old }
    requires unknown { miss ≡ Miss.Unknown → translation_of page (cache_of caches.old hart) ≡ None }
    requires missed { (place : ℕ) → ¬ Hits (cache_of caches.old hart) access page place }
    requires holds { Holds S.content S.honest pages.now tables.old caches.old }
    ensures holds { Holds S.content S.honest pages.now tables.new caches.new }
    ensures reaches { IfOk result (λ place. Reaches pages.now tables.new access page place) }
    ensures hits { IfOk result (λ place. Hits (cache_of caches.new hart) access page place) }
    ensures refused { IfErr result (RefusesAccess pages.now access page) }
    ensures kept { KeepsTranslations pages.now hart page tables.old tables.new caches.old
        caches.new }
    ensures entries { MayWalk access page tables.old tables.new }
    ensures unmarked { OnErr result (tables.new ≡ tables.old) }
    ensures unfilled { OnErr result (caches.new ≡ caches.old) }
    ensures has { OnOk result (HasPage pages.now (cache_of caches.old hart) page) }
    ensures used { OnOk result (is_used (seen_at pages.now page) (entry_at tables.new page) ≡
        true) }
    ensures dirtied { access ≡ Access.Store → OnOk result (is_dirty (seen_at pages.now page)
        (entry_at tables.new page) ≡ true) }
{
    let Located {
        place,
        frame,
        rights,
    } = locate(pages, access, page)?;
    let walked = tables.walk(address, access);
    let dirty = is_dirty_after(tables, page, walked);
    caches.fill(
        hart,
        Translation {
            page,
            place,
            frame,
            rights,
            dirty,
            doomed: false,
        },
        miss,
    );
    Ok(place)
}

/// The place of a page for a hart's access, by its cache or by a walk.
fn hit_or_walk<L: Ledger, S: SwapSlot>(
    pages: &PageMap<StoredPage<L, S>>,
    tables: &mut PageTables,
    caches: &mut Caches,
    hart: usize,
    access: Access,
    address: u32,
) -> Result<usize, BusError>
    requires hart { hart < length caches.old }
    requires holds { Holds S.content S.honest pages.now tables.old caches.old }
    ensures holds { Holds S.content S.honest pages.now tables.new caches.new }
    ensures hits { IfOk result (λ place. Hits (cache_of caches.new hart) access
        (page_number address) place) }
    ensures reached { ReachesPage hart access (page_number address) result pages.now tables.old
        tables.new caches.old caches.new }
{
    let page = page_of(address);
    match hit(caches, hart, access, page) {
        Ok(place) => Ok(place),
        Err(miss) => walk(pages, tables, caches, hart, access, page, address, miss),
    }
}

/// The same, and the page is ready for the hart's next access of the kind.
pub(crate) fn reach<L: Ledger, S: SwapSlot>(
    pages: &PageMap<StoredPage<L, S>>,
    tables: &mut PageTables,
    caches: &mut Caches,
    hart: usize,
    access: Access,
    address: u32,
) -> Result<usize, BusError>
    requires hart { hart < length caches.old }
    requires holds { Holds S.content S.honest pages.now tables.old caches.old }
    ensures holds { Holds S.content S.honest pages.now tables.new caches.new }
    ensures reached { ReachesPage hart access (page_number address) result pages.now tables.old
        tables.new caches.old caches.new }
{
    match hit_or_walk(pages, tables, caches, hart, access, address) {
        Ok(place) => {
            caches.remember(hart, access, address, place);
            Ok(place)
        }
        Err(refusal) => Err(refusal),
    }
}
