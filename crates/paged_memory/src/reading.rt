//! Fetches and loads from paged memory: from a page that is ready, else by a hart's cache or a walk.

ghost use Rattle.std.specs.Prelude.{◌≡◌, ◌<◌, ◌%◌, length, is_some, Some, Ok, OnOk, true, IfOk};
ghost use Rattle.std.specs.Prelude.{IfErr, IfSome};
ghost use Rattle.page_memory.specs.Words.{page_number, page_offset, bytes_in};
ghost use Rattle.page_memory.specs.Pages.{answer_by, number_at, aligned_page, usable, fetched};
ghost use Rattle.page_memory.specs.Pages.{loaded};
ghost use Rattle.page_memory.specs.declared.words.Access.{Access};
ghost use Rattle.page_store.specs.PageValue.{content, writable};
ghost use Rattle.rv_exec.specs.Answers.{BusRefuses};
ghost use Rattle.paged_memory.specs.Paged.{Holds, flat_pages};
ghost use Rattle.paged_memory.specs.access.Replies.{loaded_by};
ghost use Rattle.paged_memory.specs.access.Access.{HasPage, LacksPage, MarksUse, Serves, TakesStores, UsesBytes};
ghost use Rattle.paged_memory.specs.access.Access.{cache_of};
ghost use Rattle.paged_memory.specs.access.OnePage.{AnswersUse, UsesPage};

use crate::access::{at_hand, reach};
use crate::caches::Caches;
use crate::reply::LoadReply;
use page_memory::{Access, MemoryFault, PageMap, Width, number};
use page_store::StoredPage;
use rv_exec::BusError;
use std::sync::ledger::Ledger;
use sv32_table::PageTables;
use swap_slots::SwapSlot;

/// The bytes of a page that has a frame.
#[inline]
pub(crate) fn bytes_of<L: Ledger, S: SwapSlot>(page: &StoredPage<L, S>) -> &[u8; 4096]
    requires { is_some (writable page.now.place) ≡ true }
    ensures bytes { result.now ≡ content S.content page.now }
    ensures whole { length result.now ≡ 4096 }
{
    match page.frame() {
        Some(frame) => frame.bytes(),
        None => {
            // One of none of no pages: no test of the page's state is left, where `unreachable!()` leaves one.
            let none: [&[u8; 4096]; 0] = [];
            none[0]
        }
    }
}

/// The bytes of a page that is ready for an aligned access, and the access's offset in them.
#[derive(Clone, Copy)]
pub(crate) struct ReadyBytes<'a> {
    pub(crate) page: &'a [u8; 4096],
    pub(crate) offset: usize,
}

/// Where an aligned access of a hart reads, if the address's page is ready.
#[inline]
pub(crate) fn read_ready<'a, L: Ledger, S: SwapSlot>(
    pages: &'a PageMap<StoredPage<L, S>>,
    tables: &PageTables,
    caches: &Caches,
    hart: usize,
    access: Access,
    width: Width,
    address: u32,
) -> Option<ReadyBytes<'a>>
    requires hart { hart < length caches.now }
    requires holds { Holds S.content S.honest pages.now tables.now caches.now }
    ensures aligned { IfSome result (λ _. address % bytes_in width ≡ 0) }
    ensures offset { IfSome result (λ ready. ready.offset ≡ page_offset address) }
    ensures bytes { IfSome result (λ ready. UsesBytes
        (usable (flat_pages S.content pages.now) access address) ready.page.now) }
    ensures whole { IfSome result (λ ready. length ready.page.now ≡ 4096) }
    ensures has { IfSome result (λ _. HasPage pages.now (cache_of caches.now hart)
        (page_number address)) }
    ensures marked { IfSome result (λ _. MarksUse pages.now tables.now
        (cache_of caches.now hart) access (page_number address)) }
    ensures serves { IfSome result (λ _. Serves (cache_of caches.now hart) access
        (page_number address)) }
{
    match at_hand(pages, tables, caches, hart, access, width, address) {
        Some(spot) => Some(ReadyBytes {
            page: bytes_of(pages.at(spot.place)),
            offset: spot.offset,
        }),
        None => None,
    }
}

/// The bytes of a page that a hart reads.
#[inline]
#[tactic(auto, using(crate::proofs::access_laws::HitLaws::reaches_takes))]
pub(crate) fn read<'a, L: Ledger, S: SwapSlot>(
    pages: &'a PageMap<StoredPage<L, S>>,
    tables: &mut PageTables,
    caches: &mut Caches,
    hart: usize,
    access: Access,
    address: u32,
) -> Result<&'a [u8; 4096], BusError>
    requires hart { hart < length caches.old }
    requires holds { Holds S.content S.honest pages.now tables.old caches.old }
    ensures holds { Holds S.content S.honest pages.now tables.new caches.new }
    ensures bytes { IfOk result (λ bytes. UsesBytes
        (usable (flat_pages S.content pages.now) access address) bytes.now) }
    ensures whole { IfOk result (λ bytes. length bytes.now ≡ 4096) }
    ensures refused { IfErr result (BusRefuses (LacksPage pages.now) address
        (usable (flat_pages S.content pages.now) access address)) }
    ensures uses { UsesPage hart access (page_number address) result pages.now tables.old
        tables.new caches.old caches.new }
    ensures takes { access ≡ Access.Store →
        OnOk result (TakesStores pages.now tables.new (page_number address)) }
    ensures has { OnOk result (HasPage pages.now (cache_of caches.old hart) (page_number address)) }
    ensures marked { OnOk result (MarksUse pages.now tables.new (cache_of caches.old hart) access
        (page_number address)) }
{
    match reach(pages, tables, caches, hart, access, address) {
        Ok(place) => Ok(bytes_of(pages.at(place))),
        Err(refusal) => Err(refusal),
    }
}

/// The word at an address, to be run, from a page that is not ready, which it makes ready.
#[cold]
#[inline(never)]
#[tactic(auto, unfolding(page_memory::specs::Pages::fetched, page_memory::specs::Pages::aligned_page))]
pub(crate) fn fetch_anew<L: Ledger, S: SwapSlot>(
    pages: &PageMap<StoredPage<L, S>>,
    tables: &mut PageTables,
    caches: &mut Caches,
    hart: usize,
    address: u32,
) -> LoadReply
    requires hart { hart < length caches.old }
    requires holds { Holds S.content S.honest pages.now tables.old caches.old }
    ensures holds { Holds S.content S.honest pages.now tables.new caches.new }
    ensures answer { AnswersUse hart Access.Fetch pages.now tables.new caches.old address
        (fetched (flat_pages S.content pages.now) address) (loaded_by result) }
    ensures uses { UsesPage hart Access.Fetch (page_number address) (loaded_by result) pages.now
        tables.old tables.new caches.old caches.new }
{
    if address % 4 != 0 {
        return LoadReply::Misaligned;
    }
    match read(pages, tables, caches, hart, Access::Fetch, address) {
        Ok(page) => LoadReply::Number(number(page, Width::Word, address)),
        Err(BusError::Absent(page)) => LoadReply::Absent(page),
        Err(BusError::Fault(MemoryFault::Misaligned)) => LoadReply::Misaligned,
        Err(BusError::Fault(MemoryFault::PageFault)) => LoadReply::PageFault,
    }
}

/// The number at an address, not extended, from a page that is not ready, which it makes ready.
#[cold]
#[inline(never)]
#[tactic(auto, unfolding(page_memory::specs::Pages::loaded, page_memory::specs::Pages::aligned_page))]
pub(crate) fn load_anew<L: Ledger, S: SwapSlot>(
    pages: &PageMap<StoredPage<L, S>>,
    tables: &mut PageTables,
    caches: &mut Caches,
    hart: usize,
    width: Width,
    address: u32,
) -> LoadReply
    requires hart { hart < length caches.old }
    requires holds { Holds S.content S.honest pages.now tables.old caches.old }
    ensures holds { Holds S.content S.honest pages.now tables.new caches.new }
    ensures answer { AnswersUse hart Access.Load pages.now tables.new caches.old address
        (loaded (flat_pages S.content pages.now) width address) (loaded_by result) }
    ensures uses { UsesPage hart Access.Load (page_number address) (loaded_by result) pages.now
        tables.old tables.new caches.old caches.new }
{
    if address % width.bytes() != 0 {
        return LoadReply::Misaligned;
    }
    match read(pages, tables, caches, hart, Access::Load, address) {
        Ok(page) => LoadReply::Number(number(page, width, address)),
        Err(BusError::Absent(page)) => LoadReply::Absent(page),
        Err(BusError::Fault(MemoryFault::Misaligned)) => LoadReply::Misaligned,
        Err(BusError::Fault(MemoryFault::PageFault)) => LoadReply::PageFault,
    }
}

/// Loads the word that is to be replaced, or might have been: to tables and caches it is a store.
#[tactic(auto, unfolding(page_memory::specs::Pages::aligned_page))]
pub(crate) fn load_to_replace<L: Ledger, S: SwapSlot>(
    pages: &PageMap<StoredPage<L, S>>,
    tables: &mut PageTables,
    caches: &mut Caches,
    hart: usize,
    address: u32,
) -> Result<u32, BusError>
    requires hart { hart < length caches.old }
    requires holds { Holds S.content S.honest pages.now tables.old caches.old }
    ensures holds { Holds S.content S.honest pages.now tables.new caches.new }
    ensures answer { AnswersUse hart Access.Store pages.now tables.new caches.old address
        (answer_by (number_at 4 address) (aligned_page (flat_pages S.content pages.now)
        Access.Store 4 address)) result }
    ensures uses { UsesPage hart Access.Store (page_number address) result pages.now tables.old
        tables.new caches.old caches.new }
    ensures takes { OnOk result (TakesStores pages.now tables.new (page_number address)) }
{
    if address % 4 != 0 {
        return Err(BusError::Fault(MemoryFault::Misaligned));
    }
    match read(pages, tables, caches, hart, Access::Store, address) {
        Ok(page) => Ok(number(page, Width::Word, address)),
        Err(refusal) => Err(refusal),
    }
}
