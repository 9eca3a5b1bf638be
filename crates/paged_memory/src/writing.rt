//! Stores, atomic operations and copies into paged memory: to a page that is ready, else by cache or walk.

ghost use Rattle.std.specs.Prelude.{◌≡◌, ◌+◌, ◌≤◌, ◌<◌, ◌%◌, length, is_some, Some, Ok, true};
ghost use Rattle.std.specs.Prelude.{false};
ghost use Rattle.paged_memory.specs.access.Access.{HasPage, KeepsBare, MarksUse, Serves};
ghost use Rattle.paged_memory.specs.access.Access.{TakesStores, cache_of};
ghost use Rattle.std.specs.Prelude.{ℕ, drop};
ghost use Rattle.page_memory.specs.Words.{page_number, page_offset, bytes_in};
ghost use Rattle.page_memory.specs.Pages.{overwritten, stored, replaced, copied_in};
ghost use Rattle.byteorder.specs.Endian.{little_bytes, little_number};
ghost use Rattle.page_store.specs.PageValue.{content, writable};
ghost use Rattle.page_store.specs.Lending.{with_bytes};
ghost use Rattle.rv_exec.specs.Amo.{amo_result};
ghost use Rattle.rv_exec.specs.Answers.{with_answer};
ghost use Rattle.page_memory.specs.declared.words.Access.{Access};
ghost use Rattle.paged_memory.specs.Paged.{Holds, flat_pages};
ghost use Rattle.paged_memory.specs.access.Replies.{stored_by};
ghost use Rattle.paged_memory.specs.access.OnePage.{AnswersUse, WritesPage};

use crate::access::{at_hand, reach};
use crate::caches::Caches;
use crate::reading::bytes_of;
use crate::reply::StoreReply;
use page_memory::{
    Access, MemoryFault, PageMap, Width, number_from, offset_in_page, put_bytes, put_number_from,
};
use page_store::StoredPage;
use rv_exec::{BusError, amo_word};
use rv_isa::AmoKind;
use std::sync::ledger::Ledger;
use sv32_table::PageTables;
use swap_slots::SwapSlot;

/// Writes the low bytes of a word at an aligned offset of a page that has a frame.
#[inline]
fn put_number_in<L: Ledger, S: SwapSlot>(
    page: &mut StoredPage<L, S>,
    width: Width,
    offset: usize,
    word: u32,
)
    requires framed { is_some (writable page.old.place) ≡ true }
    requires aligned { offset % bytes_in width ≡ 0 }
    requires small { offset < 4096 }
    ensures { page.new ≡ with_bytes page.old (overwritten (content S.content page.old)
        offset (little_bytes (bytes_in width) word)) }
{
    match page.bytes_mut() {
        Some(bytes) => put_number_from(bytes, width, offset, word),
        None => {
            // A byte of none of no pages: no test of the page's state is left, where `unreachable!()` leaves one.
            let mut none: [&mut [u8; 4096]; 0] = [];
            none[0][0] = 0;
        }
    }
}

/// Writes bytes into a page that has a frame, from an offset on.
fn put_bytes_in<L: Ledger, S: SwapSlot>(page: &mut StoredPage<L, S>, offset: usize, from: &[u8])
    requires framed { is_some (writable page.old.place) ≡ true }
    requires within { offset + length from.now ≤ 4096 }
    ensures { page.new ≡ with_bytes page.old (overwritten
        (content S.content page.old) offset from.now) }
{
    if let Some(bytes) = page.bytes_mut() {
        put_bytes(bytes, offset, from);
    }
}

/// Replaces the word at an aligned offset of a page that has a frame by an operation's result, and answers the old word.
#[inline]
fn replace_word_in<L: Ledger, S: SwapSlot>(
    page: &mut StoredPage<L, S>,
    offset: usize,
    operation: AmoKind,
    operand: u32,
) -> u32
    requires framed { is_some (writable page.old.place) ≡ true }
    requires aligned { offset % 4 ≡ 0 }
    requires small { offset < 4096 }
    ensures old { result ≡ little_number 4 (drop offset (content S.content page.old)) }
    ensures page { page.new ≡ with_bytes page.old (overwritten (content S.content page.old)
        offset (little_bytes 4 (amo_result operation result operand))) }
{
    let old = number_from(bytes_of(page), Width::Word, offset);
    let word = amo_word(operation, old, operand);
    put_number_in(page, Width::Word, offset, word);
    old
}

/// Stores the low bytes of a word.
#[inline]
#[tactic(auto, using(crate::proofs::access_laws::HitLaws::reaches_takes))]
pub(crate) fn store<L: Ledger, S: SwapSlot>(
    pages: &mut PageMap<StoredPage<L, S>>,
    tables: &mut PageTables,
    caches: &mut Caches,
    hart: usize,
    width: Width,
    address: u32,
    word: u32,
) -> Result<(), BusError>
    requires hart { hart < length caches.old }
    requires holds { Holds S.content S.honest pages.old tables.old caches.old }
    ensures answer { let after = with_answer (λ _. flat_pages S.content pages.new) result in
        AnswersUse hart Access.Store pages.old tables.new caches.old address
        (stored (flat_pages S.content pages.old) width address word) after }
    ensures writes { WritesPage S.content S.honest hart (page_number address) result pages.old
        pages.new tables.old tables.new caches.old caches.new }
{
    match at_hand(pages, tables, caches, hart, Access::Store, width, address) {
        Some(spot) => {
            put_number_in(pages.at_mut(spot.place), width, spot.offset, word);
            Ok(())
        }
        None => match store_anew(pages, tables, caches, hart, width, address, word) {
            StoreReply::Done => Ok(()),
            StoreReply::Absent(page) => Err(BusError::Absent(page)),
            StoreReply::Misaligned => Err(BusError::Fault(MemoryFault::Misaligned)),
            StoreReply::PageFault => Err(BusError::Fault(MemoryFault::PageFault)),
        },
    }
}

/// Stores the low bytes of a word in a page that is ready, and answers whether it was.
#[inline(always)]
#[tactic(auto, using(crate::proofs::access_laws::HitLaws::reaches_takes))]
pub(crate) fn store_ready<L: Ledger, S: SwapSlot>(
    pages: &mut PageMap<StoredPage<L, S>>,
    tables: &PageTables,
    caches: &Caches,
    hart: usize,
    width: Width,
    address: u32,
    word: u32,
) -> bool
    requires hart { hart < length caches.now }
    requires holds { Holds S.content S.honest pages.old tables.now caches.now }
    ensures holds { Holds S.content S.honest pages.new tables.now caches.now }
    ensures stored { result ≡ true → stored (flat_pages S.content pages.old) width address word ≡
        Ok (flat_pages S.content pages.new) }
    ensures has { result ≡ true → HasPage pages.old (cache_of caches.now hart)
        (page_number address) }
    ensures marked { result ≡ true → MarksUse pages.old tables.now (cache_of caches.now hart)
        Access.Store (page_number address) }
    ensures takes { result ≡ true → TakesStores pages.old tables.now (page_number address) }
    ensures serves { result ≡ true → Serves (cache_of caches.now hart) Access.Store
        (page_number address) }
    ensures bare { result ≡ true → KeepsBare (page_number address) pages.old pages.new }
    ensures other { result ≡ false → pages.new ≡ pages.old }
{
    match at_hand(pages, tables, caches, hart, Access::Store, width, address) {
        Some(spot) => {
            put_number_in(pages.at_mut(spot.place), width, spot.offset, word);
            true
        }
        None => false,
    }
}

/// The same in a page that is not ready, which it makes ready.
#[cold]
#[inline(never)]
#[tactic(auto, using(crate::proofs::access_laws::HitLaws::reaches_takes))]
fn store_anew<L: Ledger, S: SwapSlot>(
    pages: &mut PageMap<StoredPage<L, S>>,
    tables: &mut PageTables,
    caches: &mut Caches,
    hart: usize,
    width: Width,
    address: u32,
    word: u32,
) -> StoreReply
    requires hart { hart < length caches.old }
    requires holds { Holds S.content S.honest pages.old tables.old caches.old }
    ensures answer { let after = with_answer (λ _. flat_pages S.content pages.new)
        (stored_by result) in
        AnswersUse hart Access.Store pages.old tables.new caches.old address
        (stored (flat_pages S.content pages.old) width address word) after }
    ensures writes { WritesPage S.content S.honest hart (page_number address) (stored_by result)
        pages.old pages.new tables.old tables.new caches.old caches.new }
{
    if address % width.bytes() != 0 {
        return StoreReply::Misaligned;
    }
    match reach(pages, tables, caches, hart, Access::Store, address) {
        Ok(place) => {
            put_number_in(pages.at_mut(place), width, offset_in_page(address), word);
            StoreReply::Done
        }
        Err(BusError::Absent(page)) => StoreReply::Absent(page),
        Err(BusError::Fault(fault)) => match fault {
            MemoryFault::Misaligned => StoreReply::Misaligned,
            MemoryFault::PageFault => StoreReply::PageFault,
        },
    }
}

/// Copies a slice into one page.
#[tactic(auto, using(crate::proofs::access_laws::HitLaws::reaches_takes))]
pub(crate) fn copy_in<L: Ledger, S: SwapSlot>(
    pages: &mut PageMap<StoredPage<L, S>>,
    tables: &mut PageTables,
    caches: &mut Caches,
    hart: usize,
    address: u32,
    from: &[u8],
) -> Result<(), BusError>
    requires hart { hart < length caches.old }
    requires within { page_offset address + length from.now ≤ 4096 }
    requires holds { Holds S.content S.honest pages.old tables.old caches.old }
    ensures answer { let after = with_answer (λ _. flat_pages S.content pages.new) result in
        AnswersUse hart Access.Store pages.old tables.new caches.old address
        (copied_in (flat_pages S.content pages.old) address from.now) after }
    ensures writes { WritesPage S.content S.honest hart (page_number address) result pages.old
        pages.new tables.old tables.new caches.old caches.new }
{
    match reach(pages, tables, caches, hart, Access::Store, address) {
        Ok(place) => {
            put_bytes_in(pages.at_mut(place), offset_in_page(address), from);
            Ok(())
        }
        Err(refusal) => Err(refusal),
    }
}

/// Replaces the word at an address by an operation's result, in one step, and answers the old word.
#[tactic(auto, using(crate::proofs::access_laws::HitLaws::reaches_takes))]
pub(crate) fn amo<L: Ledger, S: SwapSlot>(
    pages: &mut PageMap<StoredPage<L, S>>,
    tables: &mut PageTables,
    caches: &mut Caches,
    hart: usize,
    address: u32,
    operation: AmoKind,
    operand: u32,
) -> Result<u32, BusError>
    requires hart { hart < length caches.old }
    requires holds { Holds S.content S.honest pages.old tables.old caches.old }
    ensures answer { let update = λ (old : ℕ). amo_result operation old operand in
        let after = with_answer (λ old. (old, flat_pages S.content pages.new)) result in
        AnswersUse hart Access.Store pages.old tables.new caches.old address
        (replaced (flat_pages S.content pages.old) update address) after }
    ensures writes { WritesPage S.content S.honest hart (page_number address) result pages.old
        pages.new tables.old tables.new caches.old caches.new }
{
    match at_hand(
        pages,
        tables,
        caches,
        hart,
        Access::Store,
        Width::Word,
        address,
    ) {
        Some(spot) => Ok(replace_word_in(
            pages.at_mut(spot.place),
            spot.offset,
            operation,
            operand,
        )),
        None => amo_anew(pages, tables, caches, hart, address, operation, operand),
    }
}

/// The same in a page that is not ready, which it makes ready.
#[cold]
#[inline(never)]
#[tactic(auto, using(crate::proofs::access_laws::HitLaws::reaches_takes))]
fn amo_anew<L: Ledger, S: SwapSlot>(
    pages: &mut PageMap<StoredPage<L, S>>,
    tables: &mut PageTables,
    caches: &mut Caches,
    hart: usize,
    address: u32,
    operation: AmoKind,
    operand: u32,
) -> Result<u32, BusError>
    requires hart { hart < length caches.old }
    requires holds { Holds S.content S.honest pages.old tables.old caches.old }
    ensures answer { let update = λ (old : ℕ). amo_result operation old operand in
        let after = with_answer (λ old. (old, flat_pages S.content pages.new)) result in
        AnswersUse hart Access.Store pages.old tables.new caches.old address
        (replaced (flat_pages S.content pages.old) update address) after }
    ensures writes { WritesPage S.content S.honest hart (page_number address) result pages.old
        pages.new tables.old tables.new caches.old caches.new }
{
    if address % 4 != 0 {
        return Err(BusError::Fault(MemoryFault::Misaligned));
    }
    match reach(pages, tables, caches, hart, Access::Store, address) {
        Ok(place) => {
            let offset = offset_in_page(address);
            Ok(replace_word_in(pages.at_mut(place), offset, operation, operand))
        }
        Err(refusal) => Err(refusal),
    }
}
