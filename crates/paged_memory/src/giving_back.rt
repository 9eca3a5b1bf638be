//! Takes the frames and slots of a process's pages back, one page at a time, by rising page number.

ghost use Rattle.std.specs.Prelude.{◌≡◌, ◌<◌, ◌≤◌, ◌+◌, ◌^◌, ℕ, [], All, IfSome, IfNone};
ghost use Rattle.std.specs.Bool.{OnTrue, OnFalse};
ghost use Rattle.sv32_table.specs.Entry.{blank};
ghost use Rattle.sv32_table.specs.EntryAt.{ChangesEntry, SameTables};
ghost use Rattle.paged_memory.specs.Paged.{Holds, page_at};
ghost use Rattle.paged_memory.specs.Calls.{ChangesBy};
ghost use Rattle.paged_memory.specs.moves.GivingBack.{GivesBack, GivesNothing};
ghost use Rattle.paged_memory.specs.moves.Moving.{GivesIn, HasNothingBelow, LiesBehindIn, SameCaches};
ghost use Rattle.paged_memory.specs.moves.Moving.{SameTablesIn};

use crate::caches::Caches;
use crate::memory::PagedMemory;
use crate::placing::place_there;
use frame_pool::Frame;
use page_memory::PageMap;
use page_store::StoredPage;
use std::sync::ledger::Ledger;
use sv32_table::PageTables;
use swap_slots::SwapSlot;

impl<L: Ledger, S: SwapSlot> PagedMemory<L, S> {
    /// Takes the frame and the slot of the first page, by number, that has either, is not being saved and has no copy out,
    /// once no hart has a translation any more. The page is unmapped, and given up for good. No page before `from` has anything; with what
    /// the page had comes the number from which on others may have something still. `None` where there is no such page.
    #[tactic(auto, using(crate::proofs::move_laws::GivingBackLaws::nothing_as_far))]
    pub fn take_from(&mut self, from: u32) -> Option<((Option<Frame<L>>, Option<S>), u32)>
        requires quiet { All (λ cache. cache ≡ []) self.old.caches }
        requires before { HasNothingBelow from self.old }
        ensures given { IfSome result (λ taken. GivesIn taken.0 self.old self.new) }
        ensures next { IfSome result (λ taken. HasNothingBelow taken.1 self.new) }
        ensures behind { IfSome result (λ taken. LiesBehindIn self.old from taken.1) }
        ensures tabled { SameTablesIn self.old self.new }
        ensures none { IfNone result (HasNothingBelow (2 ^ 20) self.old) }
        ensures left { IfNone result (self.new ≡ self.old) }
        ensures process { self.new.process ≡ self.old.process }
        ensures caches { SameCaches self.old self.new }
        ensures reserved { self.new.reserved ≡ self.old.reserved }
    {
        let vpn = first_with_something(&self.pages, from)?;
        let given = give_back(&mut self.pages, &mut self.tables, &self.caches, vpn);
        Some((given, vpn + 1))
    }
}

/// The first page, by number, that has a frame or a slot, is not being saved and has no copy out. None before `from` has.
fn first_with_something<L: Ledger, S: SwapSlot>(
    pages: &PageMap<StoredPage<L, S>>,
    from: u32,
) -> Option<u32>
    requires { (q : ℕ) → q < from → GivesNothing (page_at pages.now q) }
    ensures small { IfSome result (λ first. first < 2 ^ 20) }
    ensures looked { IfSome result (λ first. from ≤ first) }
    ensures something { IfSome result (λ first. ¬ GivesNothing (page_at pages.now first)) }
    ensures first { IfSome result (λ first. (q : ℕ) → q < first →
        GivesNothing (page_at pages.now q)) }
    ensures none { IfNone result ((q : ℕ) → q < 2 ^ 20 → GivesNothing (page_at pages.now q)) }
{
    let mut from = from;
    while let Some(vpn) = pages.first_from(from) {
        if has_something(pages, vpn) {
            return Some(vpn);
        }
        from = vpn + 1;
    }
    None
}

/// Whether a page has a frame or a slot to give back.
#[tactic(auto, unfolding(crate::specs::Paged::page_at))]
fn has_something<L: Ledger, S: SwapSlot>(pages: &PageMap<StoredPage<L, S>>, vpn: u32) -> bool
    requires { vpn < 2 ^ 20 }
    ensures something { OnTrue result (¬ GivesNothing (page_at pages.now vpn)) }
    ensures nothing { OnFalse result (GivesNothing (page_at pages.now vpn)) }
{
    match pages.place(vpn) {
        Some(place) => pages.at(place).has_to_give(),
        None => false,
    }
}

/// Takes a page's frame and slot, and unmaps it.
fn give_back<L: Ledger, S: SwapSlot>(
    pages: &mut PageMap<StoredPage<L, S>>,
    tables: &mut PageTables,
    caches: &Caches,
    vpn: u32,
) -> (Option<Frame<L>>, Option<S>)
    requires vpn { vpn < 2 ^ 20 }
    requires something { ¬ GivesNothing (page_at pages.old vpn) }
    requires quiet { All (λ cache. cache ≡ []) caches.now }
    requires holds { Holds S.content S.honest pages.old tables.old caches.now }
    ensures holds { Holds S.content S.honest pages.new tables.new caches.now }
    ensures given { ChangesBy (GivesBack result) pages.old pages.new vpn }
    ensures entries { ChangesEntry tables.old tables.new vpn blank }
    ensures tabled { SameTables tables.old tables.new }
{
    let given = take(pages, vpn);
    tables.unmap(vpn);
    given
}

/// Takes a page's frame and slot.
fn take<L: Ledger, S: SwapSlot>(
    pages: &mut PageMap<StoredPage<L, S>>,
    vpn: u32,
) -> (Option<Frame<L>>, Option<S>)
    requires vpn { vpn < 2 ^ 20 }
    requires something { ¬ GivesNothing (page_at pages.old vpn) }
    ensures { ChangesBy (GivesBack result) pages.old pages.new vpn }
{
    let place = place_there(&*pages, vpn);
    match pages.at_mut(place).give_back() {
        Some(given) => given,
        None => unreachable!(),
    }
}
