//! A changed page is written to its slot while it stays mapped, and counts as unchanged once no store followed the copy.

ghost use Rattle.std.specs.Prelude.{◌≡◌, ◌≤◌, ◌<◌, ◌^◌, ℕ, true, false, IfErr, IfNone, IfSome};
ghost use Rattle.std.specs.Prelude.{OnErr, OnOk};
ghost use Rattle.paged_memory.specs.Calls.{ChangesBy};
ghost use Rattle.paged_memory.specs.cleaning.Cleaning.{BeginsCleaning, CopiesAt, CopiesPage, DoesNotClean};
ghost use Rattle.paged_memory.specs.cleaning.Cleaning.{EndsCleaningIn, RefusesClean, StartsClean};
ghost use Rattle.paged_memory.specs.cleaning.Cleaning.{is_changed_in, is_changed_resident, settles};
ghost use Rattle.paged_memory.specs.moves.Moving.{OnlyPages};
ghost use Rattle.paged_memory.specs.Paged.{memory_of, page_at};

use crate::memory::PagedMemory;
use page_memory::{PAGE_COUNT, PageMap};
use page_store::{CleanCopy, CleanRefusal, Cleaned, CleanedJob, PageState, StoredPage};
use std::sync::ledger::Ledger;
use sv32_table::PageTables;
use swap_slots::SwapSlot;

impl<L: Ledger, S: SwapSlot> PagedMemory<L, S> {
    /// Begins to clean a changed resident page: its dirty bit is cleared, and its translations are marked as ones to be
    /// dropped, so that the next store sets the bit again. Until the cleaning ends nothing backs the page. A cleaning that has no
    /// copy is over where the process has ended. Takes no memory.
    pub fn begin_clean(&mut self, vpn: u32, ended: bool) -> Result<(), CleanRefusal>
        requires { vpn < 2 ^ 20 }
        ensures ok { OnOk result (BeginsCleaning ended vpn self.old self.new) }
        ensures refused { IfErr result (λ refusal. DoesNotClean ended vpn refusal self.old) }
        ensures err { OnErr result (self.new ≡ self.old) }
        ensures process { self.new.process ≡ self.old.process }
        ensures memory { memory_of S.content self.new ≡ memory_of S.content self.old }
    {
        let dirty = self.tables.is_dirty(vpn);
        begin_page(&mut self.pages, vpn, dirty, ended)?;
        let _ = self.tables.clear_dirty(vpn);
        self.caches.doom(vpn);
        Ok(())
    }

    /// Copies a page that is being cleaned, unless a store was made since the cleaning began, or a cache lets one be made that
    /// no dirty bit would report. A page without a slot takes the spare one. Takes no memory.
    pub fn copy_clean(&mut self, vpn: u32, spare: &mut Option<S>) -> CleanCopy<S>
        requires { vpn < 2 ^ 20 }
        ensures answer { CopiesPage vpn spare.old spare.new result self.old self.new }
        ensures stays { OnlyPages self.old self.new }
        ensures same { settles result ≡ false → self.new ≡ self.old }
        ensures memory { memory_of S.content self.new ≡ memory_of S.content self.old }
    {
        let dirty = self.tables.is_dirty(vpn);
        let marked = self.caches.is_marked(vpn);
        copy_page(&mut self.pages, self.process, vpn, (dirty, marked), spare)
    }

    /// Ends the cleaning of a page whose copy comes back: only where no store followed the copy, and the device passed it,
    /// it backs the page. Takes no memory.
    pub fn cleaned(&mut self, job: CleanedJob<S>) -> Cleaned<S>
        ensures ended { EndsCleaningIn job result self.old self.new }
        ensures stays { OnlyPages self.old self.new }
        ensures memory { memory_of S.content self.new ≡ memory_of S.content self.old }
    {
        let vpn = job.vpn();
        if job.process() != self.process || vpn >= PAGE_COUNT {
            return Cleaned::WrongPage(job);
        }
        let Some(place) = self.pages.place(vpn) else {
            return Cleaned::WrongPage(job);
        };
        let dirty = self.tables.is_dirty(vpn);
        self.pages.at_mut(place).cleaned(job, dirty)
    }

    /// The least number from this one on of a resident page that counts as changed, if there is one.
    pub fn next_changed(&self, from: u32) -> Option<u32>
        ensures within { IfSome result (λ vpn. (from ≤ vpn) × (vpn < 2 ^ 20)) }
        ensures changed { IfSome result (λ vpn. is_changed_in self.now vpn ≡ true) }
        ensures least { IfSome result (λ vpn. (q : ℕ) → from ≤ q → q < vpn →
            is_changed_in self.now q ≡ false) }
        ensures none { IfNone result ((q : ℕ) → from ≤ q → q < 2 ^ 20 →
            is_changed_in self.now q ≡ false) }
    {
        next_changed(&self.pages, &self.tables, from)
    }
}

/// The cleaning of a page begins, where `dirty` says whether its entry has D.
fn begin_page<L: Ledger, S: SwapSlot>(
    pages: &mut PageMap<StoredPage<L, S>>,
    vpn: u32,
    dirty: bool,
    ended: bool,
) -> Result<(), CleanRefusal>
    requires { vpn < 2 ^ 20 }
    ensures ok { OnOk result (ChangesBy (StartsClean ended dirty) pages.old pages.new vpn) }
    ensures refused { IfErr result (RefusesClean ended dirty (page_at pages.old vpn)) }
    ensures err { OnErr result (pages.new ≡ pages.old) }
{
    let Some(place) = pages.place(vpn) else {
        return Err(CleanRefusal::NotResident);
    };
    pages.at_mut(place).begin_clean(dirty, ended)
}

/// A copy of a page, where `stored` says whether its entry has D, and whether a cache has its dirty mark.
fn copy_page<L: Ledger, S: SwapSlot>(
    pages: &mut PageMap<StoredPage<L, S>>,
    process: u32,
    vpn: u32,
    stored: (bool, bool),
    spare: &mut Option<S>,
) -> CleanCopy<S>
    requires { vpn < 2 ^ 20 }
    ensures answer { CopiesAt process vpn stored.0 stored.1 spare.old spare.new result pages.old
        pages.new (page_at pages.old vpn) }
    ensures same { settles result ≡ false → pages.new ≡ pages.old }
{
    let Some(place) = pages.place(vpn) else {
        return CleanCopy::NotCleaning;
    };
    let (dirty, marked) = stored;
    pages
        .at_mut(place)
        .copy_clean(process, vpn, dirty, marked, spare)
}

fn next_changed<L: Ledger, S: SwapSlot>(
    pages: &PageMap<StoredPage<L, S>>,
    tables: &PageTables,
    from: u32,
) -> Option<u32>
    ensures within { IfSome result (λ vpn. (from ≤ vpn) × (vpn < 2 ^ 20)) }
    ensures changed { IfSome result (λ vpn. is_changed_resident pages.now tables.now vpn ≡ true) }
    ensures least { IfSome result (λ vpn. (q : ℕ) → from ≤ q → q < vpn →
        is_changed_resident pages.now tables.now q ≡ false) }
    ensures none { IfNone result ((q : ℕ) → from ≤ q → q < 2 ^ 20 →
        is_changed_resident pages.now tables.now q ≡ false) }
{
    let mut next = from;
    while let Some(vpn) = pages.first_from(next) {
        if is_changed_resident(pages, tables, vpn) {
            return Some(vpn);
        }
        next = vpn + 1;
    }
    None
}

/// Whether a page is resident and counts as changed.
#[tactic(auto, unfolding(crate::specs::Paged::page_at))]
fn is_changed_resident<L: Ledger, S: SwapSlot>(
    pages: &PageMap<StoredPage<L, S>>,
    tables: &PageTables,
    vpn: u32,
) -> bool
    requires { vpn < 2 ^ 20 }
    ensures { result ≡ is_changed_resident pages.now tables.now vpn }
{
    let Some(place) = pages.place(vpn) else {
        return false;
    };
    let page = pages.at(place);
    match page.state() {
        PageState::Resident => page.is_changed(tables.is_dirty(vpn)),
        _ => false,
    }
}
