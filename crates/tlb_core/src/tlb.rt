//! A hart's translation cache: at most 16 entries, at most one for each page; the oldest goes first.

ghost use Rattle.std.specs.Prelude.{◌≡◌, ◌<◌, ◌≤◌, ◌%◌, ℕ, [], ◌∷◌, ◌++◌, length, is_some, Some, None, position, slice_set, IfSome};
ghost use Rattle.std.specs.List.{list_any};
ghost use Rattle.page_memory.specs.Words.{page_number, page_offset, bytes_in};
ghost use Rattle.tlb_core.specs.Ready.{IsReady};
ghost use Rattle.tlb_core.specs.Cache.{OnePerPage, Hits, translation_of, holds_mark, is_of_page, filled, doomed, undoomed, with_room};

use crate::crowds::{Crowds, crowds_of};
use crate::entries::Entries;
use crate::hints::Hints;
use crate::translation::Translation;
use page_memory::{Access, RecentPages, Width, offset_past};
use std::marker::Model;

/// The most entries that a cache has.
pub const TLB_ENTRIES: usize = 16;

/// Where an access has its bytes: the place of its page among its process's pages, and the offset in it.
#[derive(Clone, Copy, PartialEq, Eq, Debug)]
pub struct Spot {
    pub place: usize,
    pub offset: usize,
}

/// The translations that a hart has cached, the oldest first, at most one for each page.
#[derive(Drop)]
pub struct Tlb {
    entries: Entries,
    hints: Hints,
    /// The place of each is the one among its process's pages.
    ready: RecentPages,
    crowds: Crowds,
}

impl Model for Tlb {
    ghost use Rattle.std.specs.Prelude.{List};
    ghost use Rattle.tlb_core.specs.declared.translation.Translation.{Translation};
    ghost use Rattle.tlb_core.specs.Ready.{IsCache};

    ghost Value = { List Translation };

    ghost view = { λ t. t.entries };

    ghost invariant = { λ t. IsCache t.entries t.ready t.crowds.counts };
}

/// A cache of no entry.
impl Default for Tlb {
    fn default() -> Tlb
        ensures { result ≡ [] }
    {
        Tlb::new()
    }
}

impl Tlb {
    /// A cache of no entry.
    pub fn new() -> Tlb
        ensures { result ≡ [] }
    {
        Tlb {
            entries: Entries::new(),
            hints: Hints::new(),
            ready: RecentPages::new(),
            crowds: Crowds::new(),
        }
    }

    /// The entries, the oldest first.
    pub fn entries(&self) -> &[Translation]
        ensures entries { result.now ≡ self.now }
        ensures few { length self.now ≤ 16 }
        ensures one_each { OnePerPage self.now }
    {
        self.entries.as_slice()
    }

    /// The entry of a page. It is looked for where the hint says, and then everywhere, if any entry may be the page's.
    #[inline]
    #[tactic(auto, using(crate::proofs::CacheLaws::found_at))]
    pub fn look(&self, page: u32) -> Option<Translation>
        ensures { result ≡ translation_of page self.now }
    {
        match self.entries.as_slice().get(self.hints.place(page)) {
            Some(entry) if entry.page == page => Some(*entry),
            _ if self.crowds.lack(page) => None,
            _ => self.search(page),
        }
    }

    /// Where an aligned access has its bytes, if the address's page is ready. One comparison shows it.
    #[inline]
    pub fn ready(&self, access: Access, width: Width, address: u32) -> Option<Spot>
        ensures aligned { IfSome result (λ _. address % bytes_in width ≡ 0) }
        ensures offset { IfSome result (λ spot. spot.offset ≡ page_offset address) }
        ensures hits { IfSome result (λ spot. Hits self.now access (page_number address)
            spot.place) }
    {
        let known = self.ready.of(access, address);
        match offset_past(known.start, address, width) {
            Some(offset) => Some(Spot {
                place: known.place,
                offset,
            }),
            None => None,
        }
    }

    /// Makes an address's page ready for an access that its entry serves, at the page's place. The entries stay as they are.
    pub fn remember(&mut self, access: Access, address: u32, place: usize)
        requires { Hits self.old access (page_number address) place }
        ensures { self.new ≡ self.old }
    {
        self.ready.learn(access, address, place);
    }

    /// Whether there is an entry of a page.
    pub fn holds(&self, page: u32) -> bool
        ensures { result ≡ is_some (translation_of page self.now) }
    {
        self.look(page).is_some()
    }

    /// Whether there is an entry of a page with the dirty mark: a store through it needs no walk.
    pub fn holds_dirty(&self, page: u32) -> bool
        ensures mark { result ≡ holds_mark page self.now }
    {
        // For the proof only: a page has at most one entry.
        let _ = &self.entries;
        match self.look(page) {
            Some(entry) => entry.dirty,
            None => false,
        }
    }

    #[cold]
    #[tactic(auto, using(crate::proofs::Places::find_at_place, crate::proofs::CacheLaws::find_nowhere))]
    fn search(&self, page: u32) -> Option<Translation>
        ensures { result ≡ translation_of page self.now }
    {
        match self.place_of(page) {
            Some(place) => Some(self.entries.as_slice()[place]),
            None => None,
        }
    }

    /// Puts an entry in: in place of its page's where there is one, else after the others; then the oldest of 16 goes.
    #[tactic(auto, using(crate::proofs::Places::filled_in_place, crate::proofs::Places::filled_behind, crate::proofs::CacheLaws::find_nowhere))]
    pub fn fill(&mut self, entry: Translation)
        ensures { self.new ≡ filled entry self.old }
    {
        match self.place_of(entry.page) {
            Some(place) => self.replace(place, entry),
            None => self.append(entry),
        }
    }

    /// The same where the cache is known to have none of the page, which is then not looked for.
    #[inline(always)]
    pub fn add(&mut self, entry: Translation)
        requires { translation_of entry.page self.old ≡ None }
        ensures { self.new ≡ filled entry self.old }
    {
        self.append(entry);
    }

    /// Puts an entry in at the place of its page's.
    fn replace(&mut self, place: usize, entry: Translation)
        requires place { position (is_of_page entry.page) self.old ≡ Some place }
        requires within { place < length self.old }
        ensures { self.new ≡ slice_set self.old place entry }
    {
        self.entries.put(place, entry);
        self.hints.put(entry.page, place);
        self.ready.forget(entry.page);
    }

    /// Where the entry of a page is.
    #[tactic(auto, using(crate::proofs::Places::place_within))]
    fn place_of(&self, page: u32) -> Option<usize>
        ensures place { result ≡ position (is_of_page page) self.now }
        ensures within { IfSome result (λ place. place < length self.now) }
    {
        self.entries
            .as_slice()
            .iter()
            .position(|entry| entry.page == page)
    }

    /// Puts the entry of a page that has none after the others.
    #[inline(always)]
    fn append(&mut self, entry: Translation)
        requires { translation_of entry.page self.old ≡ None }
        ensures { self.new ≡ with_room self.old ++ entry ∷ [] }
    {
        self.make_room();
        let place = self.entries.len();
        self.entries.push(entry);
        self.crowds.come(entry.page);
        self.hints.put(entry.page, place);
    }

    /// The oldest of 16 goes.
    #[tactic(auto, using(crate::proofs::Places::one_per_page_room, crate::proofs::Places::room_made, crate::proofs::Places::room_there))]
    fn make_room(&mut self)
        ensures entries { self.new ≡ with_room self.old }
        ensures room { length self.new < 16 }
    {
        if self.entries.len() == TLB_ENTRIES {
            let oldest = self.entries.take_oldest();
            self.crowds.go(oldest.page);
            self.hints.first_is_gone();
            self.ready.forget(oldest.page);
        }
    }

    /// Marks the entry of a page as one to be dropped.
    pub fn doom(&mut self, page: u32)
        ensures { self.new ≡ doomed page self.old }
    {
        self.entries.mark(page);
    }

    /// Drops each entry that is marked, and no other. The others keep their order. Where none is marked, what is ready
    /// stays so.
    pub fn drop_doomed(&mut self)
        ensures { self.new ≡ undoomed self.old }
    {
        if any_doomed(self.entries.as_slice()) {
            self.drop_marked();
        }
    }

    /// Drops each entry that is marked. No page is ready any more.
    fn drop_marked(&mut self)
        ensures { self.new ≡ undoomed self.old }
    {
        self.entries.keep_undoomed();
        self.hints.set(self.entries.as_slice());
        self.crowds = crowds_of(self.entries.as_slice());
        self.ready = RecentPages::new();
    }

    /// Drops all entries.
    pub fn clear(&mut self)
        ensures { self.new ≡ [] }
    {
        forget_each(self.entries.as_slice(), &mut self.ready);
        self.entries.clear();
        self.crowds = Crowds::new();
    }
}

/// The pages of these entries are ready no more: where each page that was ready is of one of them, none is.
fn forget_each(entries: &[Translation], ready: &mut RecentPages)
    ensures { IsReady entries.now ready.old → IsReady [] ready.new }
{
    for entry in entries.iter() {
        ready.forget(entry.page);
    }
}

/// Whether an entry is marked.
fn any_doomed(entries: &[Translation]) -> bool
    ensures { result ≡ list_any (λ e. e.doomed) entries.now }
{
    entries.iter().any(|entry| entry.doomed)
}
