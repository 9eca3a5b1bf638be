//! At most 16 cached translations, the oldest first, in a row of 32 places so that they move rarely.

ghost use Rattle.std.specs.Prelude.{◌≡◌, ◌+◌, ◌-◌, ◌<◌, ◌≤◌, ◌==◌, [], ◌∷◌, ◌++◌, length, drop, take, slice_index_or, slice_set};
ghost use Rattle.arrayvec.specs.ArrayVec.{array_vec_len};
ghost use Rattle.tlb_core.specs.Cache.{doomed, undoomed};

use crate::translation::Translation;
use arrayvec::ArrayVec;
use std::marker::Model;

/// How many places the row has: twice as many as there are entries, so that they are moved to its beginning once in
/// sixteen times at most.
const ROW: usize = 32;

/// At most 16 entries, the oldest first. They are in a row, and stay where they are when the oldest goes.
#[derive(Drop)]
pub(crate) struct Entries {
    row: ArrayVec<Translation, ROW>,
    /// How many at the row's beginning are gone.
    gone: usize,
}

impl Model for Entries {
    ghost use Rattle.std.specs.Prelude.{ℕ, ◌+◌, ◌≤◌, List, drop, length};
    ghost use Rattle.tlb_core.specs.declared.translation.Translation.{Translation};

    ghost Value = { List Translation };

    ghost view = { λ entries. drop entries.gone entries.row.items };

    ghost invariant = { λ entries. (entries.gone ≤ length entries.row.items) × (length entries.row.items ≤ entries.gone + 16) };
}

impl Entries {
    /// No entry.
    pub(crate) fn new() -> Entries
        ensures { result ≡ [] }
    {
        Entries {
            row: ArrayVec::new(),
            gone: 0,
        }
    }

    #[inline]
    pub(crate) fn as_slice(&self) -> &[Translation]
        ensures entries { result.now ≡ self.now }
        ensures few { length self.now ≤ 16 }
    {
        &self.row.as_slice()[self.gone..]
    }

    pub(crate) fn len(&self) -> usize
        ensures count { result ≡ length self.now }
        ensures few { length self.now ≤ 16 }
    {
        self.row.len() - self.gone
    }

    /// Puts an entry after the others.
    #[tactic(auto, using(crate::proofs::Rows::pushed))]
    pub(crate) fn push(&mut self, entry: Translation)
        requires { length self.old < 16 }
        ensures { self.new ≡ self.old ++ entry ∷ [] }
    {
        self.gone = make_room(&mut self.row, self.gone);
        self.row.push(entry);
    }

    /// The oldest entry goes.
    #[tactic(auto, using(crate::proofs::Rows::first_gone))]
    pub(crate) fn take_oldest(&mut self) -> Translation
        requires { 0 < length self.old }
        ensures oldest { result ≡ slice_index_or self.old 0 result }
        ensures left { self.new ≡ drop 1 self.old }
    {
        let oldest = self.row.as_slice()[self.gone];
        self.gone += 1;
        oldest
    }

    /// Puts an entry in the place of another.
    #[tactic(auto, using(crate::proofs::Rows::put))]
    pub(crate) fn put(&mut self, place: usize, entry: Translation)
        requires { place < length self.old }
        ensures entries { self.new ≡ slice_set self.old place entry }
        ensures few { length self.old ≤ 16 }
    {
        self.row.as_mut_slice()[self.gone + place] = entry;
    }

    /// Marks the entries of a page.
    #[tactic(auto, using(crate::proofs::Rows::marked))]
    pub(crate) fn mark(&mut self, page: u32)
        ensures { self.new ≡ doomed page self.old }
    {
        mark(self.row.as_mut_slice(), page);
    }

    /// Keeps the entries that are not marked.
    pub(crate) fn keep_undoomed(&mut self)
        ensures { self.new ≡ undoomed self.old }
    {
        take_front(&mut self.row, self.gone);
        self.gone = 0;
        keep_undoomed(&mut self.row);
    }

    /// All entries go.
    pub(crate) fn clear(&mut self)
        ensures { self.new ≡ [] }
    {
        self.row.clear();
        self.gone = 0;
    }
}

/// Makes room for one more after fewer than 16 entries: where the row is at its end, they are moved to its beginning.
/// Answers how many are gone before them then.
fn make_room(row: &mut ArrayVec<Translation, ROW>, gone: usize) -> usize
    requires within { gone ≤ length row.old.items }
    requires few { length row.old.items < gone + 16 }
    ensures kept { drop result row.new.items ≡ drop gone row.old.items }
    ensures within { result ≤ length row.new.items }
    ensures room { length row.new.items < 32 }
{
    if row.is_full() {
        take_front(row, gone);
        0
    } else {
        gone
    }
}

/// So many entries at a row's beginning go, and the others are moved there.
#[cold]
fn take_front(row: &mut ArrayVec<Translation, ROW>, gone: usize)
    requires { gone ≤ length row.old.items }
    ensures left { row.new.items ≡ drop gone row.old.items }
    ensures count { length row.new.items ≡ length row.old.items - gone }
{
    let len = row.len();
    row.as_mut_slice().copy_within(gone..len, 0);
    row.truncate(len - gone);
}

/// Marks the entries of a page.
#[tactic(auto, using(crate::proofs::Places::marked_more, crate::proofs::Places::marked_all))]
fn mark(entries: &mut [Translation], page: u32)
    ensures { entries.new ≡ doomed page entries.old }
{
    for entry in entries.iter_mut() {
        entry.doomed |= entry.page == page;
    }
}

/// Keeps the entries that are not marked.
fn keep_undoomed(entries: &mut ArrayVec<Translation, ROW>)
    ensures kept { entries.new.items ≡ undoomed entries.old.items }
    ensures fewer { length entries.new.items ≤ length entries.old.items }
{
    entries.retain(|entry| !entry.doomed);
}
