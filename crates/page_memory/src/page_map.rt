//! Values by page number. Each has a place, which stays the same as long as the page has a value.

ghost use Rattle.std.specs.Prelude.{◌≡◌, ℕ, true, slice_index, ◌<◌, ◌≤◌, ◌^◌, [], ◌∷◌, ◌++◌, None, Some, is_some, IfOk, IfSome, IfNone, OnErr, length, take};
ghost use Rattle.std.specs.Borrow.{sem};
ghost use Rattle.page_memory.specs.Entries.{place_of, pages_of, value_at};
ghost use Rattle.page_memory.specs.PageMap.{LendsValue};

use crate::page_index::PageIndex;
use std::alloc::{AllocError, Global};
use std::marker::Model;

/// Values by page number, each found in constant time.
///
/// Each page has a place, in the order in which the pages got their values. A page keeps its place as
/// long as it has a value, so that whoever holds a place reaches the value with no look-up.
#[derive(Drop)]
pub struct PageMap<T> {
    index: PageIndex,
    values: Vec<T>,
}

impl<T> Model for PageMap<T> {
    ghost use Rattle.std.specs.Prelude.{◌≡◌, ℕ, List, length};
    ghost use Rattle.std.specs.List.{zip};
    ghost use Rattle.std.specs.Coded.{coded_ℕ, coded×, coded_list};

    ghost Value = { List (ℕ × T) };

    ghost coded = { coded_list (coded× coded_ℕ T.code) };

    ghost view = { λ pages. zip pages.index pages.values.items };

    ghost invariant = { λ pages. length pages.values.items ≡ length pages.index };
}

impl<T> PageMap<T> {
    /// A map of no page.
    pub fn new(alloc: Global) -> Result<Self, AllocError>
        ensures { IfOk result (λ pages. pages ≡ []) }
    {
        Ok(PageMap {
            index: PageIndex::new(alloc)?,
            values: Vec::new(alloc),
        })
    }

    /// How many pages have a value.
    #[inline]
    #[tactic(auto, using(crate::proofs::PlacedEntries::of_values))]
    pub fn len(&self) -> usize
        ensures { result ≡ length self.now }
    {
        // For the proof only: a read shows its invariant.
        let _ = &self.index;
        self.values.len()
    }

    /// The page at a place.
    #[inline]
    #[tactic(auto, using(crate::proofs::PlacedEntries::of_values))]
    pub fn page(&self, place: usize) -> u32
        requires { place < length self.now }
        ensures page { result ≡ slice_index (pages_of self.now) place }
        ensures small { result < 2 ^ 20 }
    {
        // For the proof only: a read shows its invariant.
        let _ = &self.values;
        self.index.page(place)
    }

    /// The place of a page that has a value.
    #[inline]
    #[tactic(auto, using(crate::proofs::PlacedEntries::of_values))]
    pub fn place(&self, page: u32) -> Option<usize>
        requires { page < 2 ^ 20 }
        ensures place { result ≡ place_of page self.now }
        ensures within { IfSome result (λ place. place < length self.now) }
    {
        // For the proof only: a read shows its invariant.
        let _ = &self.values;
        self.index.find(page)
    }

    /// The first page that has a value, in the order of numbers, from this one on.
    #[tactic(auto, using(crate::proofs::PlacedEntries::of_values))]
    pub fn first_from(&self, from: u32) -> Option<u32>
        ensures within { IfSome result (λ page. (from ≤ page) × (page < 2 ^ 20)) }
        ensures listed { IfSome result (λ page. is_some (place_of page self.now) ≡ true) }
        ensures before { IfSome result (λ page. (q : ℕ) → from ≤ q → q < page →
            place_of q self.now ≡ None) }
        ensures none { IfNone result ((q : ℕ) → from ≤ q → q < 2 ^ 20 →
            place_of q self.now ≡ None) }
    {
        // For the proof only: a read shows its invariant.
        let _ = &self.values;
        self.index.first_from(from)
    }

    /// The value at a place.
    #[inline]
    pub fn at(&self, place: usize) -> &T
        requires { place < length self.now }
        ensures { value_at place self.now ≡ Some result.now }
    {
        // For the proof only: a read shows its invariant.
        let _ = &self.index;
        &self.values[place]
    }

    /// The value at a place, to be changed.
    #[inline]
    pub fn at_mut(&mut self, place: usize) -> &mut T
        requires { place < length self.old }
        ensures* writes_back { sem 𝓛 (LendsValue T.row self.entry place result) }
        ensures value { value_at place self.old ≡ Some result.now }
    {
        // For the proof only: a read shows its invariant.
        let _ = &self.index;
        &mut self.values[place]
    }

    /// Gives a value to a page that has none, at the place after the others.
    pub fn insert(&mut self, alloc: Global, page: u32, value: T) -> Result<usize, AllocError>
    where
        T: Drop,
        requires small { page < 2 ^ 20 }
        requires absent { place_of page self.old ≡ None }
        ensures ok { IfOk result (λ place. self.new ≡ self.old ++ (page, value) ∷ []) }
        ensures place { IfOk result (λ place. place ≡ length self.old) }
        ensures err { OnErr result (self.new ≡ self.old) }
    {
        let place = self.values.len();
        self.values.reserve(1)?;
        self.index.push(alloc, page)?;
        self.values.push_reserved(value);
        Ok(place)
    }

    /// Keeps only the values at so many places, the first ones.
    #[tactic(auto, using(crate::proofs::PlacedEntries::zip_take))]
    pub fn truncate(&mut self, count: usize)
    where
        T: Drop,
        ensures { self.new ≡ take count self.old }
    {
        self.index.truncate(count);
        self.values.truncate(count);
    }
}

impl<T: Copy> PageMap<T> {
    /// A copy of the map, with each page at its place.
    pub fn try_clone(&self, alloc: Global) -> Result<Self, AllocError>
        ensures { IfOk result (λ copy. copy ≡ self.now) }
    {
        let mut values = Vec::new(alloc);
        values.extend_from_slice(&self.values)?;
        Ok(PageMap {
            index: self.index.try_clone(alloc)?,
            values,
        })
    }
}
