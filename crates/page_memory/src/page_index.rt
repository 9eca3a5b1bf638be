//! A list of page numbers, with a two-level directory that finds the place of each in constant time.

ghost use Rattle.std.specs.Prelude.{◌≡◌, ℕ, true, slice_index, ◌==◌, ◌+◌, ◌-◌, ◌<◌, ◌≤◌, ◌^◌, [], ◌∷◌, ◌++◌, None, is_some, IfOk, OnOk, OnErr, IfSome, IfNone, length, take, position, ◌/◌};
ghost use Rattle.page_memory.specs.PageIndex.{kept_number, Keeps, KeepsNone};

use crate::words::PAGE_COUNT;
use std::alloc::{AllocError, Global};
use std::marker::Model;

/// How many page numbers a leaf of the directory serves.
const LEAF_PAGES: u32 = 1024;

/// A list of different page numbers that answers in constant time at which place one is.
///
/// It is laid out as a two-level page table: a directory of 1024 leaves, of which only those that are
/// needed are there, and each leaf has a number for each of its 1024 pages.
#[derive(Drop)]
pub struct PageIndex {
    directory: Vec<Option<Box<[u32; 1024]>>>,
    pages: Vec<u32>,
}

impl Model for PageIndex {
    ghost use Rattle.std.specs.Prelude.{List, ℕ};
    ghost use Rattle.page_memory.specs.PageIndex.{Indexes};

    ghost Value = { List ℕ };

    ghost view = { λ index. index.pages.items };

    ghost invariant = { λ index. Indexes index.directory.items index.pages.items };
}

impl PageIndex {
    /// An index of no page.
    pub fn new(alloc: Global) -> Result<Self, AllocError>
        ensures { IfOk result (λ index. index ≡ []) }
    {
        let mut directory = Vec::with_capacity(alloc, 1024)?;
        for _ in 0..PAGE_COUNT / LEAF_PAGES {
            directory.push(None)?;
        }
        Ok(PageIndex {
            directory,
            pages: Vec::new(alloc),
        })
    }

    /// A copy of the list.
    pub fn try_clone(&self, alloc: Global) -> Result<Self, AllocError>
        ensures { IfOk result (λ copy. copy ≡ self.now) }
    {
        // For the proof only: a read shows its invariant.
        let _ = &self.directory;
        let mut copy = PageIndex::new(alloc)?;
        'places: for place in 0..self.pages.len() {
            copy.push(alloc, self.pages[place])?;
        }
        Ok(copy)
    }

    /// How many pages are listed.
    #[inline]
    pub fn len(&self) -> usize
        ensures { result ≡ length self.now }
    {
        self.pages.len()
    }

    /// The page number at a place.
    #[inline]
    pub fn page(&self, place: usize) -> u32
        requires { place < length self.now }
        ensures page { result ≡ slice_index self.now place }
        ensures small { result < 2 ^ 20 }
    {
        // For the proof only: a read shows its invariant.
        let _ = &self.directory;
        self.pages[place]
    }

    /// The place of a page number in the list.
    #[inline]
    pub fn find(&self, page: u32) -> Option<usize>
        requires { page < 2 ^ 20 }
        ensures place { result ≡ position (λ listed. listed == page) self.now }
        ensures within { IfSome result (λ place. place < length self.now) }
    {
        let number = number_in(&self.directory, page);
        if number == 0 {
            None
        } else {
            Some(number as usize - 1)
        }
    }

    /// The first listed page number, in the order of numbers, from this one on.
    pub fn first_from(&self, from: u32) -> Option<u32>
        ensures within { IfSome result (λ page. (from ≤ page) × (page < 2 ^ 20)) }
        ensures listed { IfSome result (λ page.
            is_some (position (λ listed. listed == page) self.now) ≡ true) }
        ensures before { IfSome result (λ page. (q : ℕ) → from ≤ q → q < page →
            position (λ listed. listed == q) self.now ≡ None) }
        ensures none { IfNone result ((q : ℕ) → from ≤ q → q < 2 ^ 20 →
            position (λ listed. listed == q) self.now ≡ None) }
    {
        // For the proof only: a read shows its invariant.
        let _ = &self.pages;
        first_kept(&self.directory, from)
    }

    /// Lists a page number that is not listed yet, after the others.
    #[tactic(auto, using(crate::proofs::Indexing::few))]
    pub fn push(&mut self, alloc: Global, page: u32) -> Result<(), AllocError>
        requires small { page < 2 ^ 20 }
        requires absent { position (λ listed. listed == page) self.old ≡ None }
        ensures ok { OnOk result (self.new ≡ self.old ++ page ∷ []) }
        ensures err { OnErr result (self.new ≡ self.old) }
    {
        let number = self.pages.len() as u32 + 1;
        self.pages.reserve(1)?;
        keep(&mut self.directory, alloc, page, number)?;
        self.pages.push_reserved(page);
        Ok(())
    }

    /// Keeps only so many pages, the first ones.
    #[tactic(auto, using(crate::proofs::Indexing::cuts))]
    pub fn truncate(&mut self, count: usize)
        ensures { self.new ≡ take count self.old }
    {
        for _ in 0..self.len().saturating_sub(count) {
            self.pop();
        }
    }

    /// Takes the last page off the list.
    fn pop(&mut self)
        ensures { self.new ≡ take (length self.old - 1) self.old }
    {
        if let Some(page) = self.pages.pop() {
            clear(&mut self.directory, page);
        }
    }
}

/// What the directory keeps for a page: its place and 1, or 0.
#[inline]
fn number_in(directory: &[Option<Box<[u32; 1024]>>], page: u32) -> u32
    requires { page / 1024 < length directory.now }
    ensures { result ≡ kept_number directory.now page }
{
    match &directory[(page / LEAF_PAGES) as usize] {
        Some(leaf) => leaf[(page % LEAF_PAGES) as usize],
        None => 0,
    }
}

/// The first page from this one on for which the directory keeps a number that is not 0.
#[tactic(auto, using(crate::proofs::Indexing::keeps_more, crate::proofs::Indexing::keeps_fewer))]
fn first_kept(directory: &[Option<Box<[u32; 1024]>>], from: u32) -> Option<u32>
    requires { length directory.now ≡ 1024 }
    ensures within { IfSome result (λ page. (from ≤ page) × (page < 2 ^ 20)) }
    ensures kept { IfSome result (λ page. 0 < kept_number directory.now page) }
    ensures before { IfSome result (λ page. KeepsNone directory.now from page) }
    ensures none { IfNone result (KeepsNone directory.now from (2 ^ 20)) }
{
    let mut page = from;
    while page < PAGE_COUNT {
        if number_in(directory, page) != 0 {
            return Some(page);
        }
        page = next_page(directory, page);
    }
    None
}

/// A page after this one, for which the directory keeps 0, and before any other for which it does not.
#[tactic(auto, using(crate::proofs::Indexing::keeps_one, crate::proofs::Indexing::keeps_leaf))]
fn next_page(directory: &[Option<Box<[u32; 1024]>>], page: u32) -> u32
    requires small { page < 2 ^ 20 }
    requires wide { length directory.now ≡ 1024 }
    requires nothing { kept_number directory.now page ≡ 0 }
    ensures behind { page < result }
    ensures small { result ≤ 2 ^ 20 }
    ensures none { KeepsNone directory.now page result }
{
    let leaf = page / LEAF_PAGES;
    if directory[leaf as usize].is_some() {
        page + 1
    } else {
        (leaf + 1) * LEAF_PAGES
    }
}

/// Keeps a number for a page, in a new leaf where the page has none.
#[tactic(auto, using(crate::proofs::Indexing::new_leaf))]
fn keep(
    directory: &mut [Option<Box<[u32; 1024]>>],
    alloc: Global,
    page: u32,
    number: u32,
) -> Result<(), AllocError>
    requires { page / 1024 < length directory.old }
    ensures ok { OnOk result (Keeps directory.old directory.new page number) }
    ensures err { OnErr result (directory.new ≡ directory.old) }
{
    let place = &mut directory[(page / LEAF_PAGES) as usize];
    match place {
        Some(leaf) => leaf[(page % LEAF_PAGES) as usize] = number,
        None => {
            let mut leaf = Box::new(alloc, [0; 1024])?;
            leaf[(page % LEAF_PAGES) as usize] = number;
            *place = Some(leaf);
        }
    }
    Ok(())
}

/// Keeps 0 for a page.
fn clear(directory: &mut [Option<Box<[u32; 1024]>>], page: u32)
    requires { page / 1024 < length directory.old }
    ensures { Keeps directory.old directory.new page 0 }
{
    if let Some(leaf) = &mut directory[(page / LEAF_PAGES) as usize] {
        leaf[(page % LEAF_PAGES) as usize] = 0;
    }
}
