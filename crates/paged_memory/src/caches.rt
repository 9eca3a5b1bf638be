//! The translation caches of a process's harts: look-up, refill, and what a TLB shootdown does to them.

ghost use Rattle.std.specs.Prelude.{◌≡◌, ◌<◌, ◌≤◌, ◌%◌, [], ◌∷◌, ◌++◌, None, map, length, is_some};
ghost use Rattle.std.specs.Prelude.{IfSome, option_copied, slice_get, slice_index_or, slice_set};
ghost use Rattle.page_memory.specs.Words.{page_number, page_offset, bytes_in};
ghost use Rattle.tlb_core.specs.Cache.{Hits, OnePerPage, doomed, undoomed, filled, holds_mark};
ghost use Rattle.tlb_core.specs.Cache.{translation_of};
ghost use Rattle.paged_memory.specs.Soundness.{is_held, is_marked};
ghost use Rattle.paged_memory.specs.declared.caches.Miss.{Miss};

use arrayvec::ArrayVec;
use machine_limits::MOST_HARTS;
use page_memory::{Access, Width};
use std::marker::Model;
use tlb_core::{Spot, Tlb, Translation};

/// Why a hart's cache does not serve an access.
#[derive(Clone, Copy, PartialEq, Eq, Debug)]
pub(crate) enum Miss {
    /// It has no translation of the page.
    Unknown,
    /// It has one that lacks the right, or for a store one that is not dirty.
    Unfit,
}

/// The translation caches of a process's harts, by their numbers.
#[derive(Drop)]
pub(crate) struct Caches {
    harts: ArrayVec<Tlb, MOST_HARTS>,
}

impl Model for Caches {
    ghost use Rattle.std.specs.Prelude.{List};
    ghost use Rattle.tlb_core.specs.declared.translation.Translation.{Translation};

    ghost Value = { List (List Translation) };

    ghost view = { λ c. c.harts.items };
}

impl Caches {
    /// Caches of no hart.
    pub fn new() -> Self
        ensures { result ≡ [] }
    {
        Caches {
            harts: ArrayVec::new(),
        }
    }

    /// How many harts there are.
    #[inline]
    pub fn len(&self) -> usize
        ensures { result ≡ length self.now }
    {
        self.harts.len()
    }

    /// An empty cache for one more hart.
    pub fn add(&mut self)
        requires { length self.old < 8 }
        ensures { self.new ≡ self.old ++ [] ∷ [] }
    {
        self.harts.push(Tlb::new());
    }

    /// What a hart has cached of a page.
    #[inline]
    pub fn look(&self, hart: usize, page: u32) -> Option<Translation>
        requires { hart < length self.now }
        ensures { result ≡ translation_of page (slice_index_or self.now hart []) }
    {
        self.harts.as_slice()[hart].look(page)
    }

    /// How many harts there are: no more than eight.
    pub fn count(&self) -> u32
        ensures count { result ≡ length self.now }
        ensures few { result ≤ 8 }
    {
        self.harts.len() as u32
    }

    /// What a hart has cached, the oldest first, if there is such a hart.
    pub fn entries(&self, hart: usize) -> Option<&[Translation]>
        ensures { option_copied result ≡ slice_get self.now hart }
    {
        Some(self.harts.as_slice().get(hart)?.entries())
    }

    /// Where an aligned access of a hart has its bytes, if the address's page is ready.
    #[inline]
    pub fn ready(&self, hart: usize, access: Access, width: Width, address: u32) -> Option<Spot>
        requires { hart < length self.now }
        ensures aligned { IfSome result (λ _. address % bytes_in width ≡ 0) }
        ensures offset { IfSome result (λ spot. spot.offset ≡ page_offset address) }
        ensures hits { IfSome result (λ spot. Hits (slice_index_or self.now hart []) access
            (page_number address) spot.place) }
    {
        self.harts.as_slice()[hart].ready(access, width, address)
    }

    /// Makes an address's page ready for a hart's access that its translation serves, at the page's place.
    #[tactic(auto, using(crate::proofs::Mapping::refilled_at))]
    pub fn remember(&mut self, hart: usize, access: Access, address: u32, place: usize)
        requires hart { hart < length self.old }
        requires hits { Hits (slice_index_or self.old hart []) access (page_number address) place }
        ensures { self.new ≡ self.old }
    {
        self.harts.as_mut_slice()[hart].remember(access, address, place);
    }

    /// Puts a translation into a hart's cache, which missed the page so.
    #[tactic(auto, using(crate::proofs::Mapping::refilled_at))]
    pub fn fill(&mut self, hart: usize, entry: Translation, miss: Miss)
        requires hart { hart < length self.old }
        requires unknown { miss ≡ Miss.Unknown →
            translation_of entry.page (slice_index_or self.old hart []) ≡ None }
        ensures filled { self.new ≡ slice_set self.old hart (filled entry
            (slice_index_or self.old hart [])) }
        ensures apart { OnePerPage (slice_index_or self.old hart []) }
    {
        // For the proof only: a read shows that each page has one translation at most.
        let _ = self.harts.as_slice()[hart].entries();
        match miss {
            Miss::Unknown => self.harts.as_mut_slice()[hart].add(entry),
            Miss::Unfit => self.harts.as_mut_slice()[hart].fill(entry),
        }
    }

    /// Whether a cache holds a translation of a page.
    pub fn is_held(&self, page: u32) -> bool
        ensures { result ≡ is_held page self.now }
    {
        self.harts.as_slice().iter().any(
            |cache: &Tlb| -> bool
                ensures { result ≡ is_some (translation_of page cache.now) }
            { cache.holds(page) },
        )
    }

    /// Whether a cache holds a translation of a page with the dirty mark.
    pub fn is_marked(&self, page: u32) -> bool
        ensures { result ≡ is_marked page self.now }
    {
        self.harts.as_slice().iter().any(
            |cache: &Tlb| -> bool
                ensures { result ≡ holds_mark page cache.now }
            { cache.holds_dirty(page) },
        )
    }

    /// Marks a page's translations in all caches as ones to be dropped.
    #[tactic(auto, using(crate::proofs::Mapping::refilled))]
    pub fn doom(&mut self, page: u32)
        ensures { self.new ≡ map (doomed page) self.old }
    {
        doom_each(self.harts.as_mut_slice(), page);
    }

    /// Drops the translations of a hart that are marked.
    #[tactic(auto, using(crate::proofs::Mapping::refilled_at))]
    pub fn drop_doomed(&mut self, hart: usize)
        requires { hart < length self.old }
        ensures { self.new ≡ slice_set self.old hart (undoomed (slice_index_or self.old hart [])) }
    {
        self.harts.as_mut_slice()[hart].drop_doomed();
    }

    /// Drops all translations of a hart.
    #[tactic(auto, using(crate::proofs::Mapping::refilled_at))]
    pub fn clear(&mut self, hart: usize)
        requires { hart < length self.old }
        ensures { self.new ≡ slice_set self.old hart [] }
    {
        self.harts.as_mut_slice()[hart].clear();
    }

    /// Drops all translations of all harts.
    #[tactic(auto, using(crate::proofs::Mapping::refilled))]
    pub fn clear_all(&mut self)
        ensures { self.new ≡ map (λ _. []) self.old }
    {
        clear_each(self.harts.as_mut_slice());
    }
}

#[tactic(auto, using(crate::proofs::Mapping::mapped_none, crate::proofs::Mapping::mapped_more, crate::proofs::Mapping::mapped_all))]
fn doom_each(caches: &mut [Tlb], page: u32)
    ensures { caches.new ≡ map (doomed page) caches.old }
{
    for cache in caches.iter_mut() {
        cache.doom(page);
    }
}

#[tactic(auto, using(crate::proofs::Mapping::mapped_none, crate::proofs::Mapping::mapped_all))]
fn clear_each(caches: &mut [Tlb])
    ensures { caches.new ≡ map (λ _. []) caches.old }
{
    for cache in caches.iter_mut() {
        cache.clear();
    }
}
