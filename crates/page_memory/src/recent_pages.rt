//! The pages used last, found without a look-up: one for fetches, 64 each for loads and stores.

ghost use Rattle.std.specs.Prelude.{◌≡◌, ◌%◌, slice_index_or, slice_set, replicate};
ghost use Rattle.page_memory.specs.Words.{page_number};
ghost use Rattle.page_memory.specs.RecentPages.{nowhere, no_recent, recent_of, learned, forgotten};

use crate::words::{Access, page_of};

/// A page that was used last: its first address, and the place that whoever keeps it knows it by.
#[derive(Clone, Copy, Debug, PartialEq, Eq)]
pub struct RecentPage {
    pub start: u64,
    pub place: usize,
}

/// No page: it starts past all addresses.
const NOWHERE: RecentPage = RecentPage {
    start: 0x1_0000_0000,
    place: 0,
};

/// How many pages are kept for loads, and for stores: one for each number that the low bits of a page number can have.
const COUNT: u32 = 64;

/// The pages that were used last and had the right: the one fetched from, and those loaded from and stored to.
#[derive(Clone, Copy, Debug, PartialEq, Eq)]
pub struct RecentPages {
    fetched: RecentPage,
    loaded: [RecentPage; COUNT as usize],
    stored: [RecentPage; COUNT as usize],
}

impl RecentPages {
    /// No page.
    pub fn new() -> RecentPages
        ensures { result ≡ no_recent }
    {
        RecentPages {
            fetched: NOWHERE,
            loaded: no_pages(),
            stored: no_pages(),
        }
    }

    /// The page that may serve an access to an address. Where the access is known, this is one load.
    #[inline(always)]
    pub fn of(&self, access: Access, address: u32) -> RecentPage
        ensures { result ≡ recent_of access (page_number address) self.now }
    {
        match access {
            Access::Fetch => self.fetched,
            Access::Load => page_at(&self.loaded, page_of(address)),
            Access::Store => page_at(&self.stored, page_of(address)),
        }
    }

    /// Keeps an address's page, with its place.
    #[inline]
    pub fn learn(&mut self, access: Access, address: u32, place: usize)
        ensures { self.new ≡ learned access address place self.old }
    {
        let recent = RecentPage {
            start: u64::from(address / 4096 * 4096),
            place,
        };
        match access {
            Access::Fetch => self.fetched = recent,
            Access::Load => put(&mut self.loaded, page_of(address), recent),
            Access::Store => put(&mut self.stored, page_of(address), recent),
        }
    }

    /// Keeps a page no more.
    pub fn forget(&mut self, page: u32)
        ensures { self.new ≡ forgotten page self.old }
    {
        if self.fetched.start / 4096 == u64::from(page) {
            self.fetched = NOWHERE;
        }
        put(&mut self.loaded, page, NOWHERE);
        put(&mut self.stored, page, NOWHERE);
    }
}

fn no_pages() -> [RecentPage; COUNT as usize]
    ensures { result ≡ replicate 64 nowhere }
{
    [NOWHERE; COUNT as usize]
}

#[inline(always)]
fn page_at(list: &[RecentPage; COUNT as usize], page: u32) -> RecentPage
    ensures { result ≡ slice_index_or list.now (page % 64) nowhere }
{
    list[(page % COUNT) as usize]
}

#[inline]
fn put(list: &mut [RecentPage; COUNT as usize], page: u32, recent: RecentPage)
    ensures { list.new ≡ slice_set list.old (page % 64) recent }
{
    list[(page % COUNT) as usize] = recent;
}
