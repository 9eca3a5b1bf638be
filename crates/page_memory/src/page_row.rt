//! Pages by number with the bytes of all in one vector, so that no page needs a pointer.

ghost use Rattle.std.specs.Prelude.{◌≡◌, ◌+◌, ◌*◌, ◌/◌, ◌≤◌, ◌^◌, ◌<◌, ◌%◌, [], ◌∷◌, ◌++◌, None, IfOk, IfSome, OnOk, OnErr, IsErr, length};
ghost use Rattle.std.specs.Option.{IsSomeAnd};
ghost use Rattle.byteorder.specs.Endian.{little_bytes};
ghost use Rattle.page_memory.specs.Entries.{place_of, value_at, with_added, LacksOne};
ghost use Rattle.page_memory.specs.PageRow.{Rewritten, page_of_row, with_page};
ghost use Rattle.page_memory.specs.Pages.{overwritten, zero_page};
ghost use Rattle.page_memory.specs.Words.{bytes_in};

use crate::page::Page;
use crate::page_bytes::{put_bytes, put_number_from};
use crate::page_map::PageMap;
use crate::rights::Rights;
use crate::words::{PAGE_SIZE, Width};
use std::alloc::{AllocError, Global};
use std::marker::Model;

/// Pages by number, whose bytes are in one row: a page's place shows where, so that no pointer is kept for a page.
#[derive(Drop)]
pub(crate) struct PageRow {
    rights: PageMap<Rights>,
    /// The bytes of all pages, one page after the other.
    bytes: Vec<u8>,
}

impl Model for PageRow {
    ghost use Rattle.std.specs.Prelude.{◌≡◌, ℕ, ◌*◌, List, length};
    ghost use Rattle.std.specs.Coded.{coded_ℕ, coded×, coded_list};
    ghost use Rattle.page_memory.specs.Pages.{Page as Content};
    ghost use Rattle.page_memory.specs.PageRow.{pages_in};
    ghost use Rattle.page_memory.specs.contracts.page.Page as page;

    ghost Value = { List (ℕ × Content) };

    ghost coded = { coded_list (coded× coded_ℕ page.the_row.coded) };

    ghost view = { λ row. pages_in row.rights row.bytes.items };

    ghost invariant = { λ row. length row.bytes.items ≡ length row.rights * 4096 };
}

impl PageRow {
    /// No page, with room for so many.
    #[tactic(auto, unfolding(crate::specs::PageRow::pages_in))]
    pub fn with_capacity(alloc: Global, pages: u32) -> Result<Self, AllocError>
        ensures { IfOk result (λ row. row ≡ []) }
    {
        Ok(PageRow {
            rights: PageMap::new(alloc)?,
            bytes: Vec::with_capacity(alloc, pages as usize * PAGE_SIZE)?,
        })
    }

    /// A copy of the row, with each page at its place.
    pub fn try_clone(&self, alloc: Global) -> Result<Self, AllocError>
        ensures { IfOk result (λ copy. copy ≡ self.now) }
    {
        let mut bytes = Vec::new(alloc);
        bytes.extend_from_slice(&self.bytes)?;
        Ok(PageRow {
            rights: self.rights.try_clone(alloc)?,
            bytes,
        })
    }

    /// The place of a page.
    #[inline]
    #[tactic(auto, using(crate::proofs::PageRows::same_place, crate::proofs::PageRows::as_many))]
    pub fn place(&self, page: u32) -> Option<usize>
        requires { page < 2 ^ 20 }
        ensures place { result ≡ place_of page self.now }
        ensures within { IfSome result (λ place. place < length self.now) }
    {
        // For the proof only: a read shows its invariant.
        let _ = &self.bytes;
        self.rights.place(page)
    }

    /// The rights of the page at a place.
    #[inline]
    pub fn rights(&self, place: usize) -> Rights
        requires { place < length self.now }
        ensures { IsSomeAnd (value_at place self.now) (λ page. page.rights ≡ result) }
    {
        // For the proof only: a read shows its invariant.
        let _ = &self.bytes;
        *self.rights.at(place)
    }

    /// Where the bytes of the page at a place begin.
    #[inline]
    pub fn first(&self, place: usize) -> usize
        requires { place < length self.now }
        ensures { result ≡ place * 4096 }
    {
        // For the proof only: a read shows its invariant.
        let _ = &self.rights;
        let _ = &self.bytes;
        place * PAGE_SIZE
    }

    /// The bytes of the page whose bytes begin there.
    #[inline]
    pub fn bytes(&self, first: usize) -> &[u8]
        requires whole { first % 4096 ≡ 0 }
        requires within { first / 4096 < length self.now }
        ensures bytes { IsSomeAnd (value_at (first / 4096) self.now) (λ page.
            page.bytes ≡ result.now) }
        ensures whole { length result.now ≡ 4096 }
    {
        // For the proof only: a read shows its invariant.
        let _ = &self.rights;
        page_in(self.bytes.as_slice(), first)
    }

    /// Writes the low bytes of a word at an offset of the page whose bytes begin there. The offset is aligned to their width.
    #[inline]
    pub fn put_number(&mut self, first: usize, width: Width, offset: usize, word: u32)
        requires whole { first % 4096 ≡ 0 }
        requires within { first / 4096 < length self.old }
        requires aligned { offset % bytes_in width ≡ 0 }
        requires small { offset < 4096 }
        ensures { Rewritten (first / 4096) offset (little_bytes (bytes_in width) word) self.old
            self.new }
    {
        // For the proof only: a read shows its invariant.
        let _ = &self.rights;
        put_number_in(self.bytes.as_mut_slice(), first, width, offset, word);
    }

    /// Writes bytes into the page at a place, from an offset on.
    pub fn put_bytes(&mut self, place: usize, offset: usize, bytes: &[u8])
        requires within { place < length self.old }
        requires fits { offset + length bytes.now ≤ 4096 }
        ensures { Rewritten place offset bytes.now self.old self.new }
    {
        // For the proof only: a read shows its invariant.
        let _ = &self.rights;
        put_bytes_in(self.bytes.as_mut_slice(), place, offset, bytes);
    }

    /// Puts a page that is not there after the others.
    pub fn insert(&mut self, alloc: Global, number: u32, page: Page) -> Result<(), AllocError>
        requires small { number < 2 ^ 20 }
        requires absent { place_of number self.old ≡ None }
        ensures ok { OnOk result (self.new ≡ self.old ++ (number, page) ∷ []) }
        ensures err { OnErr result (self.new ≡ self.old) }
    {
        self.push(alloc, number, page.rights(), page.bytes())
    }

    /// The same for a page of these rights and bytes.
    fn push(
        &mut self,
        alloc: Global,
        number: u32,
        rights: Rights,
        bytes: &[u8],
    ) -> Result<(), AllocError>
        requires small { number < 2 ^ 20 }
        requires absent { place_of number self.old ≡ None }
        requires whole { length bytes.now ≡ 4096 }
        ensures ok { OnOk result (self.new ≡ self.old ++
            (number, record { rights = rights; bytes = bytes.now }) ∷ []) }
        ensures err { OnErr result (self.new ≡ self.old) }
    {
        let length = self.bytes.len();
        self.bytes.extend_from_slice(bytes)?;
        match self.rights.insert(alloc, number, rights) {
            Ok(_) => Ok(()),
            Err(error) => {
                self.bytes.truncate(length);
                Err(error)
            }
        }
    }

    /// Adds a page of zeros, to be read and written, at each of so many page numbers from the first on that has none, or
    /// at none where memory is wanting, as it can be only where one is missing.
    pub fn add_zeroed(&mut self, alloc: Global, first: u32, count: u32) -> Result<(), AllocError>
        requires { first + count ≤ 2 ^ 20 }
        ensures ok { OnOk result (self.new ≡ with_added first count zero_page self.old) }
        ensures err { OnErr result (self.new ≡ self.old) }
        ensures missing { IsErr result → LacksOne first count self.old }
    {
        let before = self.rights.len();
        self.rights.add_zeroed(alloc, first, count)?;
        match self.bytes.resize(self.rights.len() * PAGE_SIZE, 0) {
            Ok(()) => Ok(()),
            Err(refusal) => {
                self.rights.truncate(before);
                Err(refusal)
            }
        }
    }
}

/// The page of a row of bytes that begins there.
#[inline]
fn page_in(bytes: &[u8], first: usize) -> &[u8]
    requires whole { first % 4096 ≡ 0 }
    requires within { first + 4096 ≤ length bytes.now }
    ensures page { result.now ≡ page_of_row (first / 4096) bytes.now }
    ensures whole { length result.now ≡ 4096 }
{
    &bytes[first..first + PAGE_SIZE]
}

/// Writes the low bytes of a word at an aligned offset of the page of a row of bytes that begins there.
#[inline]
fn put_number_in(bytes: &mut [u8], first: usize, width: Width, offset: usize, word: u32)
    requires whole { first % 4096 ≡ 0 }
    requires within { first + 4096 ≤ length bytes.old }
    requires aligned { offset % bytes_in width ≡ 0 }
    requires small { offset < 4096 }
    ensures { bytes.new ≡ with_page (first / 4096) (overwritten (page_of_row (first / 4096)
        bytes.old) offset (little_bytes (bytes_in width) word)) bytes.old }
{
    put_number_from(&mut bytes[first..first + PAGE_SIZE], width, offset, word);
}

/// Writes bytes from an offset on into the page at a place of a row of bytes.
fn put_bytes_in(bytes: &mut [u8], place: usize, offset: usize, from: &[u8])
    requires within { place * 4096 + 4096 ≤ length bytes.old }
    requires fits { offset + length from.now ≤ 4096 }
    ensures { bytes.new ≡ with_page place (overwritten (page_of_row place bytes.old) offset
        from.now) bytes.old }
{
    let start = place * PAGE_SIZE;
    put_bytes(&mut bytes[start..start + PAGE_SIZE], offset, from);
}
