//! Accesses to pages that are all there, with tests of alignment and rights; pages used last are remembered.

ghost use Rattle.std.specs.Prelude.{◌≡◌, ◌+◌, ◌≤◌, ◌^◌, ◌<◌, ◌%◌, Ok, Err, MatchResult, IfOk, IfErr, OnOk, OnErr, length, IsErr, None, IfSome, true, false};
ghost use Rattle.std.specs.FinMap as map;
ghost use Rattle.page_memory.specs.Pages.{usable, aligned_page, fetched, loaded, stored, answer_by, number_at, copied_out, copied_in, byte_at, with_zeroed, HasGap};
ghost use Rattle.page_memory.specs.declared.words.Access.{Access};
ghost use Rattle.page_memory.specs.Words.{bytes_in, page_offset};
ghost use Rattle.page_memory.specs.Reply.{answered};

use crate::allowed::place_allowed;
use crate::fault::MemoryFault;
use crate::page::Page;
use crate::page_bytes::{number, number_from};
use crate::page_row::PageRow;
use crate::recent_pages::RecentPages;
use crate::reply::Reply;
use crate::rights::Rights;
use crate::words::{Access, Width, offset_in_page, offset_past, page_of};
use std::alloc::{AllocError, Global};
use std::marker::Model;

/// The pages of a memory that has them all.
#[derive(Drop)]
pub(crate) struct FlatPages {
    alloc: Global,
    pages: PageRow,
    /// The place of each is where its bytes begin in the row.
    recent: RecentPages,
}

impl Model for FlatPages {
    ghost use Rattle.std.specs.FinMap as map;
    ghost use Rattle.std.specs.Coded.{coded_ℕ};
    ghost use Rattle.page_memory.specs.Pages.{Pages};
    ghost use Rattle.page_memory.specs.contracts.page.Page as page;

    ghost Value = { Pages };

    ghost coded = { map.code coded_ℕ page.the_row.coded };

    ghost view = { λ memory. map.from_entries memory.pages };

    ghost use Rattle.page_memory.specs.Remembered.{Remembers};

    ghost invariant = { λ memory. Remembers memory.pages memory.recent };
}

impl FlatPages {
    /// No page, with room for so many.
    pub fn with_capacity(alloc: Global, pages: u32) -> Result<Self, AllocError>
        ensures { IfOk result (λ memory. memory ≡ map.empty) }
    {
        Ok(FlatPages {
            alloc,
            pages: PageRow::with_capacity(alloc, pages)?,
            recent: RecentPages::new(),
        })
    }

    /// A copy of the pages.
    pub fn try_clone(&self) -> Result<Self, AllocError>
        ensures { IfOk result (λ copy. copy ≡ self.now) }
    {
        Ok(FlatPages {
            alloc: self.alloc,
            pages: self.pages.try_clone(self.alloc)?,
            recent: self.recent,
        })
    }

    /// Maps a page where none is mapped.
    #[tactic(auto, using(crate::proofs::EntriesLaws::mapping))]
    pub fn map_page(&mut self, number: u32, page: Page) -> Result<(), AllocError>
        requires small { number < 2 ^ 20 }
        requires absent { map.get self.old number ≡ None }
        ensures ok { OnOk result (self.new ≡ map.insert self.old number page) }
        ensures err { OnErr result (self.new ≡ self.old) }
    {
        self.recent = RecentPages::new();
        self.pages.insert(self.alloc, number, page)?;
        Ok(())
    }

    /// Maps pages of zeros, to be read and written, at so many page numbers from the first on, wherever
    /// none is mapped: all of them, or none where memory is wanting, as it can be only where one is missing.
    #[tactic(auto, using(crate::proofs::ZeroedLaws::added_zeroed, crate::proofs::ZeroedLaws::lacks_page))]
    pub fn map_zeroed(&mut self, first: u32, count: u32) -> Result<(), AllocError>
        requires { first + count ≤ 2 ^ 20 }
        ensures ok { OnOk result (self.new ≡ with_zeroed first count self.old) }
        ensures err { OnErr result (self.new ≡ self.old) }
        ensures missing { IsErr result → HasGap first count self.old }
    {
        self.recent = RecentPages::new();
        self.pages.add_zeroed(self.alloc, first, count)
    }

    /// Fetches the instruction word at an address. The page is remembered, so that the next fetch from
    /// it takes neither a look-up nor a test of its rights.
    #[inline]
    pub fn fetch(&mut self, address: u32) -> Result<u32, MemoryFault>
        ensures word { result ≡ fetched self.old address }
        ensures memory { self.new ≡ self.old }
    {
        let recent = self.recent.of(Access::Fetch, address);
        match offset_past(recent.start, address, Width::Word) {
            Some(past) => {
                let page = self.pages.bytes(recent.place);
                Ok(number_from(page, Width::Word, past))
            }
            None => self.fetch_anew(address).answer(),
        }
    }

    /// The same from a page that is not remembered.
    #[cold]
    #[inline(never)]
    #[tactic(auto, using(crate::proofs::RememberedLaws::not_fetched))]
    fn fetch_anew(&mut self, address: u32) -> Reply
        ensures word { answered result ≡ fetched self.old address }
        ensures memory { self.new ≡ self.old }
    {
        if address % 4 != 0 {
            return Reply::Misaligned;
        }
        let place = match place_allowed(&self.pages, page_of(address), Access::Fetch) {
            Ok(place) => place,
            Err(MemoryFault::Misaligned) => return Reply::Misaligned,
            Err(MemoryFault::PageFault) => return Reply::PageFault,
        };
        let first = self.pages.first(place);
        self.recent.learn(Access::Fetch, address, first);
        let page = self.pages.bytes(first);
        Reply::Number(number(page, Width::Word, address))
    }

    /// Loads the number at an address, with zeros above it. The page is remembered.
    #[inline]
    pub fn load(&mut self, width: Width, address: u32) -> Result<u32, MemoryFault>
        ensures number { result ≡ loaded self.old width address }
        ensures memory { self.new ≡ self.old }
    {
        match self.load_at_hand(width, address) {
            Some(number) => Ok(number),
            None => self.load_anew(width, address).answer(),
        }
    }

    /// The number at an address whose page is remembered for loads.
    #[inline(always)]
    pub fn load_at_hand(&self, width: Width, address: u32) -> Option<u32>
        ensures { IfSome result (λ number. loaded self.now width address ≡ Ok number) }
    {
        let recent = self.recent.of(Access::Load, address);
        match offset_past(recent.start, address, width) {
            Some(past) => {
                let page = self.pages.bytes(recent.place);
                Some(number_from(page, width, past))
            }
            None => None,
        }
    }

    /// The same from a page that is not remembered.
    #[inline(never)]
    #[tactic(auto, using(crate::proofs::RememberedLaws::not_loaded))]
    fn load_anew(&mut self, width: Width, address: u32) -> Reply
        ensures number { answered result ≡ loaded self.old width address }
        ensures memory { self.new ≡ self.old }
    {
        if address % width.bytes() != 0 {
            return Reply::Misaligned;
        }
        let place = match place_allowed(&self.pages, page_of(address), Access::Load) {
            Ok(place) => place,
            Err(MemoryFault::Misaligned) => return Reply::Misaligned,
            Err(MemoryFault::PageFault) => return Reply::PageFault,
        };
        let first = self.pages.first(place);
        self.recent.learn(Access::Load, address, first);
        let page = self.pages.bytes(first);
        Reply::Number(number(page, width, address))
    }

    /// Loads the word that an atomic instruction is to replace: its page needs the right to write.
    #[inline]
    #[tactic(auto, using(crate::proofs::PageRows::replacing))]
    pub fn load_to_replace(&self, address: u32) -> Result<u32, MemoryFault>
        ensures { result ≡ answer_by (number_at 4 address)
            (aligned_page self.now Access.Store 4 address) }
    {
        if address % 4 != 0 {
            return Err(MemoryFault::Misaligned);
        }
        let page = self.usable_bytes(Access::Store, address)?;
        Ok(number(page, Width::Word, address))
    }

    /// Stores the low bytes of a word at an address. The page is remembered.
    #[inline]
    pub fn store(&mut self, width: Width, address: u32, word: u32) -> Result<(), MemoryFault>
        ensures ok { OnOk result (stored self.old width address word ≡ Ok self.new) }
        ensures fault { IfErr result (λ fault. stored self.old width address word ≡ Err fault) }
        ensures err { OnErr result (self.new ≡ self.old) }
    {
        if self.store_at_hand(width, address, word) {
            Ok(())
        } else {
            self.store_anew(width, address, word)
        }
    }

    /// Stores the low bytes of a word, if the address's page is remembered for stores, and answers whether it has.
    #[inline(always)]
    pub fn store_at_hand(&mut self, width: Width, address: u32, word: u32) -> bool
        ensures done { result ≡ true → stored self.old width address word ≡ Ok self.new }
        ensures other { result ≡ false → self.new ≡ self.old }
    {
        let recent = self.recent.of(Access::Store, address);
        match offset_past(recent.start, address, width) {
            Some(past) => {
                self.pages.put_number(recent.place, width, past, word);
                true
            }
            None => false,
        }
    }

    /// The same to a page that is not remembered.
    #[inline(never)]
    #[tactic(auto, using(crate::proofs::AccessLaws::not_stored))]
    fn store_anew(&mut self, width: Width, address: u32, word: u32) -> Result<(), MemoryFault>
        ensures ok { OnOk result (stored self.old width address word ≡ Ok self.new) }
        ensures fault { IfErr result (λ fault. stored self.old width address word ≡ Err fault) }
        ensures err { OnErr result (self.new ≡ self.old) }
    {
        if address % width.bytes() != 0 {
            return Err(MemoryFault::Misaligned);
        }
        let place = place_allowed(&self.pages, page_of(address), Access::Store)?;
        let first = self.pages.first(place);
        self.recent.learn(Access::Store, address, first);
        let offset = offset_in_page(address);
        self.pages.put_number(first, width, offset, word);
        Ok(())
    }

    /// Copies bytes out of memory, from an address on and within its page.
    #[tactic(auto, using(crate::proofs::PageRows::copying))]
    pub fn copy_out(&self, address: u32, to: &mut [u8]) -> Result<(), MemoryFault>
        requires { page_offset address + length to.old ≤ 4096 }
        ensures ok { OnOk result (copied_out self.now address (length to.old) ≡ Ok to.new) }
        ensures fault { IfErr result (λ fault. copied_out self.now address (length to.old) ≡
            Err fault) }
        ensures err { OnErr result (to.new ≡ to.old) }
    {
        let page = self.usable_bytes(Access::Load, address)?;
        let offset = offset_in_page(address);
        to.copy_from_slice(&page[offset..offset + to.len()]);
        Ok(())
    }

    /// Copies bytes into memory, from an address on and within its page.
    #[tactic(auto, using(crate::proofs::AccessLaws::not_copied))]
    pub fn copy_in(&mut self, address: u32, from: &[u8]) -> Result<(), MemoryFault>
        requires { page_offset address + length from.now ≤ 4096 }
        ensures ok { OnOk result (copied_in self.old address from.now ≡ Ok self.new) }
        ensures fault { IfErr result (λ fault. copied_in self.old address from.now ≡ Err fault) }
        ensures err { OnErr result (self.new ≡ self.old) }
    {
        let place = place_allowed(&self.pages, page_of(address), Access::Store)?;
        self.pages.put_bytes(place, offset_in_page(address), from);
        Ok(())
    }

    /// The byte at an address, where a page is mapped there.
    #[tactic(auto, using(crate::proofs::EntriesLaws::value_by_place), unfolding(crate::specs::Pages::byte_at))]
    pub fn byte(&self, address: u32) -> Option<u8>
        ensures { result ≡ byte_at self.now address }
    {
        let place = self.pages.place(page_of(address))?;
        let page = self.pages.bytes(self.pages.first(place));
        Some(page[offset_in_page(address)])
    }

    /// The bytes of the page that an access may use.
    #[inline]
    fn usable_bytes(&self, access: Access, address: u32) -> Result<&[u8], MemoryFault>
        ensures bytes { MatchResult result (λ bytes. answer_by (λ page. page.bytes)
            (usable self.now access address) ≡ Ok bytes.now) (λ fault.
            usable self.now access address ≡ Err fault) }
        ensures whole { IfOk result (λ bytes. length bytes.now ≡ 4096) }
    {
        match place_allowed(&self.pages, page_of(address), access) {
            Ok(place) => Ok(self.pages.bytes(self.pages.first(place))),
            Err(fault) => Err(fault),
        }
    }
}
