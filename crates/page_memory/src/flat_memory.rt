//! Flat memory, the reference for paged memory: all pages are there; with the words that harts reserved.

ghost use Rattle.std.specs.Prelude.{◌≡◌, ◌+◌, ◌≤◌, ◌^◌, ◌<◌, Ok, Err, IfOk, IfErr, OnOk, OnErr, length, IsErr, None, IfSome, true, false};
ghost use Rattle.std.specs.FinMap as map;
ghost use Rattle.page_memory.specs.declared.words.Access.{Access};
ghost use Rattle.page_memory.specs.Pages.{answer_by, number_at, aligned_page, HasGap};
ghost use Rattle.page_memory.specs.Memory.{unreserved, fetched, loaded, stored, copied_out, copied_in, byte_at, with_zeroed, loaded_reserved, stored_conditionally};
ghost use Rattle.page_memory.specs.Words.{page_offset};

use crate::fault::MemoryFault;
use crate::flat_pages::FlatPages;
use crate::page::Page;
use crate::reservations::Reservations;
use crate::words::Width;
use std::alloc::{AllocError, Global};
use std::marker::Model;

/// Memory whose pages are all there: the reference that paged memory is compared with.
#[derive(Drop)]
pub struct FlatMemory {
    pages: FlatPages,
    reservations: Reservations,
}

impl Model for FlatMemory {
    ghost use Rattle.std.specs.Prelude.{refl};
    ghost use Rattle.std.specs.FinMap as map;
    ghost use Rattle.std.specs.Coded.{code_by, coded×, coded_ℕ, coded_list, coded_option};
    ghost use Rattle.page_memory.specs.Memory.{Memory};
    ghost use Rattle.page_memory.specs.Pages.{Pages};
    ghost use Rattle.page_memory.specs.Reservations.{Reservations};
    ghost use Rattle.page_memory.specs.contracts.page.Page as page;

    ghost Value = { Memory };

    ghost coded = { code_by (Pages × Reservations) (coded× (map.code coded_ℕ page.the_row.coded) (coded_list (coded_option coded_ℕ)))
        (λ memory. (memory.pages, memory.reserved)) (λ pair. record { pages = pair.0; reserved = pair.1 }) (λ _. refl) };

    ghost view = { λ memory. record { pages = memory.pages; reserved = memory.reservations } };
}

impl FlatMemory {
    /// Memory with no page, with room for so many.
    pub fn with_capacity(alloc: Global, pages: u32) -> Result<Self, AllocError>
        ensures { IfOk result (λ memory. memory ≡ unreserved map.empty) }
    {
        Ok(FlatMemory {
            pages: FlatPages::with_capacity(alloc, pages)?,
            reservations: Reservations::new(),
        })
    }

    /// A copy of the memory.
    pub fn try_clone(&self) -> Result<Self, AllocError>
        ensures { IfOk result (λ copy. copy ≡ self.now) }
    {
        Ok(FlatMemory {
            pages: self.pages.try_clone()?,
            reservations: self.reservations.copied(),
        })
    }

    /// Maps a page where none is mapped.
    pub fn map_page(&mut self, number: u32, page: Page) -> Result<(), AllocError>
        requires small { number < 2 ^ 20 }
        requires absent { map.get self.old.pages number ≡ None }
        ensures ok { OnOk result (self.new ≡ record self.old {
          pages = map.insert self.old.pages
              number page;
        }) }
        ensures err { OnErr result (self.new ≡ self.old) }
    {
        self.pages.map_page(number, page)
    }

    /// Maps pages of zeros, to be read and written, at so many page numbers from the first on, wherever
    /// none is mapped: all of them, or none where memory is wanting, as it can be only where one is missing.
    pub fn map_zeroed(&mut self, first: u32, count: u32) -> Result<(), AllocError>
        requires { first + count ≤ 2 ^ 20 }
        ensures ok { OnOk result (self.new ≡ with_zeroed first count self.old) }
        ensures err { OnErr result (self.new ≡ self.old) }
        ensures missing { IsErr result → HasGap first count self.old.pages }
    {
        self.pages.map_zeroed(first, count)
    }

    /// Fetches the instruction word at an address. The page is remembered, so that the next fetch from
    /// it takes neither a look-up nor a test of its rights.
    #[inline]
    pub fn fetch(&mut self, address: u32) -> Result<u32, MemoryFault>
        ensures word { result ≡ fetched self.old address }
        ensures memory { self.new ≡ self.old }
    {
        self.pages.fetch(address)
    }

    /// Loads the number at an address, with zeros above it. The page is remembered.
    #[inline]
    pub fn load(&mut self, width: Width, address: u32) -> Result<u32, MemoryFault>
        ensures number { result ≡ loaded self.old width address }
        ensures memory { self.new ≡ self.old }
    {
        self.pages.load(width, address)
    }

    /// The number at an address whose page is remembered for loads.
    #[inline(always)]
    pub fn load_at_hand(&self, width: Width, address: u32) -> Option<u32>
        ensures { IfSome result (λ number. loaded self.now width address ≡ Ok number) }
    {
        self.pages.load_at_hand(width, address)
    }

    /// Stores the low bytes of a word, if the address's page is remembered for stores and no reservation may stand, and answers
    /// whether it has.
    #[inline(always)]
    #[tactic(auto, using(crate::proofs::Reserving::nothing_left), unfolding(crate::specs::Memory::stored))]
    pub fn store_at_hand(&mut self, width: Width, address: u32, word: u32) -> bool
        ensures done { result ≡ true → stored self.old width address word ≡ Ok self.new }
        ensures other { result ≡ false → self.new ≡ self.old }
    {
        if self.reservations.any() {
            return false;
        }
        self.pages.store_at_hand(width, address, word)
    }

    /// Loads the word that an atomic instruction is to replace: its page needs the right to write.
    #[inline]
    pub fn load_to_replace(&self, address: u32) -> Result<u32, MemoryFault>
        ensures { result ≡ answer_by (number_at 4 address)
            (aligned_page self.now.pages Access.Store 4 address) }
    {
        self.pages.load_to_replace(address)
    }

    /// Stores the low bytes of a word at an address, and ends the reservations of the word that it writes to. The page is remembered.
    #[inline]
    pub fn store(&mut self, width: Width, address: u32, word: u32) -> Result<(), MemoryFault>
        ensures ok { OnOk result (stored self.old width address word ≡ Ok self.new) }
        ensures fault { IfErr result (λ fault. stored self.old width address word ≡ Err fault) }
        ensures err { OnErr result (self.new ≡ self.old) }
    {
        match self.pages.store(width, address, word) {
            Ok(()) => {
                self.reservations.end(address, width.bytes() as usize);
                Ok(())
            }
            Err(fault) => Err(fault),
        }
    }

    /// Loads the word at an address, and reserves it for a hart.
    pub fn load_reserved(&mut self, hart: u32, address: u32) -> Result<u32, MemoryFault>
        ensures ok { IfOk result (λ word. loaded_reserved self.old hart address ≡
            Ok (word, self.new)) }
        ensures fault { IfErr result (λ fault. loaded_reserved self.old hart address ≡ Err fault) }
        ensures err { OnErr result (self.new ≡ self.old) }
    {
        match self.pages.load(Width::Word, address) {
            Ok(word) => {
                self.reservations.reserve(hart, address);
                Ok(word)
            }
            Err(fault) => Err(fault),
        }
    }

    /// Stores a word at an address where a hart has reserved it, and answers whether it has. The hart's reservation goes in both cases.
    pub fn store_conditional(
        &mut self,
        hart: u32,
        address: u32,
        word: u32,
    ) -> Result<bool, MemoryFault>
        ensures ok { IfOk result (λ is_stored. stored_conditionally self.old hart address word ≡
            Ok (is_stored, self.new)) }
        ensures fault { IfErr result (λ fault. stored_conditionally self.old hart address word ≡
            Err fault) }
        ensures err { OnErr result (self.new ≡ self.old) }
    {
        if self.reservations.has(hart, address) {
            match self.pages.store(Width::Word, address, word) {
                Ok(()) => {
                    self.reservations.release(hart);
                    self.reservations.end(address, 4);
                    Ok(true)
                }
                Err(fault) => Err(fault),
            }
        } else {
            match self.pages.load_to_replace(address) {
                Ok(_) => {
                    self.reservations.release(hart);
                    Ok(false)
                }
                Err(fault) => Err(fault),
            }
        }
    }

    /// Copies bytes out of memory, from an address on and within its page.
    pub fn copy_out(&self, address: u32, to: &mut [u8]) -> Result<(), MemoryFault>
        requires { page_offset address + length to.old ≤ 4096 }
        ensures ok { OnOk result (copied_out self.now address (length to.old) ≡ Ok to.new) }
        ensures fault { IfErr result (λ fault. copied_out self.now address (length to.old) ≡
            Err fault) }
        ensures err { OnErr result (to.new ≡ to.old) }
    {
        self.pages.copy_out(address, to)
    }

    /// Copies bytes into memory, from an address on and within its page, and ends the reservations of the words that they are written to.
    pub fn copy_in(&mut self, address: u32, from: &[u8]) -> Result<(), MemoryFault>
        requires { page_offset address + length from.now ≤ 4096 }
        ensures ok { OnOk result (copied_in self.old address from.now ≡ Ok self.new) }
        ensures fault { IfErr result (λ fault. copied_in self.old address from.now ≡ Err fault) }
        ensures err { OnErr result (self.new ≡ self.old) }
    {
        match self.pages.copy_in(address, from) {
            Ok(()) => {
                self.reservations.end(address, from.len());
                Ok(())
            }
            Err(fault) => Err(fault),
        }
    }

    /// The byte at an address, where a page is mapped there.
    pub fn byte(&self, address: u32) -> Option<u8>
        ensures { result ≡ byte_at self.now address }
    {
        self.pages.byte(address)
    }
}
