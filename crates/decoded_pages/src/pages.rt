//! The decoded pages of a process.

ghost use Rattle.std.specs.Prelude.{◌≡◌, ◌*◌, ◌/◌, ◌^◌, ◌<◌, IfOk, IfSome, OnOk, OnErr, Some, length};
ghost use Rattle.std.specs.FinMap.{get};
ghost use Rattle.page_memory.specs.Memory.{Memory};
ghost use Rattle.decoded_pages.specs.Code.{Shows, ShowsAll, is_code};

use crate::page::DecodedPage;
use page_memory::{Access, Rights, page_of};
use std::alloc::{AllocError, Global};

/// Decoded pages: of those that may be run and not written. A page is found by its number, modulo the number of places; a place keeps the
/// first page that came to it.
#[derive(Drop)]
pub struct DecodedPages {
    pub pages: Vec<Option<DecodedPage>>,
}

impl DecodedPages {
    /// No page, with so many places.
    pub fn with_places(alloc: Global, count: usize) -> Result<Self, AllocError>
        ensures { IfOk result (λ decoded. (memory : Memory) → ShowsAll decoded memory) }
    {
        let mut pages = Vec::with_capacity(alloc, count)?;
        for _ in 0..count {
            pages.push_reserved(None);
        }
        Ok(DecodedPages { pages })
    }

    /// Adds the page of a number, with these rights and bytes, if it may be run and not written and its place is free.
    pub fn add(
        &mut self,
        alloc: Global,
        number: u32,
        rights: Rights,
        bytes: &[u8],
    ) -> Result<(), AllocError>
        requires small { number < 2 ^ 20 }
        requires whole { length bytes.now ≡ 4096 }
        ensures added { (memory : Memory) → ShowsAll self.old memory →
            get memory.pages number ≡ Some (record { rights = rights; bytes = bytes.now }) →
            ShowsAll self.new memory }
        ensures err { OnErr result (self.new ≡ self.old) }
    {
        if !is_code(rights) {
            return Ok(());
        }
        let places = self.pages.len();
        if places == 0 {
            return Ok(());
        }
        let place = number as usize % places;
        if self.pages[place].is_some() {
            return Ok(());
        }
        let page = DecodedPage::of_bytes(alloc, number * 4096, bytes)?;
        self.pages[place] = Some(page);
        Ok(())
    }

    /// The decoded page that an address is in.
    #[inline(always)]
    pub fn page_at(&self, address: u32) -> Option<&DecodedPage>
        ensures start { IfSome result (λ page. page.now.start ≡ address / 4096 * 4096) }
        ensures shows { (memory : Memory) → ShowsAll self.now memory →
            IfSome result (λ page. Shows page.now memory) }
    {
        let places = self.pages.len();
        if places == 0 {
            return None;
        }
        match &self.pages[page_of(address) as usize % places] {
            Some(page) if page.start == address / 4096 * 4096 => Some(page),
            _ => None,
        }
    }
}

/// Whether a page with these rights may be run and never written.
fn is_code(rights: Rights) -> bool
    ensures { result ≡ is_code rights }
{
    if rights.allow(Access::Store) {
        return false;
    }
    rights.allow(Access::Fetch)
}
