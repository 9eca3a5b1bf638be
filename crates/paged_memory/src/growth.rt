//! Maps new pages of a process, of its image or of zeros; none takes a frame yet.

ghost use Rattle.std.specs.Prelude.{◌≡◌, true, ◌+◌, ◌≤◌, ◌<◌, ◌^◌, OnOk, OnErr, IsErr};
ghost use Rattle.page_memory.specs.Memory.{with_zeroed};
ghost use Rattle.page_memory.specs.Rights.{may};
ghost use Rattle.page_memory.specs.declared.words.Access.{Access};
ghost use Rattle.page_memory.specs.Entries.{LacksOne, with_added};
ghost use Rattle.paged_memory.specs.Paged.{memory_of};
ghost use Rattle.paged_memory.specs.Fresh.{AddsFresh, AddsZeros, IsUnmapped};
ghost use Rattle.page_store.specs.PageValue.{fresh_zero_page};

use crate::memory::PagedMemory;
use page_store::StoredPage;
use shared_origins::SharedPage;
use std::alloc::{AllocError, Global};
use std::sync::ledger::Ledger;
use swap_slots::SwapSlot;

impl<L: Ledger, S: SwapSlot> PagedMemory<L, S> {
    /// Maps a page that begins with these rights and bytes, where none is mapped. It is fresh, and takes no frame yet.
    pub fn map_page(&mut self, vpn: u32, page: SharedPage) -> Result<(), AllocError>
        requires small { vpn < 2 ^ 20 }
        requires absent { IsUnmapped vpn self.old }
        requires readable { may Access.Store page.rights ≡ true → may Access.Load page.rights ≡
            true }
        ensures ok { OnOk result (AddsFresh vpn page self.old self.new) }
        ensures err { OnErr result (self.new ≡ self.old) }
    {
        match self
            .pages
            .insert(self.alloc, vpn, StoredPage::of_image(page))
        {
            Ok(_) => Ok(()),
            Err(refusal) => Err(refusal),
        }
    }

    /// Maps pages of zeros that may be read and written at so many page numbers from the first on, wherever none is
    /// mapped. It maps all of them, or none if there is not enough memory. It can fail only where one is missing. The pages
    /// are fresh, and take no frame yet.
    pub fn map_zeroed(&mut self, first: u32, count: u32) -> Result<(), AllocError>
        requires { first + count ≤ 2 ^ 20 }
        ensures adds { OnOk result (AddsZeros first count self.old self.new) }
        ensures ok { OnOk result (self.new.pages ≡
            with_added first count fresh_zero_page self.old.pages) }
        ensures memory { OnOk result (memory_of S.content self.new ≡ with_zeroed first count
            (memory_of S.content self.old)) }
        ensures err { OnErr result (self.new ≡ self.old) }
        ensures missing { IsErr result → LacksOne first count self.old.pages }
        ensures process { self.new.process ≡ self.old.process }
        ensures tables { self.new.tables ≡ self.old.tables }
        ensures caches { self.new.caches ≡ self.old.caches }
        ensures reserved { self.new.reserved ≡ self.old.reserved }
    {
        self.pages.add_zeroed(self.alloc, first, count)
    }
}
