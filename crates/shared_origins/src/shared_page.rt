//! A page whose bytes several holders share, each with its own rights to it.

ghost use Rattle.std.specs.Prelude.{◌≡◌, IfOk, length};

use page_memory::{PAGE_SIZE, Page, Rights};
use std::alloc::{AllocError, Global};
use std::marker::Model;
use std::sync::Arc;

/// A page whose bytes several hold, as those that an image begins with. Each has rights of its own to it.
#[derive(Drop)]
pub struct SharedPage {
    rights: Rights,
    bytes: Arc<Box<[u8; PAGE_SIZE]>>,
}

impl Model for SharedPage {
    ghost use Rattle.std.specs.Prelude.{◌≡◌, length};
    ghost use Rattle.std.specs.Arc.{arc_value};
    ghost use Rattle.page_memory.specs.Pages.{Page as Content};

    ghost Value = { Content };

    ghost view = { λ shared. record { rights = shared.rights; bytes = (arc_value shared.bytes).value } };

    ghost invariant = { λ shared. length (arc_value shared.bytes).value ≡ 4096 };
}

impl SharedPage {
    /// A page that one holds so far.
    pub fn new(alloc: Global, page: Page) -> Result<Self, AllocError>
        ensures { IfOk result (λ shared. shared ≡ page) }
    {
        Ok(SharedPage {
            rights: page.rights(),
            bytes: Arc::new(alloc, page.into_bytes())?,
        })
    }

    /// The same page for one more holder. Takes no memory: it is refused where 2^63 - 1 hold it.
    pub fn share(&self) -> Result<Self, AllocError>
        ensures { IfOk result (λ shared. shared ≡ self.now) }
    {
        Ok(SharedPage {
            rights: self.rights,
            bytes: Arc::try_clone(&self.bytes)?,
        })
    }

    /// A page of its own, with the same rights and bytes.
    pub fn to_page(&self, alloc: Global) -> Result<Page, AllocError>
        ensures { IfOk result (λ page. page ≡ self.now) }
    {
        let mut page = Page::zeroed(alloc, self.rights)?;
        page.put_bytes(0, self.bytes());
        Ok(page)
    }

    pub fn rights(&self) -> Rights
        ensures { result ≡ self.now.rights }
    {
        self.rights
    }

    /// Changes what this holder may use the page for.
    pub fn set_rights(&mut self, rights: Rights)
        ensures { self.new ≡ record self.old { rights = rights } }
    {
        self.rights = rights;
    }

    pub fn bytes(&self) -> &[u8]
        ensures bytes { result.now ≡ self.now.bytes }
        ensures whole { length result.now ≡ 4096 }
    {
        self.bytes.as_slice()
    }
}
