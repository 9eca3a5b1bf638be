//! Pages that were used.

ghost use Rattle.std.specs.Prelude.{◌≡◌, ℕ, None, OnOk, filter, length, nat_eq};
ghost use Rattle.std.specs.HashMap.{IsUnique, values};
ghost use Rattle.guest_profile.specs.Listed.{AreSoMany};
ghost use Rattle.guest_profile.specs.Pages.{IsMarked, is_stored_to, marked, used_by};

use guest_steps::DataAccess;
use page_memory::page_of;
use std::alloc::{AllocError, Global};
use std::collections::HashMap;

/// Pages by their numbers, and whether each was stored to.
#[derive(Drop)]
pub(crate) struct UsedPages {
    pages: HashMap<u32, bool>,
    /// The page that was used last, and whether that was a store: it need not be marked again.
    last: Option<(u32, bool)>,
    ghost kept: { IsMarked pages last },
}

impl UsedPages {
    ghost use Rattle.guest_profile.specs.UsedPagesOf.{use_of, was_used, was_stored_to};

    pub(crate) fn new(alloc: Global) -> Self
        ensures { (page : ℕ) → use_of result page ≡ None }
    {
        UsedPages {
            pages: HashMap::new(alloc),
            last: None,
        }
    }

    /// The page of an access is used, where there is one.
    pub(crate) fn mark(&mut self, access: Option<DataAccess>) -> Result<(), AllocError>
        ensures { OnOk result ((page : ℕ) → use_of self.new page ≡
            used_by access page (use_of self.old page)) }
    {
        match access {
            Some(access) => self.mark_page(page_of(access.address), access.is_store),
            None => Ok(()),
        }
    }

    fn mark_page(&mut self, page: u32, is_store: bool) -> Result<(), AllocError>
        ensures { OnOk result ((at : ℕ) → use_of self.new at ≡
            marked page is_store at (use_of self.old at)) }
    {
        if self.last == Some((page, is_store)) {
            return Ok(());
        }
        let was_stored = is_stored_to(self.pages.get(&page).copied());
        self.last = None;
        match self.pages.insert(page, was_stored || is_store) {
            Ok(_) => {
                self.last = Some((page, is_store));
                Ok(())
            }
            Err(_) => Err(AllocError),
        }
    }

    /// How many pages were used.
    pub(crate) fn len(&self) -> usize
        ensures { AreSoMany nat_eq (was_used self.now) result }
    {
        self.pages.len()
    }

    /// How many of them were stored to.
    pub(crate) fn stored(&self) -> usize
        ensures { AreSoMany nat_eq (was_stored_to self.now) result }
    {
        true_count(&self.pages)
    }
}

/// How many entries are true.
fn true_count(pages: &HashMap<u32, bool>) -> usize
    ensures many { result ≡ length (filter (λ stored. stored) (values pages.now)) }
    ensures unique { IsUnique nat_eq pages.now }
{
    pages.values().filter(|is_stored| **is_stored).count()
}

/// Whether a page was stored to, by how it was used.
fn is_stored_to(used: Option<bool>) -> bool
    ensures { result ≡ is_stored_to used }
{
    used.unwrap_or(false)
}
