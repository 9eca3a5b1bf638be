//! The memory of one process: its pages, its page tables, its harts' caches and their reservations.

ghost use Rattle.std.specs.Prelude.{◌≡◌, [], IfOk};
ghost use Rattle.paged_memory.specs.Fresh.{MapsFresh};
ghost use Rattle.paged_memory.specs.Paged.{PagedValue};

use crate::caches::Caches;
use page_memory::{PageMap, Reservations};
use page_store::StoredPage;
use std::alloc::{AllocError, Global};
use std::marker::Model;
use std::sync::ledger::Ledger;
use sv32_table::PageTables;
use swap_slots::SwapSlot;

/// The pages of one process, with its page tables, a translation cache for each of its harts, and the words that they have reserved.
///
/// A reservation is of an address: paging does not touch it.
#[derive(Drop)]
pub struct PagedMemory<L: Ledger, S: SwapSlot> {
    pub(crate) alloc: Global,
    pub(crate) process: u32,
    pub(crate) pages: PageMap<StoredPage<L, S>>,
    pub(crate) tables: PageTables,
    pub(crate) caches: Caches,
    pub(crate) reservations: Reservations,
}

impl<L: Ledger, S: SwapSlot> Model for PagedMemory<L, S> {
    ghost use Rattle.paged_memory.specs.Paged.{PagedValue, Holds};

    ghost Value = { PagedValue S };

    ghost view = { λ m. record {
      process = m.process;
      pages = m.pages;
      tables = m.tables;
      caches = m.caches;
      reserved = m.reservations;
    } };

    ghost invariant = { λ m. Holds S.content S.honest m.pages m.tables m.caches };
}

impl<L: Ledger, S: SwapSlot> PagedMemory<L, S> {
    /// The memory of a process of this number, with no page and no hart.
    #[tactic(auto, using(crate::proofs::access_laws::CallLaws::holds_new))]
    pub fn new(alloc: Global, process: u32) -> Result<Self, AllocError>
        ensures { IfOk result (λ memory. MapsFresh process [] memory) }
    {
        Ok(PagedMemory {
            alloc,
            process,
            pages: PageMap::new(alloc)?,
            tables: PageTables::new(alloc)?,
            caches: Caches::new(),
            reservations: Reservations::new(),
        })
    }

    /// The number of the process.
    pub fn process(&self) -> u32
        ensures { result ≡ self.now.process }
    {
        self.process
    }
}
