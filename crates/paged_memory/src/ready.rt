//! A process's memory as far as a hart's cache serves an access at once: tables and caches stay as they are.

ghost use Rattle.std.specs.Prelude.{◌≡◌, ◌<◌, Ok, IfSome, true, false};
ghost use Rattle.page_memory.specs.declared.words.Access.{Access};
ghost use Rattle.page_memory.specs.Memory.{loaded, stored};
ghost use Rattle.page_memory.specs.Words.{page_number};
ghost use Rattle.paged_memory.specs.Paged.{memory_of};
ghost use Rattle.paged_memory.specs.access.Ready.{ServesIn, KeepsReady};
ghost use Rattle.paged_memory.specs.Whole.{harts_in};

use crate::access::is_fetched_at_once;
use crate::memory::PagedMemory;
use crate::reading::{ReadyBytes, read_ready};
use crate::writing::store_ready;
use decoded_pages::ReadyMemory;
use page_memory::{Access, Width, number_from, page_of};
use std::sync::ledger::Ledger;
use swap_slots::SwapSlot;

impl<L: Ledger, S: SwapSlot> ReadyMemory for PagedMemory<L, S> {
    ghost use Rattle.std.proofs.Common.{refl, sym, subst};
    ghost use Rattle.paged_memory.specs.Paged.{PagedValue};

    ghost memory = { λ m. memory_of S.content m };

    ghost admits = { λ hart m. hart < harts_in m };

    ghost serves = { λ hart m. ServesIn m hart };

    ghost stays = { λ hart. KeepsReady S.content S.honest hart };

    ghost stays_itself = { λ hart m. record {
      only = refl;
      seen = λ page. refl;
      since = λ start kept. kept;
      serves = λ access page serves. serves;
      coheres = λ is. is;
    } };

    ghost admits_on = { λ hart before after kept started. subst
        (λ (m : PagedValue S). hart < harts_in m) (sym kept.only) started };

    ghost serves_on = { λ hart before after access page kept. kept.serves access page };

    #[inline(always)]
    fn ready_fetch(&self, hart: u32, address: u32) -> bool {
        is_fetched_at_once(
            &self.pages,
            &self.tables,
            &self.caches,
            hart as usize,
            page_of(address),
        )
    }

    #[inline(always)]
    #[tactic(auto, unfolding(page_memory::specs::Pages::loaded, page_memory::specs::Pages::aligned_page))]
    fn ready_load(&self, hart: u32, width: Width, address: u32) -> Option<u32> {
        match read_ready(
            &self.pages,
            &self.tables,
            &self.caches,
            hart as usize,
            Access::Load,
            width,
            address,
        ) {
            Some(ReadyBytes { page, offset }) => Some(number_from(page, width, offset)),
            None => None,
        }
    }

    #[inline(always)]
    fn ready_store(&mut self, hart: u32, width: Width, address: u32, word: u32) -> bool {
        if self.reservations.any() {
            return false;
        }
        let is_stored = store_ready(
            &mut self.pages,
            &self.tables,
            &self.caches,
            hart as usize,
            width,
            address,
            word,
        );
        self.coherent();
        is_stored
    }
}
