//! The bus of one hart on paged memory: by its translation cache, else by a walk of the page tables.

ghost use Rattle.std.specs.Prelude.{◌≡◌, ◌<◌, ◌+◌, ◌≤◌, length, OnErr};
ghost use Rattle.page_memory.specs.Memory.{fetched, loaded, stored, replaced, loaded_reserved};
ghost use Rattle.page_memory.specs.Memory.{stored_conditionally, copied_out, copied_in};
ghost use Rattle.page_memory.specs.Words.{page_number, page_offset};
ghost use Rattle.page_memory.specs.declared.words.Access.{Access};
ghost use Rattle.rv_exec.specs.Amo.{amo_result};
ghost use Rattle.rv_exec.specs.Answers.{with_answer};
ghost use Rattle.paged_memory.specs.access.Accesses.{AnswersAccess, Reads, Reserves, Writes};
ghost use Rattle.paged_memory.specs.Paged.{memory_of};
ghost use Rattle.paged_memory.specs.access.Access.{cache_of};
ghost use Rattle.paged_memory.specs.access.HartMemory.{InTurn};
ghost use Rattle.paged_memory.specs.access.Told.{KeepsTold};

use crate::memory::PagedMemory;
use crate::reading::{ReadyBytes, fetch_anew, load_anew, load_to_replace, read, read_ready};
use crate::writing;
use page_memory::{Access, Width, number_from, offset_in_page};
use rv_exec::{Bus, BusError};
use rv_isa::AmoKind;
use std::alloc::AllocError;
use std::marker::{Brand, PhantomData};
use std::sync::ledger::Ledger;
use swap_slots::SwapSlot;

/// What a hart had cached when its turn began.
pub trait Opening {
    ghost use Rattle.std.specs.Prelude.{List};
    ghost use Rattle.tlb_core.specs.declared.translation.Translation.{Translation};

    ghost opening: { List Translation };
}

impl Opening for Brand {
    ghost use Rattle.std.specs.Prelude.{[]};

    ghost opening = { [] };
}

/// A process's memory as one of its harts reaches it: by its cache at once, and else by a walk of the tables, which sets the
/// accessed bit and, for a store, the dirty bit. That a page is not mapped or lacks the right comes before that it is absent.
#[derive(Drop)]
pub struct HartMemory<'a, L: Ledger, S: SwapSlot, O: Opening> {
    memory: &'a mut PagedMemory<L, S>,
    hart: usize,
    of: PhantomData<O>,
    ghost in_turn: { InTurn hart O.opening memory.now },
}

impl<'a, L: Ledger, S: SwapSlot, O: Opening> HartMemory<'a, L, S, O> {
    /// The memory as a hart that was started reaches it, until the borrow ends.
    #[tactic(auto, using(crate::proofs::access_laws::HartMemoryLaws::turn_opens))]
    pub fn new(memory: &'a mut PagedMemory<L, S>, hart: usize) -> Self
        requires started { hart < length memory.old.caches }
        requires opening { cache_of memory.old.caches hart ≡ O.opening }
        ensures same_reference { result.memory.ghost_name ≡ memory.entry.ghost_name }
        ensures memory { result.memory.now ≡ memory.old }
        ensures hart { result.hart ≡ hart }
    {
        HartMemory {
            memory,
            hart,
            of: PhantomData,
        }
    }
}

impl<'a, L: Ledger, S: SwapSlot, O: Opening> Bus for HartMemory<'a, L, S, O> {
    ghost use Rattle.std.specs.Prelude.{ℕ};
    ghost use Rattle.std.proofs.Common.{refl, sym, ◌∙◌, subst};
    ghost use Rattle.paged_memory.specs.access.Access.{HasPage, LacksPage};
    ghost use Rattle.paged_memory.specs.access.HartMemory.{MarksWithin, UsedSince};
    ghost use Rattle.paged_memory.specs.access.Missing.{MissesIn, TakesSince};

    ghost memory = { λ m. memory_of S.content m.memory.now };

    ghost lacks = { λ m. LacksPage m.memory.now.pages };

    ghost has = { λ m. HasPage m.memory.now.pages (cache_of m.memory.now.caches m.hart) };

    ghost marks = { λ m. UsedSince m.hart m.memory.now O.opening };

    ghost within = { λ m. MarksWithin m.memory.now.tables };

    ghost takes = { λ m. TakesSince m.memory.now O.opening };

    ghost misses = { λ m. MissesIn m.memory.now m.hart };

    ghost keeps = { λ old new. (new.hart ≡ old.hart) ×
        (new.memory.ghost_name ≡ old.memory.ghost_name) ×
        KeepsTold old.hart O.opening old.memory.now new.memory.now };

    ghost keeps_itself = { λ bus. (
      refl,
      refl,
      record {
        since = λ start kept. kept;
        lacked = λ page lacks. lacks;
        had = λ page has. has;
        used = λ page used. used;
        takes = λ page taken. taken;
      },
    ) };

    ghost keeps_on = { λ before between after first second.
        let later = subst (λ h. KeepsTold h O.opening between.memory.now after.memory.now)
        first.0 second.2 in (
          second.0 ∙ first.0,
          second.1 ∙ first.1,
          record {
            since = λ start kept. later.since start (first.2.since start kept);
            lacked = λ page lacks. first.2.lacked page (later.lacked page lacks);
            had = λ page has. first.2.had page (later.had page has);
            used = λ page used. later.used page (first.2.used page used);
            takes = λ page taken. later.takes page (first.2.takes page taken);
          },
        ) };

    ghost lacked_before = { λ before after page kept. kept.2.lacked page };

    ghost had_before = { λ before after page kept has. kept.2.had page
        (subst (λ h. HasPage after.memory.now.pages (cache_of after.memory.now.caches h) page)
        kept.0 has) };

    ghost marked_on = { λ before after page kept was. subst
        (λ h. UsedSince h after.memory.now O.opening page) (sym kept.0) (kept.2.used page was) };

    ghost takes_on = { λ before after page kept. kept.2.takes page };

    #[inline]
    #[tactic(auto, unfolding(page_memory::specs::Pages::fetched, page_memory::specs::Pages::aligned_page))]
    fn fetch(&mut self, address: u32) -> Result<u32, BusError>
        ensures answer { AnswersAccess self.old.hart Access.Fetch self.old.memory.now
            self.new.memory.now address (fetched (memory_of S.content self.old.memory.now) address)
            result }
        ensures reads { Reads self.old.hart Access.Fetch
            (page_number address) result self.old.memory.now self.new.memory.now }
        ensures hart { self.new.hart ≡ self.old.hart }
        ensures same_reference { self.new.memory.ghost_name ≡ self.old.memory.ghost_name }
    {
        let memory = &mut *self.memory;
        match read_ready(
            &memory.pages,
            &memory.tables,
            &memory.caches,
            self.hart,
            Access::Fetch,
            Width::Word,
            address,
        ) {
            Some(ReadyBytes { page, offset }) => Ok(number_from(page, Width::Word, offset)),
            None => fetch_anew(
                &memory.pages,
                &mut memory.tables,
                &mut memory.caches,
                self.hart,
                address,
            )
            .answer(),
        }
    }

    #[inline]
    #[tactic(auto, unfolding(page_memory::specs::Pages::loaded, page_memory::specs::Pages::aligned_page))]
    fn load(&mut self, width: Width, address: u32) -> Result<u32, BusError>
        ensures answer { AnswersAccess self.old.hart Access.Load self.old.memory.now
            self.new.memory.now address (loaded (memory_of S.content self.old.memory.now) width
            address) result }
        ensures reads { Reads self.old.hart Access.Load
            (page_number address) result self.old.memory.now self.new.memory.now }
        ensures hart { self.new.hart ≡ self.old.hart }
        ensures same_reference { self.new.memory.ghost_name ≡ self.old.memory.ghost_name }
    {
        let memory = &mut *self.memory;
        match read_ready(
            &memory.pages,
            &memory.tables,
            &memory.caches,
            self.hart,
            Access::Load,
            width,
            address,
        ) {
            Some(ReadyBytes { page, offset }) => Ok(number_from(page, width, offset)),
            None => load_anew(
                &memory.pages,
                &mut memory.tables,
                &mut memory.caches,
                self.hart,
                width,
                address,
            )
            .answer(),
        }
    }

    #[inline]
    fn store(&mut self, width: Width, address: u32, word: u32) -> Result<(), BusError>
        ensures answer { let after = with_answer (λ _.
            memory_of S.content self.new.memory.now) result in
            AnswersAccess self.old.hart Access.Store self.old.memory.now self.new.memory.now address
            (stored (memory_of S.content self.old.memory.now) width address word) after }
        ensures writes { Writes self.old.hart Access.Store
            (page_number address) result self.old.memory.now self.new.memory.now }
        ensures hart { self.new.hart ≡ self.old.hart }
        ensures same_reference { self.new.memory.ghost_name ≡ self.old.memory.ghost_name }
    {
        let memory = &mut *self.memory;
        match writing::store(
            &mut memory.pages,
            &mut memory.tables,
            &mut memory.caches,
            self.hart,
            width,
            address,
            word,
        ) {
            Ok(()) => {
                memory.reservations.end(address, width.bytes() as usize);
                Ok(())
            }
            Err(refusal) => Err(refusal),
        }
    }

    #[inline]
    fn amo(&mut self, address: u32, operation: AmoKind, operand: u32) -> Result<u32, BusError>
        ensures answer { let update = λ (old : ℕ). amo_result operation old operand in
            let after = with_answer (λ old. (old, memory_of S.content self.new.memory.now))
            result in
            AnswersAccess self.old.hart Access.Store self.old.memory.now self.new.memory.now address
            (replaced (memory_of S.content self.old.memory.now) update address) after }
        ensures writes { Writes self.old.hart Access.Store
            (page_number address) result self.old.memory.now self.new.memory.now }
        ensures hart { self.new.hart ≡ self.old.hart }
        ensures same_reference { self.new.memory.ghost_name ≡ self.old.memory.ghost_name }
    {
        let memory = &mut *self.memory;
        match writing::amo(
            &mut memory.pages,
            &mut memory.tables,
            &mut memory.caches,
            self.hart,
            address,
            operation,
            operand,
        ) {
            Ok(old) => {
                memory.reservations.end(address, 4);
                Ok(old)
            }
            Err(refusal) => Err(refusal),
        }
    }

    #[inline(always)]
    fn load_reserved(&mut self, hart: u32, address: u32) -> Result<u32, BusError>
        ensures answer { let after = with_answer (λ word.
            (word, memory_of S.content self.new.memory.now)) result in
            AnswersAccess self.old.hart Access.Load self.old.memory.now self.new.memory.now address
            (loaded_reserved (memory_of S.content self.old.memory.now) hart address) after }
        ensures reserves { Reserves self.old.hart Access.Load
            (page_number address) result self.old.memory.now self.new.memory.now }
        ensures hart { self.new.hart ≡ self.old.hart }
        ensures same_reference { self.new.memory.ghost_name ≡ self.old.memory.ghost_name }
    {
        match self.load(Width::Word, address) {
            Ok(word) => {
                let memory = &mut *self.memory;
                memory.reservations.reserve(hart, address);
                Ok(word)
            }
            Err(refusal) => Err(refusal),
        }
    }

    #[inline(always)]
    fn store_conditional(&mut self, hart: u32, address: u32, word: u32) -> Result<bool, BusError>
        ensures answer { let after = with_answer (λ is_stored.
            (is_stored, memory_of S.content self.new.memory.now)) result in
            AnswersAccess self.old.hart Access.Store self.old.memory.now self.new.memory.now address
            (stored_conditionally (memory_of S.content self.old.memory.now) hart address word) after }
        ensures writes { Writes self.old.hart Access.Store
            (page_number address) result self.old.memory.now self.new.memory.now }
        ensures hart { self.new.hart ≡ self.old.hart }
        ensures same_reference { self.new.memory.ghost_name ≡ self.old.memory.ghost_name }
    {
        let memory = &mut *self.memory;
        if memory.reservations.has(hart, address) {
            match writing::store(
                &mut memory.pages,
                &mut memory.tables,
                &mut memory.caches,
                self.hart,
                Width::Word,
                address,
                word,
            ) {
                Ok(()) => {
                    memory.reservations.release(hart);
                    memory.reservations.end(address, 4);
                    Ok(true)
                }
                Err(refusal) => Err(refusal),
            }
        } else {
            match load_to_replace(
                &memory.pages,
                &mut memory.tables,
                &mut memory.caches,
                self.hart,
                address,
            ) {
                Ok(_) => {
                    memory.reservations.release(hart);
                    Ok(false)
                }
                Err(refusal) => Err(refusal),
            }
        }
    }

    #[tactic(auto, unfolding(page_memory::specs::Pages::copied_out))]
    fn copy_out(&mut self, address: u32, to: &mut [u8]) -> Result<(), BusError>
        requires within { page_offset address + length to.old ≤ 4096 }
        ensures answer { let copied = with_answer (λ _. to.new) result in
            AnswersAccess self.old.hart Access.Load self.old.memory.now self.new.memory.now address
            (copied_out (memory_of S.content self.old.memory.now) address (length to.old)) copied }
        ensures refused { OnErr result (to.new ≡ to.old) }
        ensures reads { Reads self.old.hart Access.Load
            (page_number address) result self.old.memory.now self.new.memory.now }
        ensures hart { self.new.hart ≡ self.old.hart }
        ensures same_reference { self.new.memory.ghost_name ≡ self.old.memory.ghost_name }
    {
        let memory = &mut *self.memory;
        match read(
            &memory.pages,
            &mut memory.tables,
            &mut memory.caches,
            self.hart,
            Access::Load,
            address,
        ) {
            Ok(page) => {
                let offset = offset_in_page(address);
                to.copy_from_slice(&page[offset..offset + to.len()]);
                Ok(())
            }
            Err(refusal) => Err(refusal),
        }
    }

    fn copy_in(&mut self, address: u32, from: &[u8]) -> Result<(), BusError>
        requires within { page_offset address + length from.now ≤ 4096 }
        ensures answer { let after = with_answer (λ _.
            memory_of S.content self.new.memory.now) result in
            AnswersAccess self.old.hart Access.Store self.old.memory.now self.new.memory.now address
            (copied_in (memory_of S.content self.old.memory.now) address from.now) after }
        ensures writes { Writes self.old.hart Access.Store
            (page_number address) result self.old.memory.now self.new.memory.now }
        ensures hart { self.new.hart ≡ self.old.hart }
        ensures same_reference { self.new.memory.ghost_name ≡ self.old.memory.ghost_name }
    {
        let memory = &mut *self.memory;
        match writing::copy_in(
            &mut memory.pages,
            &mut memory.tables,
            &mut memory.caches,
            self.hart,
            address,
            from,
        ) {
            Ok(()) => {
                memory.reservations.end(address, from.len());
                Ok(())
            }
            Err(refusal) => Err(refusal),
        }
    }

    #[tactic(auto, using(crate::proofs::GrowthLaws::gap_shown, crate::proofs::Marking::bounds_same))]
    fn map_zeroed(&mut self, first: u32, count: u32) -> Result<(), AllocError> {
        self.memory.map_zeroed(first, count)
    }
}
