//! A changed page is written to its slot while it stays mapped, and counts as unchanged once no store followed the copy.

ghost use Rattle.std.specs.Prelude.{◌≡◌, ◌≤◌, ◌<◌, ◌^◌, ℕ, true, false, is_some, IfErr, IfNone};
ghost use Rattle.std.specs.Prelude.{IfSome, OnErr, OnOk, IsNone, IsSome};
ghost use Rattle.page_store.specs.declared.answer.CleanCopy.{CleanCopy};
ghost use Rattle.paged_memory.specs.cleaning.Cleaning.{BeginsCleaning, CopiesBack, CopiesOut, CopiesPage};
ghost use Rattle.paged_memory.specs.cleaning.Cleaning.{DoesNotClean, EndsCleaningIn, is_changed_in, settles};
ghost use Rattle.paged_memory.specs.cleaning.Copies.{LeavesCopies};
ghost use Rattle.paged_memory.specs.moves.Moving.{with_pages};
ghost use Rattle.paged_memory.specs.Paged.{memory_of};

use crate::space::Space;
use page_store::{CleanCopy, CleanRefusal, Cleaned, CleanedJob};
use std::sync::ledger::Ledger;
use swap_slots::SwapSlot;

impl<L: Ledger, S: SwapSlot> Space<L, S> {
    /// Begins to clean a changed resident page: its dirty bit is cleared, and its translations are marked as ones to be
    /// dropped, so that the next store sets the bit again. Until the cleaning ends nothing backs the page. The process's end
    /// ends each cleaning that has no copy. Takes no memory.
    pub fn begin_clean(&mut self, vpn: u32) -> Result<(), CleanRefusal>
        requires { vpn < 2 ^ 20 }
        ensures ok { OnOk result (BeginsCleaning (is_some self.old.running.ending) vpn
            self.old.memory self.new.memory) }
        ensures refused { IfErr result (λ refusal.
            DoesNotClean (is_some self.old.running.ending) vpn refusal self.old.memory) }
        ensures err { OnErr result (self.new ≡ self.old) }
        ensures stays { self.new ≡ record self.old { memory = self.new.memory } }
        ensures process { self.new.memory.process ≡ self.old.memory.process }
        ensures memory { memory_of S.content self.new.memory ≡ memory_of S.content self.old.memory }
        ensures copies { LeavesCopies self.old.memory self.new.memory }
    {
        let ended = self.recorded.running().end().is_some();
        self.memory.begin_clean(vpn, ended)
    }

    /// Copies a page that is being cleaned, unless a store was made since the cleaning began, or a cache allows a store that
    /// no dirty bit would show. A page without a slot takes the spare one. No page of a process that has ended is being
    /// cleaned. Takes no memory.
    #[tactic(auto, using(paged_memory::proofs::cleaning_laws::CopiesToldLaws::leaves_itself))]
    pub fn copy_clean(&mut self, vpn: u32, spare: &mut Option<S>) -> CleanCopy<S>
        requires { vpn < 2 ^ 20 }
        ensures answer { IsNone self.old.running.ending → CopiesPage vpn spare.old spare.new result
            self.old.memory self.new.memory }
        ensures ended { IsSome self.old.running.ending → result ≡ CleanCopy.NotCleaning }
        ensures left { IsSome self.old.running.ending → self.new ≡ self.old }
        ensures spared { IsSome self.old.running.ending → spare.new ≡ spare.old }
        ensures same { settles result ≡ false → self.new ≡ self.old }
        ensures stays { self.new ≡ record self.old {
          memory = with_pages self.old.memory
              self.new.memory;
        } }
        ensures memory { memory_of S.content self.new.memory ≡ memory_of S.content self.old.memory }
        ensures copies { CopiesOut vpn result self.old.memory self.new.memory }
    {
        if self.recorded.running().end().is_some() {
            return CleanCopy::NotCleaning;
        }
        self.memory.copy_clean(vpn, spare)
    }

    /// Ends the cleaning of a page whose copy comes back: only where no store followed the copy, and the device passed it,
    /// it backs the page. Takes no memory.
    pub fn cleaned(&mut self, job: CleanedJob<S>) -> Cleaned<S>
        ensures ended { EndsCleaningIn job result self.old.memory self.new.memory }
        ensures stays { self.new ≡ record self.old {
          memory = with_pages self.old.memory
              self.new.memory;
        } }
        ensures memory { memory_of S.content self.new.memory ≡ memory_of S.content self.old.memory }
        ensures copies { CopiesBack job result self.old.memory self.new.memory }
    {
        self.memory.cleaned(job)
    }

    /// The least number from this one on of a resident page that counts as changed, if there is one.
    pub fn next_changed(&self, from: u32) -> Option<u32>
        ensures within { IfSome result (λ vpn. (from ≤ vpn) × (vpn < 2 ^ 20)) }
        ensures changed { IfSome result (λ vpn. is_changed_in self.now.memory vpn ≡ true) }
        ensures least { IfSome result (λ vpn. (q : ℕ) → from ≤ q → q < vpn →
            is_changed_in self.now.memory q ≡ false) }
        ensures none { IfNone result ((q : ℕ) → from ≤ q → q < 2 ^ 20 →
            is_changed_in self.now.memory q ≡ false) }
    {
        self.memory.next_changed(from)
    }
}
