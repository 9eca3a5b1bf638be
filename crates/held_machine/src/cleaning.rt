//! The cleaning of pages of what a process's lock protects.

ghost use Rattle.std.specs.Prelude.{◌≡◌};
ghost use Rattle.paged_memory.specs.Paged.{memory_of};
ghost use Rattle.held_machine.specs.Cleaning.{BeginsHeld, BeginsNext, BeginsWhere, cleans_after};
ghost use Rattle.held_machine.specs.Cleaning.{CopiesHeld, CopiesOrNot, CopiesWhere, CleansHeld};
ghost use Rattle.held_machine.specs.Cleaning.{CleansWhere};

use crate::held::Held;
use clock_policy::Key;
use machine_sides::{CleanBar, CopyBar, Copying};
use page_store::{Cleaned, CleanedJob};
use space_core::Space;
use std::sync::ledger::Ledger;
use swap_slots::{SlotPool, SwapSlot};

/// What came of the cleaning of the next page of a process that is resident and changed.
#[derive(Clone, Copy, PartialEq, Eq, Debug)]
pub enum Begun {
    /// There is no such page. Nothing has changed.
    NoPage,
    /// That of this page has begun.
    Page(u32),
    /// That of this page has not. Nothing has changed.
    Barred(u32, CleanBar),
}

impl<L: Ledger, S: SwapSlot> Held<L, S> {
    /// Begins to clean the first page from this number on that is resident and changed.
    #[tactic(auto, using(crate::proofs::Statuses::begin_leaves))]
    pub fn begin_clean(&mut self, from: u32) -> Begun
        ensures begins { BeginsHeld from result self.old self.new }
        ensures memory { memory_of S.content self.new.side.memory ≡
            memory_of S.content self.old.side.memory }
    {
        begin_next(&mut self.side, from)
    }

    /// Copies a page whose cleaning has begun, if it may be.
    #[tactic(auto, using(crate::proofs::Statuses::copy_leaves))]
    pub fn copy_clean(&mut self, vpn: u32, slots: &mut SlotPool<S>) -> Result<Copying<S>, CopyBar>
        ensures copies { CopiesHeld vpn result self.old self.new slots.old slots.new }
        ensures memory { memory_of S.content self.new.side.memory ≡
            memory_of S.content self.old.side.memory }
    {
        copy_page(&mut self.side, vpn, slots)
    }

    /// Ends the cleaning of a page whose copy comes back. One that failed is no try.
    #[tactic(auto, using(crate::proofs::Statuses::back_leaves))]
    pub fn cleaned(&mut self, job: CleanedJob<S>) -> Cleaned<S>
        ensures ends { CleansHeld job result self.old self.new }
        ensures memory { memory_of S.content self.new.side.memory ≡
            memory_of S.content self.old.side.memory }
    {
        let answer = machine_sides::cleaned(&mut self.side, job);
        self.cleans = cleans_after(&answer, self.cleans);
        answer
    }

    /// The same, where the process is the one of this number.
    pub fn begin_clean_of(&mut self, number: u32, from: u32) -> Option<Begun>
        ensures { BeginsWhere number from result self.old self.new }
    {
        if self.process() != number {
            return None;
        }
        Some(self.begin_clean(from))
    }

    /// A copy of a page, where the process is the one that the page is of.
    pub fn copy_clean_of(
        &mut self,
        key: Key,
        slots: &mut SlotPool<S>,
    ) -> Option<Result<Copying<S>, CopyBar>>
        ensures { CopiesWhere key result self.old self.new slots.old slots.new }
    {
        if self.process() != key.process {
            return None;
        }
        Some(self.copy_clean(key.vpn, slots))
    }

    /// A copy comes back, where the process is the one that the page is of.
    pub fn cleaned_of(&mut self, job: CleanedJob<S>) -> Option<Cleaned<S>>
        ensures { CleansWhere job result self.old self.new }
    {
        if self.process() != job.process() {
            return None;
        }
        Some(self.cleaned(job))
    }
}

/// How many pages were cleaned, once a copy came back so.
#[tactic(auto, unfolding(pager_core::specs::Pager::tallied))]
fn cleans_after<S: SwapSlot>(answer: &Cleaned<S>, cleans: u64) -> u64
    ensures { result ≡ cleans_after answer.now cleans }
{
    match answer {
        Cleaned::Clean => cleans.saturating_add(1),
        Cleaned::WrongPage(_) => cleans,
        Cleaned::Stored => cleans,
        Cleaned::Device => cleans,
    }
}

/// Begins to clean the first page of a process from this number on that is resident and changed.
fn begin_next<L: Ledger, S: SwapSlot>(side: &mut Space<L, S>, from: u32) -> Begun
    ensures begins { BeginsNext from result side.old side.new }
    ensures memory { memory_of S.content side.new.memory ≡ memory_of S.content side.old.memory }
{
    let Some(vpn) = side.next_changed(from) else {
        return Begun::NoPage;
    };
    match machine_sides::begin_clean(side, vpn) {
        Ok(()) => Begun::Page(vpn),
        Err(reason) => Begun::Barred(vpn, reason),
    }
}

/// Copies a page of a process whose cleaning has begun, if it may be.
fn copy_page<L: Ledger, S: SwapSlot>(
    side: &mut Space<L, S>,
    vpn: u32,
    slots: &mut SlotPool<S>,
) -> Result<Copying<S>, CopyBar>
    ensures copies { CopiesOrNot vpn result side.old side.new slots.old slots.new }
    ensures memory { memory_of S.content side.new.memory ≡ memory_of S.content side.old.memory }
{
    machine_sides::copy_clean(side, vpn, slots)
}
