//! A page-in: an absent page gets a frame, is filled from its slot or as it began, and is mapped.

ghost use Rattle.std.specs.Prelude.{◌≡◌, ◌<◌, ◌^◌, true, false, Some, OnOk, OnErr, IfErr};
ghost use Rattle.std.specs.Bool.{OnTrue, OnFalse};
ghost use Rattle.sv32_table.specs.Entry.{page_entry};
ghost use Rattle.sv32_table.specs.EntryAt.{has_table, ChangesEntry, AddsTable};
ghost use Rattle.page_memory.specs.ReadOnly.{KeepsReadOnly};
ghost use Rattle.paged_memory.specs.Paged.{page_at, memory_of};
ghost use Rattle.page_store.specs.PageValue.{content, Backed, failures_at, kept_digest};
ghost use Rattle.page_store.specs.Moves.{CalledOnce, IfResident};
ghost use Rattle.paged_memory.specs.moves.Filling.{IsAbsent, IsUnchanged, dropped, fault_of, BroughtIn};
ghost use Rattle.paged_memory.specs.moves.Filling.{RefusesAbsent};
ghost use Rattle.paged_memory.specs.moves.Moving.{ComesIn, RefusesIn, SameCaches, SameEntries};
ghost use Rattle.paged_memory.specs.moves.Moving.{CallsOnce, SameFailures};

use crate::eviction::state_in;
use crate::memory::PagedMemory;
use frame_pool::Frame;
use page_memory::PageMap;
use page_store::{Collected, FillFault, PageState, StoredPage};
use std::sync::ledger::Ledger;
use sv32_table::PageTables;
use swap_slots::SwapSlot;
use thiserror::Error;

/// Why a page was not brought in, in the order in which the reasons are tested.
#[derive(Clone, Copy, PartialEq, Eq, Debug, Error)]
pub enum PageInFault {
    /// It is not mapped, has a frame, or was given up.
    #[error("the page is not absent")]
    NotAbsent,
    #[error("the device failed")]
    Device,
    /// What was loaded has another digest than what was saved.
    #[error("the page is damaged")]
    Damaged,
    /// There is no memory for the page's table.
    #[error("out of memory")]
    NoMemory,
}

impl<L: Ledger, S: SwapSlot> PagedMemory<L, S> {
    /// Brings a page into a frame, from its slot or as it began, and maps it with its rights, as used and not changed. From
    /// its slot it comes only with the digest of what was saved.
    ///
    /// A refusal hands the frame back and leaves the page where it was. It takes memory, and can be refused for want of
    /// it, only where the page has no table yet.
    pub fn page_in(&mut self, vpn: u32, frame: Frame<L>) -> Result<(), (Frame<L>, PageInFault)>
        requires { vpn < 2 ^ 20 }
        ensures ok { OnOk result (ComesIn S.content S.honest frame vpn self.old self.new) }
        ensures passed { OnOk result (SameFailures S.failures vpn self.old self.new) }
        ensures called { CallsOnce S.called vpn self.old self.new }
        ensures refused { IfErr result (λ back.
            RefusesIn S.content S.honest S.failures frame vpn back.0 back.1 self.old self.new) }
        ensures memory { S.honest → memory_of S.content self.new ≡ memory_of S.content self.old }
        ensures read_only { KeepsReadOnly (memory_of S.content self.old)
            (memory_of S.content self.new) }
        ensures unmapped { OnErr result (SameEntries self.old self.new) }
        ensures process { self.new.process ≡ self.old.process }
        ensures caches { SameCaches self.old self.new }
        ensures reserved { self.new.reserved ≡ self.old.reserved }
    {
        let Some(place) = self.pages.place(vpn) else {
            return Err((frame, PageInFault::NotAbsent));
        };
        if !is_absent(self.pages.at(place)) {
            return Err((frame, PageInFault::NotAbsent));
        }
        bring_page_in(self.pages.at_mut(place), &mut self.tables, vpn, frame)
    }
}

/// Whether a page has no frame and was not given up.
fn is_absent<L: Ledger, S: SwapSlot>(page: &StoredPage<L, S>) -> bool
    ensures absent { OnTrue result (IsAbsent (Some page.now)) }
    ensures other { OnFalse result (¬ IsAbsent (Some page.now)) }
{
    matches!(page.state(), PageState::Fresh | PageState::Away)
}

/// Brings an absent page into a frame, and maps it.
#[tactic(auto, using(crate::proofs::move_laws::CallLaws::then_dropped))]
fn bring_page_in<L: Ledger, S: SwapSlot>(
    page: &mut StoredPage<L, S>,
    tables: &mut PageTables,
    vpn: u32,
    frame: Frame<L>,
) -> Result<(), (Frame<L>, PageInFault)>
    requires vpn { vpn < 2 ^ 20 }
    requires absent { IsAbsent (Some page.old) }
    ensures ok { OnOk result (BroughtIn S.content S.honest frame page.old page.new) }
    ensures passed { OnOk result (failures_at S.failures page.new.place ≡
        failures_at S.failures page.old.place) }
    ensures called { CalledOnce S.called page.old.place page.new.place }
    ensures refused { IfErr result (λ back. RefusesAbsent S.content S.honest S.failures frame
        (has_table tables.old vpn) page.old page.new back.0 back.1) }
    ensures entries { OnOk result (ChangesEntry tables.old tables.new vpn
        (page_entry frame.number page.old.origin.rights true false)) }
    ensures tables { OnOk result (AddsTable tables.old tables.new vpn) }
    ensures unmapped { OnErr result (tables.new ≡ tables.old) }
{
    let number = frame.number();
    if let Err((frame, fault)) = page.fill(frame) {
        return Err((frame, fault_of(fault)));
    }
    match tables.map(vpn, number, page.rights(), true) {
        Ok(()) => Ok(()),
        Err(_) => Err((unfill(page), PageInFault::NoMemory)),
    }
}

/// The same reason, of a page among its process's.
fn fault_of(fault: FillFault) -> PageInFault
    ensures { result ≡ fault_of fault }
{
    match fault {
        FillFault::NotAbsent => PageInFault::NotAbsent,
        FillFault::Device => PageInFault::Device,
        FillFault::Damaged => PageInFault::Damaged,
    }
}

/// Takes the frame back from a page that was just brought into it.
fn unfill<L: Ledger, S: SwapSlot>(page: &mut StoredPage<L, S>) -> Frame<L>
    requires { IsUnchanged page.old }
    ensures place { IfResident page.old.place (λ frame slot. (result ≡ frame) ×
        (Some page.new.place ≡ dropped slot)) }
    ensures digest { kept_digest page.new.place ≡ kept_digest page.old.place }
    ensures content { Backed S.content false page.old → content S.content page.new ≡
        content S.content page.old }
    ensures origin { page.new.origin ≡ page.old.origin }
{
    let _ = page.leave(false);
    match page.collect(0, 0, false, &mut None) {
        Collected::Clean(frame) => frame,
        _ => unreachable!(),
    }
}
