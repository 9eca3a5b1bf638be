//! Admits an absent page: the list takes it and a frame is taken for it. Undone if it is not loaded.

ghost use Rattle.std.specs.Prelude.{◌≡◌, ◌↔◌, ◌++◌, [], ◌∷◌, Some, None, false, length, IfOk};
ghost use Rattle.std.specs.Prelude.{IfErr, IsErr, OnOk, OnErr};
ghost use Rattle.clock_policy.specs.Lawful.{Lawful};
ghost use Rattle.machine_sides.specs.Admitting.{Admits, DoesNotAdmit, page_bars, pager_refusal};
ghost use Rattle.machine_sides.specs.Admitting.{is_resident_at, taken_back};
ghost use Rattle.machine_sides.specs.Agreeing.{Agree, AgreeStill};

use crate::pager_side::PagerSide;
use crate::places::{is_absent, is_resident};
use clock_policy::{Clock, Key};
use frame_pool::Frame;
use pager_core::AdmitRefusal;
use space_core::Space;
use std::marker::Model;
use std::sync::ledger::Ledger;
use swap_slots::SwapSlot;
use thiserror::Error;

/// A page that was admitted, with the frame that it is to have. It is loaded, or else the admission is undone.
#[derive(Drop)]
pub struct Admission<L: Ledger> {
    pub(crate) key: Key,
    pub(crate) frame: Frame<L>,
}

impl<L: Ledger> Model for Admission<L> {
    ghost use Rattle.machine_sides.specs.Admitting.{AdmissionValue};

    ghost Value = { AdmissionValue };

    ghost view = { λ a. record { key = a.key; frame = a.frame } };
}

impl<L: Ledger> Admission<L> {
    /// The page that was admitted.
    pub fn key(&self) -> Key
        ensures { result ≡ self.now.key }
    {
        self.key
    }
}

/// Why a page was not admitted, in the order in which the reasons are tested. Nothing has changed.
#[derive(Clone, Copy, PartialEq, Eq, Debug, Error)]
pub enum NotAdmitted {
    #[error("the process has ended")]
    Ended,
    #[error("the page is not absent")]
    NotAbsent,
    #[error("the page is listed as resident already")]
    AlreadyResident,
    #[error("no frame is free")]
    NoFrame,
    #[error("out of memory")]
    NoMemory,
}

/// Lists an absent page of a process, and takes the frame that it is to have.
#[tactic(auto, using(crate::proofs::Agreements::admitted_agree))]
pub fn admit<L: Ledger, S: SwapSlot, C: Clock>(
    pager: &mut PagerSide<L, C>,
    process: &Space<L, S>,
    key: Key,
) -> Result<Admission<L>, NotAdmitted>
    ensures admitted { IfOk result (λ admission.
        Admits key pager.old pager.new process.now admission) }
    ensures refused { IfErr result (λ refusal.
        DoesNotAdmit key pager.old pager.new process.now refusal) }
    ensures agree { OnOk result (AgreeStill (Some key) pager.old.pager pager.new.pager
        process.now process.now) }
{
    list_and_take(pager, process, key)
}

/// The page is listed, and its frame taken.
fn list_and_take<L: Ledger, S: SwapSlot, C: Clock>(
    pager: &mut PagerSide<L, C>,
    process: &Space<L, S>,
    key: Key,
) -> Result<Admission<L>, NotAdmitted>
    ensures admitted { IfOk result (λ admission.
        Admits key pager.old pager.new process.now admission) }
    ensures refused { IfErr result (λ refusal.
        DoesNotAdmit key pager.old pager.new process.now refusal) }
{
    if let Some(reason) = page_bars(process, key.vpn) {
        return Err(reason);
    }
    let frame = match pager.pager.admit(key) {
        Ok(frame) => frame,
        Err(refusal) => return Err(pager_refusal(refusal)),
    };
    Ok(Admission { key, frame })
}

/// Why a page of a process is not admitted, as the process shows.
#[tactic(auto, unfolding(crate::specs::Admitting::page_bars))]
fn page_bars<L: Ledger, S: SwapSlot>(process: &Space<L, S>, vpn: u32) -> Option<NotAdmitted>
    ensures { result ≡ page_bars process.now vpn }
{
    if process.end().is_some() {
        return Some(NotAdmitted::Ended);
    }
    if is_absent(process, vpn) {
        return None;
    }
    Some(NotAdmitted::NotAbsent)
}

/// What a refusal of the pager is for a page that is to be admitted.
fn pager_refusal(refusal: AdmitRefusal) -> NotAdmitted
    ensures { result ≡ pager_refusal refusal }
{
    match refusal {
        AdmitRefusal::AlreadyResident => NotAdmitted::AlreadyResident,
        AdmitRefusal::NoFrame => NotAdmitted::NoFrame,
        AdmitRefusal::NoMemory => NotAdmitted::NoMemory,
    }
}

/// Takes an admission back: its frame comes free, and its page is withdrawn from the list unless it is resident by now.
#[tactic(auto, using(crate::proofs::Agreements::undone_settles))]
pub fn undo<L: Ledger, S: SwapSlot, C: Clock>(
    pager: &mut PagerSide<L, C>,
    process: &Space<L, S>,
    admission: Admission<L>,
)
    ensures list { pager.new.pager.list ≡ taken_back
        (is_resident_at process.now admission.key.vpn) admission.key pager.old.pager.list }
    ensures freed { pager.new ≡ record pager.old {
      pager = record pager.old.pager
          { list = pager.new.pager.list; free = pager.old.pager.free ++ admission.frame ∷ [] };
    } }
    ensures agree { AgreeStill None pager.old.pager pager.new.pager process.now
        process.now }
    ensures settled { is_resident_at process.now admission.key.vpn ≡ false →
        Agree pager.new.pager process.now admission.key }
{
    withdraw_and_free(pager, process, admission)
}

/// The page is withdrawn, and its frame given back.
fn withdraw_and_free<L: Ledger, S: SwapSlot, C: Clock>(
    pager: &mut PagerSide<L, C>,
    process: &Space<L, S>,
    admission: Admission<L>,
)
    ensures list { pager.new.pager.list ≡ taken_back
        (is_resident_at process.now admission.key.vpn) admission.key pager.old.pager.list }
    ensures freed { pager.new ≡ record pager.old {
      pager = record pager.old.pager
          { list = pager.new.pager.list; free = pager.old.pager.free ++ admission.frame ∷ [] };
    } }
    ensures lawful { Lawful pager.old.pager.list }
{
    // A question shows that the list is lawful, so that its entry of the page is the only one.
    let _ = pager.question();
    let Admission { key, frame } = admission;
    if !is_resident(process, key.vpn) {
        let _ = pager.pager.withdraw(key);
    }
    pager.pager.put_back(frame);
}
