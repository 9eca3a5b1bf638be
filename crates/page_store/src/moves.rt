//! How a page goes from one state to the next.

ghost use Rattle.std.specs.Prelude.{◌≡◌, ◌↔◌, ℕ, List, Ok, Err, Some, None};
ghost use Rattle.std.specs.Prelude.{OnOk, OnErr, IfOk, IfErr, IsErr, IsTrue, false};
ghost use Rattle.page_store.specs.Moves.{CalledOnce, left, brought_back, collected};
ghost use Rattle.page_store.specs.Moves.{collect_leaving, with_spare, job_of, IfSaving, copy_of};
ghost use Rattle.page_store.specs.Moves.{RefusesSave, Filled, RefusesFill};
ghost use Rattle.page_store.specs.PageValue.{Leaving, Saving, Away, BackedAt};
ghost use Rattle.page_store.specs.PageValue.{shown, Known, content};
ghost use Rattle.page_store.specs.PageValue.{failures_at};
ghost use Rattle.page_store.specs.PageValue.{kept_digest, Matches};
ghost use Rattle.page_store.specs.View.{keeping_of, origin_of, page_of, place_in_state};

use crate::answer::{Collected, SaveRefusal};
use crate::job::{SaveJob, SavedJob};
use crate::refusal::{FillFault, LeaveRefusal, NotLeaving};
use crate::seal::Sha256Digest;
use crate::state::{Absent, Keeping, Origin, State};
use frame_pool::Frame;
use std::sync::ledger::Ledger;
use swap_slots::SwapSlot;

impl<L: Ledger, S: SwapSlot> State<L, S> {
    /// A page in this state is brought into a frame.
    pub(crate) fn filled(
        self,
        origin: &Origin,
        mut frame: Frame<L>,
    ) -> (Self, Result<(), (Frame<L>, FillFault)>)
        ensures filled { OnOk result.1 (Filled frame (page_of origin.now self) (page_of origin.now result.0)) }
        ensures whole { OnOk result.1 (Matches (place_in_state self)
            (shown S.content (origin_of origin.now).bytes (place_in_state result.0))) }
        ensures digest { kept_digest (place_in_state result.0) ≡ kept_digest (place_in_state self) }
        ensures passed { OnOk result.1 (failures_at S.failures (place_in_state result.0) ≡
            failures_at S.failures (place_in_state self)) }
        ensures called { CalledOnce S.called (place_in_state self) (place_in_state result.0) }
        ensures refused { IfErr result.1 (λ back.
            RefusesFill S.honest S.failures frame (place_in_state self) (place_in_state result.0) back.0 back.1) }
        ensures content { Known S.honest (place_in_state self) →
            shown S.content (origin_of origin.now).bytes (place_in_state result.0) ≡
            shown S.content (origin_of origin.now).bytes (place_in_state self) }
        ensures backed { Known S.honest (place_in_state self) → OnOk result.1
            (BackedAt S.content (origin_of origin.now).bytes false (place_in_state result.0)) }
    {
        match self.into_absent() {
            Ok(Absent::Fresh) => {
                origin.write_to(&mut frame);
                (State::Resident(frame, Keeping::NoSlot), Ok(()))
            }
            Ok(Absent::Away(mut copy)) => {
                match copy.load_whole(frame.bytes_mut(), &mut Sha256Digest) {
                    Ok(()) => (State::Resident(frame, Keeping::Saved(copy)), Ok(())),
                    Err(fault) => (State::Away(copy), Err((frame, fault))),
                }
            }
            Err(other) => (other, Err((frame, FillFault::NotAbsent))),
        }
    }

    /// It begins to leave.
    pub(crate) fn left(self, dirty: bool) -> (Self, Result<(), LeaveRefusal>)
        ensures ok { OnOk result.1 (left dirty (place_in_state self) ≡ Ok (place_in_state result.0)) }
        ensures refused { IfErr result.1 (λ refusal. left dirty (place_in_state self) ≡ Err refusal) }
        ensures err { OnErr result.1 (result.0 ≡ self) }
        ensures shown { (origin : List ℕ) → shown S.content origin (place_in_state result.0) ≡
            shown S.content origin (place_in_state self) }
        ensures backed { OnOk result.1 ((origin : List ℕ) →
            BackedAt S.content origin dirty (place_in_state self) →
            BackedAt S.content origin dirty (place_in_state result.0)) }
    {
        match self {
            State::Resident(frame, slot) => {
                (State::Leaving(frame, slot.settled(), dirty), Ok(()))
            }
            State::ResidentOut(frame) => (State::LeavingOut(frame, dirty), Ok(())),
            other => {
                let refusal = other.leave_refusal();
                (other, Err(refusal))
            }
        }
    }

    /// It stops leaving.
    pub(crate) fn brought_back(self) -> (Self, Result<bool, NotLeaving>)
        ensures ok { IfOk result.1 (λ dirty. brought_back (place_in_state self) ≡
            Some (place_in_state result.0, dirty)) }
        ensures refused { IsErr result.1 ↔ (brought_back (place_in_state self) ≡ None) }
        ensures err { OnErr result.1 (result.0 ≡ self) }
        ensures shown { (origin : List ℕ) → shown S.content origin (place_in_state result.0) ≡
            shown S.content origin (place_in_state self) }
        ensures backed { IfOk result.1 (λ dirty. (origin : List ℕ) →
            BackedAt S.content origin false (place_in_state self) →
            BackedAt S.content origin dirty (place_in_state result.0)) }
    {
        match self {
            State::Leaving(frame, slot, dirty) => (State::Resident(frame, slot), Ok(dirty)),
            State::LeavingOut(frame, dirty) => (State::ResidentOut(frame), Ok(dirty)),
            other => (other, Err(NotLeaving)),
        }
    }

    /// It lets its frame go, where it can.
    pub(crate) fn collected(
        self,
        process: u32,
        vpn: u32,
        cached: bool,
        spare: &mut Option<S>,
    ) -> (Self, Collected<L, S>)
        ensures answer { (place_in_state result.0, (spare.new, result.1)) ≡
            collected process vpn cached (place_in_state self) spare.old }
        ensures shown { (origin : List ℕ) → BackedAt S.content origin false (place_in_state self) →
            shown S.content origin (place_in_state result.0) ≡
            shown S.content origin (place_in_state self) }
    {
        match self {
            State::Leaving(frame, slot, dirty) => {
                collect_leaving(process, vpn, (frame, slot, dirty), cached, spare)
            }
            State::LeavingOut(frame, dirty) => {
                (State::LeavingOut(frame, dirty), Collected::NotYet)
            }
            other => (other, Collected::NotLeaving),
        }
    }

    /// Its save ends.
    pub(crate) fn saved(self, job: SavedJob<S>) -> (Self, Result<Frame<L>, SaveRefusal<S>>)
        ensures freed { IfOk result.1 (λ frame. IfSaving (place_in_state self) (λ saved _. saved ≡ frame) ×
            (place_in_state result.0 ≡ Away (copy_of job)) × (frame.bytes ≡ job.copy) × IsTrue job.passed) }
        ensures refused { IfErr result.1 (RefusesSave job (place_in_state self) (place_in_state result.0)) }
        ensures shown { S.honest → (origin : List ℕ) → shown S.content origin (place_in_state result.0) ≡
            shown S.content origin (place_in_state self) }
    {
        let (frame, dirty) = match self.into_saving() {
            Ok(saving) => saving,
            Err(other) => return (other, Err(SaveRefusal::WrongPage(job))),
        };
        if !job.is_copy(frame.bytes()) {
            let (slot, room) = job.into_slot();
            let frame = Frame::with_room(frame, room);
            let kept = Keeping::Unbacked(Some(slot));
            return (
                State::Leaving(frame, kept, dirty),
                Err(SaveRefusal::Mismatch),
            );
        }
        let (copied, room) = job.into_copy();
        let frame = Frame::with_room(frame, room);
        match copied {
            Ok(copy) => (State::Away(copy), Ok(frame)),
            Err(slot) => {
                let kept = Keeping::Unbacked(Some(slot));
                (State::Leaving(frame, kept, dirty), Err(SaveRefusal::Device))
            }
        }
    }
}

/// What becomes of a page that is leaving, and the answer.
fn collect_leaving<L: Ledger, S: SwapSlot>(
    process: u32,
    vpn: u32,
    page: (Frame<L>, Keeping<S>, bool),
    cached: bool,
    spare: &mut Option<S>,
) -> (State<L, S>, Collected<L, S>)
    ensures answer { (place_in_state result.0, (spare.new, result.1)) ≡
        collect_leaving process vpn page.0 (keeping_of page.1) page.2 cached spare.old }
    ensures shown { (origin : List ℕ) → BackedAt S.content origin false
        (Leaving page.0 (keeping_of page.1) page.2) → shown S.content origin
        (place_in_state result.0) ≡ page.0.bytes }
{
    let (frame, slot, dirty) = page;
    if cached {
        return (State::Leaving(frame, slot, dirty), Collected::NotYet);
    }
    match slot {
        Keeping::NoSlot => {
            if !dirty {
                return (State::Fresh, Collected::Clean(frame));
            }
            save_in_spare(process, vpn, (frame, Keeping::NoSlot, true), spare)
        }
        Keeping::Saved(copy) => {
            if dirty {
                start_saving(process, vpn, frame, true, copy.into_slot())
            } else {
                (State::Away(copy), Collected::Clean(frame))
            }
        }
        Keeping::Unbacked(Some(slot)) => start_saving(process, vpn, frame, dirty, slot),
        Keeping::Cleaning(Some(slot)) => start_saving(process, vpn, frame, dirty, slot),
        Keeping::Unbacked(None) => {
            save_in_spare(process, vpn, (frame, Keeping::Unbacked(None), dirty), spare)
        }
        Keeping::Cleaning(None) => {
            save_in_spare(process, vpn, (frame, Keeping::Cleaning(None), dirty), spare)
        }
    }
}

/// A changed page that has no slot goes to be saved in the spare one, or stays as it is.
fn save_in_spare<L: Ledger, S: SwapSlot>(
    process: u32,
    vpn: u32,
    page: (Frame<L>, Keeping<S>, bool),
    spare: &mut Option<S>,
) -> (State<L, S>, Collected<L, S>)
    ensures answer { (place_in_state result.0, (spare.new, result.1)) ≡
        with_spare process vpn page.0 (keeping_of page.1) page.2 spare.old }
{
    let (frame, slot, dirty) = page;
    match spare.take() {
        Some(slot) => start_saving(process, vpn, frame, dirty, slot),
        None => (State::Leaving(frame, slot, dirty), Collected::NoSlot),
    }
}

/// A changed page and the job of saving it.
fn start_saving<L: Ledger, S: SwapSlot>(
    process: u32,
    vpn: u32,
    frame: Frame<L>,
    dirty: bool,
    slot: S,
) -> (State<L, S>, Collected<L, S>)
    ensures page { place_in_state result.0 ≡ Saving frame dirty }
    ensures job { result.1 ≡ Collected.Dirty (job_of process vpn frame slot) }
{
    let (frame, copy) = frame.copied();
    let job = SaveJob::new(process, vpn, copy, slot);
    (State::Saving(frame, dirty), Collected::Dirty(job))
}
