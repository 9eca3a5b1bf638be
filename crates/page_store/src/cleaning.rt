//! A page is written to its slot while it stays where it is, and counts as unchanged once no store followed the copy.

ghost use Rattle.std.specs.Prelude.{◌≡◌, ◌≢◌, ℕ, List, Ok, Err, OnOk, OnErr, IfOk, IfErr, IsTrue};
ghost use Rattle.std.specs.Prelude.{IsFalse, false};
ghost use Rattle.page_store.specs.Cleaning.{begun, begun_keeping, copied_clean, copy_cleaning};
ghost use Rattle.page_store.specs.Cleaning.{is_being_cleaned, EndsAs, EndsCleaning};
ghost use Rattle.page_store.specs.Keeping.{Cleaning, CopyOut, is_copy_out};
ghost use Rattle.page_store.specs.Moves.{job_of};
ghost use Rattle.page_store.specs.PageValue.{Resident, Backed, BackedAt, content, shown, slot_of};
ghost use Rattle.page_store.specs.View.{keeping_of, place_in_state, place_out};

use crate::answer::{CleanCopy, Cleaned};
use crate::job::{CleanJob, CleanedJob};
use crate::page::StoredPage;
use crate::refusal::CleanRefusal;
use crate::state::{Keeping, State};
use frame_pool::{BareFrame, Frame};
use std::mem;
use std::sync::ledger::Ledger;
use swap_slots::SwapSlot;

impl<L: Ledger, S: SwapSlot> StoredPage<L, S> {
    /// Begins to clean the page, where `dirty` says whether its page-table entry has D, which is to be cleared, and `ended` whether its
    /// process has ended, and with it each cleaning that has no copy. Nothing backs the page until the cleaning ends.
    pub fn begin_clean(&mut self, dirty: bool, ended: bool) -> Result<(), CleanRefusal>
        ensures ok { OnOk result (begun ended dirty self.old.place ≡ Ok self.new.place) }
        ensures refused { IfErr result (λ refusal. begun ended dirty self.old.place ≡ Err refusal) }
        ensures err { OnErr result (self.new ≡ self.old) }
        ensures content { content S.content self.new ≡ content S.content self.old }
        ensures backed { OnOk result (Backed S.content false self.new) }
        ensures origin { self.new.origin ≡ self.old.origin }
    {
        let (state, done) = mem::replace(&mut self.state, State::Purged).begun(dirty, ended);
        self.state = state;
        done
    }

    /// Copies a page that is being cleaned, where `dirty` says whether its page-table entry has D, and `marked` whether caches hold
    /// translations to it with the dirty mark. A page without a slot takes the spare one.
    #[tactic(auto, using(crate::proofs::CleaningLaws::not_cleaning))]
    pub fn copy_clean(
        &mut self,
        process: u32,
        vpn: u32,
        dirty: bool,
        marked: bool,
        spare: &mut Option<S>,
    ) -> CleanCopy<S>
        ensures answer { (self.new.place, (spare.new, result)) ≡
            copied_clean process vpn dirty marked self.old.place spare.old }
        ensures content { content S.content self.new ≡ content S.content self.old }
        ensures backed { Backed S.content dirty self.old → Backed S.content dirty self.new }
        ensures origin { self.new.origin ≡ self.old.origin }
    {
        let cleaning = match mem::replace(&mut self.state, State::Purged).into_cleaning() {
            Ok(cleaning) => cleaning,
            Err(other) => {
                self.state = other;
                return CleanCopy::NotCleaning;
            }
        };
        let (state, answer) = copy_cleaning(process, vpn, cleaning, (dirty, marked), spare);
        self.state = state;
        answer
    }

    /// Ends the cleaning of a page whose copy comes back, where `dirty` says whether its page-table entry has D, if it has one. Only
    /// where no store followed the copy, and the device passed it, the copy backs the page.
    pub fn cleaned(&mut self, job: CleanedJob<S>, dirty: bool) -> Cleaned<S>
        ensures ended { EndsCleaning job dirty self.old.place self.new.place result }
        ensures content { content S.content self.new ≡ content S.content self.old }
        ensures backed { S.honest → Backed S.content dirty self.old →
            Backed S.content dirty self.new }
        ensures origin { self.new.origin ≡ self.old.origin }
    {
        let (state, end) = mem::replace(&mut self.state, State::Purged).cleaned(job, dirty);
        self.state = state;
        end
    }
}

/// What a page has of which a copy is out.
#[derive(Drop)]
enum Out<L: Ledger> {
    Resident(BareFrame<L>),
    /// With the dirty bit that its entry had when it began to leave.
    Leaving(BareFrame<L>, bool),
}

impl<L: Ledger, S: SwapSlot> State<L, S> {
    /// A cleaning begins.
    fn begun(self, dirty: bool, ended: bool) -> (Self, Result<(), CleanRefusal>)
        ensures ok { OnOk result.1 (begun ended dirty (place_in_state self) ≡ Ok (place_in_state result.0)) }
        ensures refused { IfErr result.1 (λ refusal. begun ended dirty (place_in_state self) ≡ Err refusal) }
        ensures err { OnErr result.1 (result.0 ≡ self) }
        ensures shown { (origin : List ℕ) → shown S.content origin (place_in_state result.0) ≡
            shown S.content origin (place_in_state self) }
        ensures backed { OnOk result.1 ((origin : List ℕ) → BackedAt S.content origin false (place_in_state result.0)) }
    {
        match self {
            State::Resident(frame, slot) => {
                let (slot, done) = begin_keeping(slot, dirty, ended);
                (State::Resident(frame, slot), done)
            }
            State::ResidentOut(frame) => {
                (
                    State::ResidentOut(frame),
                    Err(CleanRefusal::AlreadyCleaning),
                )
            }
            other => (other, Err(CleanRefusal::NotResident)),
        }
    }

    /// What a page has that is being cleaned and of which no copy is out, or else the page as it was.
    fn into_cleaning(self) -> Result<(Frame<L>, Option<S>), Self>
        ensures cleaning { IfOk result (λ cleaning.
            place_in_state self ≡ Resident cleaning.0 (Cleaning cleaning.1)) }
        ensures other { IfErr result (λ other. (other ≡ self) ×
            (is_being_cleaned (place_in_state self) ≡ false)) }
    {
        match self {
            State::Resident(frame, slot) => match slot {
                Keeping::Cleaning(slot) => Ok((frame, slot)),
                other => Err(State::Resident(frame, other)),
            },
            other => Err(other),
        }
    }

    /// What a page has of which a copy is out, or else the page as it was.
    fn into_out(self) -> Result<Out<L>, Self>
        ensures out { IfOk result (λ out. place_in_state self ≡ place_out out) }
        ensures other { IfErr result (λ other. (other ≡ self) ×
            (is_copy_out (slot_of (place_in_state self)) ≡ false)) }
    {
        match self {
            State::ResidentOut(frame) => Ok(Out::Resident(frame)),
            State::LeavingOut(frame, mark) => Ok(Out::Leaving(frame, mark)),
            other => Err(other),
        }
    }

    /// The state once a copy came back, and what came of the cleaning.
    #[tactic(auto, using(crate::proofs::CleaningLaws::not_out))]
    fn cleaned(self, job: CleanedJob<S>, dirty: bool) -> (Self, Cleaned<S>)
        ensures ended { EndsCleaning job dirty (place_in_state self) (place_in_state result.0)
            result.1 }
        ensures shown { (origin : List ℕ) → shown S.content origin (place_in_state result.0) ≡
            shown S.content origin (place_in_state self) }
        ensures backed { S.honest → (origin : List ℕ) →
            BackedAt S.content origin dirty (place_in_state self) →
            BackedAt S.content origin dirty (place_in_state result.0) }
    {
        match self.into_out() {
            Ok(Out::Resident(frame)) => match end_cleaning(frame, job, dirty) {
                Ok((frame, slot, end)) => (State::Resident(frame, slot), end),
                Err((frame, job)) => (State::ResidentOut(frame), Cleaned::WrongPage(job)),
            },
            Ok(Out::Leaving(frame, mark)) => match end_cleaning(frame, job, mark) {
                Ok((frame, slot, end)) => (State::Leaving(frame, slot, mark), end),
                Err((frame, job)) => (State::LeavingOut(frame, mark), Cleaned::WrongPage(job)),
            },
            Err(other) => (other, Cleaned::WrongPage(job)),
        }
    }
}

/// What a resident page keeps once its cleaning began, or what it kept, with why it does not begin.
fn begin_keeping<S: SwapSlot>(
    slot: Keeping<S>,
    dirty: bool,
    ended: bool,
) -> (Keeping<S>, Result<(), CleanRefusal>)
    ensures ok { OnOk result.1 (begun_keeping ended dirty (keeping_of slot) ≡
        Ok (keeping_of result.0)) }
    ensures refused { IfErr result.1 (λ refusal.
        begun_keeping ended dirty (keeping_of slot) ≡ Err refusal) }
    ensures err { OnErr result.1 (result.0 ≡ slot) }
{
    match slot {
        Keeping::NoSlot => {
            if dirty {
                (Keeping::Cleaning(None), Ok(()))
            } else {
                (Keeping::NoSlot, Err(CleanRefusal::NotChanged))
            }
        }
        Keeping::Saved(copy) => {
            if dirty {
                (Keeping::Cleaning(Some(copy.into_slot())), Ok(()))
            } else {
                (Keeping::Saved(copy), Err(CleanRefusal::NotChanged))
            }
        }
        Keeping::Unbacked(slot) => (Keeping::Cleaning(slot), Ok(())),
        Keeping::Cleaning(slot) => {
            if ended {
                (Keeping::Cleaning(slot), Ok(()))
            } else {
                (Keeping::Cleaning(slot), Err(CleanRefusal::AlreadyCleaning))
            }
        }
    }
}

/// A page that is being cleaned, with its slot, and whether a copy of it is made: by the dirty bit of its page-table entry, and by
/// the marks of caches.
fn copy_cleaning<L: Ledger, S: SwapSlot>(
    process: u32,
    vpn: u32,
    page: (Frame<L>, Option<S>),
    stored: (bool, bool),
    spare: &mut Option<S>,
) -> (State<L, S>, CleanCopy<S>)
    ensures answer { (place_in_state result.0, (spare.new, result.1)) ≡
        copy_cleaning process vpn page.0 page.1 stored.0 stored.1 spare.old }
    ensures shown { (origin : List ℕ) → shown S.content origin (place_in_state result.0) ≡
        page.0.bytes }
{
    let (frame, slot) = page;
    let (dirty, marked) = stored;
    if dirty {
        return (
            State::Resident(frame, Keeping::Unbacked(slot)),
            CleanCopy::Stored,
        );
    }
    if marked {
        return (
            State::Resident(frame, Keeping::Cleaning(slot)),
            CleanCopy::NotYet,
        );
    }
    if let Some(slot) = slot {
        return start_cleaning(process, vpn, frame, slot);
    }
    match spare.take() {
        Some(slot) => start_cleaning(process, vpn, frame, slot),
        None => (
            State::Resident(frame, Keeping::Unbacked(None)),
            CleanCopy::NoSlot,
        ),
    }
}

/// A page of which a copy is out, and the job of writing it.
fn start_cleaning<L: Ledger, S: SwapSlot>(
    process: u32,
    vpn: u32,
    frame: Frame<L>,
    slot: S,
) -> (State<L, S>, CleanCopy<S>)
    ensures page { place_in_state result.0 ≡ Resident frame CopyOut }
    ensures job { result.1 ≡ CleanCopy.Copied (job_of process vpn frame slot) }
{
    let (frame, copy) = frame.copied();
    let job = CleanJob::new(process, vpn, copy, slot);
    (State::ResidentOut(frame), CleanCopy::Copied(job))
}

/// What a page keeps when its copy comes back, and the result of the cleaning, by the bit that reports a store since the copy. If
/// frame and copy differ and no store is reported, both are handed back.
fn end_cleaning<L: Ledger, S: SwapSlot>(
    frame: BareFrame<L>,
    job: CleanedJob<S>,
    stored: bool,
) -> Result<(Frame<L>, Keeping<S>, Cleaned<S>), (BareFrame<L>, CleanedJob<S>)>
    ensures frame { IfOk result (λ ended. ended.0 ≡ frame) }
    ensures ended { IfOk result (λ ended.
        EndsAs job frame stored (keeping_of ended.1) ended.2) }
    ensures backed { S.honest → IfOk result (λ ended. (origin : List ℕ) →
        BackedAt S.content origin stored (Resident frame (keeping_of ended.1))) }
    ensures wrong { IfErr result (λ back. (back.0 ≡ frame) × (back.1 ≡ job) × IsFalse stored ×
        (frame.bytes ≢ job.copy)) }
{
    if stored {
        let (slot, room) = job.into_slot();
        let frame = Frame::with_room(frame, room);
        return Ok((frame, Keeping::Unbacked(Some(slot)), Cleaned::Stored));
    }
    if !job.is_copy(frame.bytes()) {
        return Err((frame, job));
    }
    let (copied, room) = job.into_copy();
    let frame = Frame::with_room(frame, room);
    match copied {
        Ok(copy) => Ok((frame, Keeping::Saved(copy), Cleaned::Clean)),
        Err(slot) => Ok((frame, Keeping::Unbacked(Some(slot)), Cleaned::Device)),
    }
}
