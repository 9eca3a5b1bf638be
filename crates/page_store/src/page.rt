//! One page of a process: it comes into a frame, leaves for its slot, and shows its bytes wherever they are.

ghost use Rattle.std.specs.Prelude.{◌≡◌, ◌≢◌, ◌+◌, ◌≤◌, ◌↔◌, length, Ok, Err, Some, None};
ghost use Rattle.std.specs.Prelude.{OnOk, OnErr, IfOk, IfErr, IsErr, IsTrue, false, OnSome, IfNone};
ghost use Rattle.std.specs.Prelude.{option_copied, option_map, is_some};
ghost use Rattle.page_store.specs.Cleaning.{is_being_cleaned};
ghost use Rattle.page_store.specs.Keeping.{is_copy_out, kept};
ghost use Rattle.page_store.specs.Moves.{left, brought_back, given_back, collected};
ghost use Rattle.page_store.specs.Moves.{CalledOnce, IfSaving, copy_of};
ghost use Rattle.page_store.specs.Moves.{RefusesSave, Filled, RefusesFill, RefusesRead, IfAway};
ghost use Rattle.page_store.specs.PageValue.{Leaving, Saving, Away, Purged, Backed};
ghost use Rattle.page_store.specs.PageValue.{changed as counts_as_changed, Known, content};
ghost use Rattle.page_store.specs.PageValue.{page_state_of, frame_of, writable, failures_at};
ghost use Rattle.page_store.specs.PageValue.{kept_digest, Matches, is_out, slot_of};
ghost use Rattle.page_store.specs.PageValue.{fresh_zero_page};
ghost use Rattle.page_store.specs.Reading.{some_from};
ghost use Rattle.page_store.specs.View.{origin_of, place_in_state};

use crate::answer::{Collected, SaveRefusal};
use crate::job::SavedJob;
use crate::reading::read_bytes;
use crate::refusal::{FillFault, LeaveRefusal, NotLeaving, ReadFault};
use crate::state::{Origin, PageState, State};
use frame_pool::{BareFrame, Frame};
use page_memory::{Rights, ZeroPage};
use shared_origins::SharedPage;
use std::marker::Model;
use std::mem;
use std::sync::ledger::Ledger;
use swap_slots::SwapSlot;

/// One page of a process.
#[derive(Drop)]
pub struct StoredPage<L: Ledger, S: SwapSlot> {
    pub(crate) origin: Origin,
    pub(crate) state: State<L, S>,
}

impl<L: Ledger, S: SwapSlot> Model for StoredPage<L, S> {
    ghost use Rattle.page_store.specs.PageValue.{PageValue};
    ghost use Rattle.page_store.specs.View.{origin_of, place_in_state};

    ghost Value = { PageValue S };

    ghost view = { λ p. record { origin = origin_of p.origin; place = place_in_state p.state } };
}

impl<L: Ledger, S: SwapSlot> ZeroPage for StoredPage<L, S> {
    ghost zero_page = { fresh_zero_page };

    fn zero_page() -> Self {
        StoredPage::zeroed(Rights::READ_WRITE)
    }
}

impl<L: Ledger, S: SwapSlot> StoredPage<L, S> {
    ghost use Rattle.std.specs.Borrow.{sem};
    ghost use Rattle.std.specs.Option.{option_copied_mut};
    ghost use Rattle.page_store.specs.Lending.{LendsBytes};
    ghost use Rattle.frame_pool.specs.FrameValue.{zero_bytes};
    ghost use Rattle.page_store.specs.PageValue.{Fresh};

    /// A page of an image.
    pub fn of_image(page: SharedPage) -> Self
        ensures { result ≡ record { origin = page; place = Fresh } }
    {
        StoredPage {
            origin: Origin::Image(page),
            state: State::Fresh,
        }
    }

    /// A page that begins with zeros.
    pub fn zeroed(rights: Rights) -> Self
        ensures { result ≡ record {
          origin = record { rights = rights; bytes = zero_bytes };
          place
              = Fresh;
        } }
    {
        StoredPage {
            origin: Origin::Zeros(rights),
            state: State::Fresh,
        }
    }

    /// What the page may be used for.
    pub fn rights(&self) -> Rights
        ensures { result ≡ self.now.origin.rights }
    {
        self.origin.rights()
    }

    /// Where the page is.
    pub fn state(&self) -> PageState
        ensures { result ≡ page_state_of self.now.place }
    {
        match self.state {
            State::Fresh => PageState::Fresh,
            State::Resident(..) | State::ResidentOut(_) => PageState::Resident,
            State::Leaving(..) | State::LeavingOut(..) => PageState::Leaving,
            State::Saving(..) => PageState::Saving,
            State::Away(..) => PageState::Away,
            State::Purged => PageState::Purged,
        }
    }

    /// The page's frame, if it has one.
    #[inline]
    pub fn frame(&self) -> Option<&BareFrame<L>>
        ensures { option_copied result ≡ frame_of self.now.place }
    {
        match &self.state {
            State::Resident(frame, _) => Some(frame.bare()),
            State::Leaving(frame, _, _) => Some(frame.bare()),
            State::ResidentOut(frame) => Some(frame),
            State::LeavingOut(frame, _) => Some(frame),
            State::Saving(frame, _) => Some(frame),
            _ => None,
        }
    }

    /// Whether the page counts as changed, where `dirty` says whether its page-table entry has D.
    pub fn is_changed(&self, dirty: bool) -> bool
        ensures { result ≡ counts_as_changed dirty self.now.place }
    {
        match &self.state {
            State::Resident(_, slot) => dirty || slot.is_unbacked(),
            State::Leaving(_, slot, mark) => *mark || slot.is_unbacked(),
            State::ResidentOut(_) | State::LeavingOut(..) | State::Saving(..) => true,
            State::Fresh | State::Away(_) | State::Purged => false,
        }
    }

    /// Whether it is being cleaned, and no copy of it is out.
    pub fn is_being_cleaned(&self) -> bool
        ensures { result ≡ is_being_cleaned self.now.place }
    {
        match &self.state {
            State::Resident(_, slot) => slot.is_cleaning(),
            State::ResidentOut(_) | State::Leaving(..) | State::LeavingOut(..) => false,
            State::Saving(..) | State::Fresh | State::Away(_) | State::Purged => false,
        }
    }

    /// Whether a copy of it is out.
    pub fn is_copied(&self) -> bool
        ensures { result ≡ is_copy_out (slot_of self.now.place) }
    {
        match &self.state {
            State::ResidentOut(_) | State::LeavingOut(..) => true,
            State::Resident(..) | State::Leaving(..) | State::Saving(..) => false,
            State::Fresh | State::Away(_) | State::Purged => false,
        }
    }

    /// Whether it has a slot at hand.
    pub fn has_slot(&self) -> bool
        ensures { result ≡ is_some (kept (slot_of self.now.place)) }
    {
        match &self.state {
            State::Resident(_, slot) => slot.has_slot(),
            State::Leaving(_, slot, _) => slot.has_slot(),
            State::Away(_) => true,
            State::ResidentOut(_) | State::LeavingOut(..) | State::Saving(..) => false,
            State::Fresh | State::Purged => false,
        }
    }

    /// Whether it has a frame or a slot to give back.
    pub fn has_to_give(&self) -> bool
        ensures { result ≡ is_some (given_back self.now.place) }
    {
        match &self.state {
            State::Resident(..) | State::Leaving(..) | State::Away(_) => true,
            State::ResidentOut(_) | State::LeavingOut(..) | State::Saving(..) => false,
            State::Fresh | State::Purged => false,
        }
    }

    /// Whether bytes of it are out with a job: it is being saved, or a copy of it is out.
    pub fn is_out(&self) -> bool
        ensures { result ≡ is_out self.now.place }
    {
        match &self.state {
            State::ResidentOut(_) | State::LeavingOut(..) | State::Saving(..) => true,
            State::Resident(..) | State::Leaving(..) => false,
            State::Fresh | State::Away(_) | State::Purged => false,
        }
    }

    /// Lends the bytes of the page's frame to be written, where the page has one and is not being saved.
    #[inline]
    pub fn bytes_mut(&mut self) -> Option<&mut [u8; 4096]>
        ensures* writes_back { sem 𝓛 (LendsBytes L.row S.row L.Ledger S.SwapSlot self.entry result) }
        ensures bytes { option_copied_mut result ≡ option_map (λ f.
            f.bytes) (writable self.old.place) }
    {
        self.state.bytes_mut()
    }

    /// Brings the page into a frame, from its slot or as it began. From its slot it comes only with the digest of what was
    /// saved. A refusal hands the frame back and leaves the page.
    pub fn fill(&mut self, frame: Frame<L>) -> Result<(), (Frame<L>, FillFault)>
        ensures filled { OnOk result (Filled frame self.old self.new) }
        ensures whole { OnOk result (Matches self.old.place (content S.content self.new)) }
        ensures digest { kept_digest self.new.place ≡ kept_digest self.old.place }
        ensures passed { OnOk result (failures_at S.failures self.new.place ≡
            failures_at S.failures self.old.place) }
        ensures called { CalledOnce S.called self.old.place self.new.place }
        ensures refused { IfErr result (λ back.
            RefusesFill S.honest S.failures frame self.old.place self.new.place back.0 back.1) }
        ensures content { Known S.honest self.old.place → content S.content self.new ≡
            content S.content self.old }
        ensures backed { Known S.honest self.old.place →
            OnOk result (Backed S.content false self.new) }
        ensures origin { self.new.origin ≡ self.old.origin }
    {
        let (state, done) = mem::replace(&mut self.state, State::Purged).filled(
            &self.origin,
            frame,
        );
        self.state = state;
        done
    }

    /// Begins to leave its frame, with the dirty bit of its page-table entry. A cleaning that has no copy ends.
    pub fn leave(&mut self, dirty: bool) -> Result<(), LeaveRefusal>
        ensures ok { OnOk result (left dirty self.old.place ≡ Ok self.new.place) }
        ensures refused { IfErr result (λ refusal. left dirty self.old.place ≡ Err refusal) }
        ensures err { OnErr result (self.new ≡ self.old) }
        ensures content { content S.content self.new ≡ content S.content self.old }
        ensures backed { OnOk result (Backed S.content dirty self.old →
            Backed S.content dirty self.new) }
        ensures origin { self.new.origin ≡ self.old.origin }
    {
        let (state, done) = mem::replace(&mut self.state, State::Purged).left(dirty);
        self.state = state;
        done
    }

    /// Stops leaving, with the dirty bit that its entry had when it began to.
    pub fn bring_back(&mut self) -> Result<bool, NotLeaving>
        ensures ok { IfOk result (λ dirty. brought_back self.old.place ≡
            Some (self.new.place, dirty)) }
        ensures refused { IsErr result ↔ (brought_back self.old.place ≡ None) }
        ensures err { OnErr result (self.new ≡ self.old) }
        ensures content { content S.content self.new ≡ content S.content self.old }
        ensures backed { IfOk result (λ dirty. Backed S.content false self.old →
            Backed S.content dirty self.new) }
        ensures origin { self.new.origin ≡ self.old.origin }
    {
        let (state, done) = mem::replace(&mut self.state, State::Purged).brought_back();
        self.state = state;
        done
    }

    /// Looks whether a page that is leaving can let its frame go, where `cached` says whether caches hold translations
    /// to it: not yet while they do, or a copy of it is out. A changed page without a slot takes the spare one.
    pub fn collect(
        &mut self,
        process: u32,
        vpn: u32,
        cached: bool,
        spare: &mut Option<S>,
    ) -> Collected<L, S>
        ensures answer { (self.new.place, (spare.new, result)) ≡
            collected process vpn cached self.old.place spare.old }
        ensures content { Backed S.content false self.old → content S.content self.new ≡
            content S.content self.old }
        ensures origin { self.new.origin ≡ self.old.origin }
    {
        let (state, answer) = mem::replace(&mut self.state, State::Purged).collected(
            process, vpn, cached, spare,
        );
        self.state = state;
        answer
    }

    /// The same; a copy is made in this room, and the room of the page's frame is left here in its place.
    pub fn collect_in(
        &mut self,
        process: u32,
        vpn: u32,
        cached: bool,
        spare: &mut Option<S>,
        room: &mut Box<[u8; 4096]>,
    ) -> Collected<L, S>
        ensures answer { (self.new.place, (spare.new, result)) ≡
            collected process vpn cached self.old.place spare.old }
        ensures content { Backed S.content false self.old → content S.content self.new ≡
            content S.content self.old }
        ensures origin { self.new.origin ≡ self.old.origin }
    {
        self.swap_room(room);
        self.collect(process, vpn, cached, spare)
    }

    /// Exchanges the room of a page's frame for another, where the page is leaving as a changed one and so is to be copied.
    fn swap_room(&mut self, room: &mut Box<[u8; 4096]>)
        ensures { self.new ≡ self.old }
    {
        if let State::Leaving(frame, _, true) = &mut self.state {
            frame.swap_room(room);
        }
    }

    /// Ends the save of the page, where the frame holds what was saved.
    pub fn saved(&mut self, job: SavedJob<S>) -> Result<Frame<L>, SaveRefusal<S>>
        ensures freed { IfOk result (λ frame. IfSaving self.old.place (λ saved _. saved ≡ frame) ×
            (self.new.place ≡ Away (copy_of job)) × (frame.bytes ≡ job.copy) × IsTrue job.passed) }
        ensures refused { IfErr result (RefusesSave job self.old.place self.new.place) }
        ensures content { S.honest → content S.content self.new ≡ content S.content self.old }
        ensures origin { self.new.origin ≡ self.old.origin }
    {
        let (state, done) = mem::replace(&mut self.state, State::Purged).saved(job);
        self.state = state;
        done
    }

    /// The same; the room that the copy was made in is left here, and the frame has the one that was here.
    pub fn saved_in(
        &mut self,
        job: SavedJob<S>,
        room: &mut Box<[u8; 4096]>,
    ) -> Result<Frame<L>, SaveRefusal<S>>
        ensures freed { IfOk result (λ frame. IfSaving self.old.place (λ saved _. saved ≡ frame) ×
            (self.new.place ≡ Away (copy_of job)) × (frame.bytes ≡ job.copy) × IsTrue job.passed) }
        ensures refused { IfErr result (RefusesSave job self.old.place self.new.place) }
        ensures content { S.honest → content S.content self.new ≡ content S.content self.old }
        ensures origin { self.new.origin ≡ self.old.origin }
    {
        match self.saved(job) {
            Ok(mut frame) => {
                frame.swap_room(room);
                Ok(frame)
            }
            Err(refusal) => Err(refusal),
        }
    }

    /// Reads the page's bytes from an offset on, as many as there is room for. They are loaded from the slot where the page
    /// is away. A refusal leaves the room as it was.
    pub fn read(&mut self, offset: usize, bytes: &mut [Option<u8>]) -> Result<(), ReadFault>
        requires { offset + length bytes.old ≤ 4096 }
        ensures bytes { Known S.honest self.old.place →
            OnOk result (bytes.new ≡ some_from (content S.content self.old) offset
            (length bytes.old)) }
        ensures unread { OnErr result (bytes.new ≡ bytes.old) }
        ensures mapped { OnOk result (self.old.place ≢ Purged) }
        ensures passed { OnOk result (failures_at S.failures self.new.place ≡
            failures_at S.failures self.old.place) }
        ensures called { CalledOnce S.called self.old.place self.new.place }
        ensures refused { IfErr result (RefusesRead S.failures self.old.place self.new.place) }
        ensures state { page_state_of self.new.place ≡ page_state_of self.old.place }
        ensures digest { kept_digest self.new.place ≡ kept_digest self.old.place }
        ensures at_hand { (¬ IfAway self.old.place (λ _. Unit {0})) → self.new ≡ self.old }
        ensures content { Known S.honest self.old.place → content S.content self.new ≡
            content S.content self.old }
        ensures origin { self.new.origin ≡ self.old.origin }
    {
        let State::Away(copy) = &mut self.state else {
            return self.read_at_hand(offset, bytes);
        };
        let mut page = [0; 4096];
        if copy.load(&mut page).is_err() {
            return Err(ReadFault::Device);
        }
        read_bytes(&page, offset, bytes);
        Ok(())
    }

    /// The same for a page that is not away.
    fn read_at_hand(&self, offset: usize, bytes: &mut [Option<u8>]) -> Result<(), ReadFault>
        requires within { offset + length bytes.old ≤ 4096 }
        requires at_hand { ¬ IfAway self.now.place (λ _. Unit {0}) }
        ensures bytes { OnOk result (bytes.new ≡ some_from (content S.content self.now) offset
            (length bytes.old)) }
        ensures unread { OnErr result (bytes.new ≡ bytes.old) }
        ensures purged { IsErr result ↔ (self.now.place ≡ Purged) }
        ensures refused { IfErr result (λ fault. fault ≡ ReadFault.Purged) }
    {
        match &self.state {
            State::Fresh => self.origin.read(offset, bytes),
            State::Resident(frame, _) => read_bytes(frame.bytes(), offset, bytes),
            State::Leaving(frame, _, _) => read_bytes(frame.bytes(), offset, bytes),
            State::ResidentOut(frame) => read_bytes(frame.bytes(), offset, bytes),
            State::LeavingOut(frame, _) => read_bytes(frame.bytes(), offset, bytes),
            State::Saving(frame, _) => read_bytes(frame.bytes(), offset, bytes),
            State::Away(_) => unreachable!(),
            State::Purged => return Err(ReadFault::Purged),
        }
        Ok(())
    }

    /// Gives up the frame and the slot, for good. A page that has neither, is being saved, or of which a copy is out, is left.
    pub fn give_back(&mut self) -> Option<(Option<Frame<L>>, Option<S>)>
        ensures given { result ≡ given_back self.old.place }
        ensures purged { OnSome result (self.new.place ≡ Purged) }
        ensures left { IfNone result (self.new ≡ self.old) }
        ensures origin { self.new.origin ≡ self.old.origin }
    {
        match mem::replace(&mut self.state, State::Purged) {
            State::Resident(frame, slot) => Some((Some(frame), slot.into_slot())),
            State::Leaving(frame, slot, _) => Some((Some(frame), slot.into_slot())),
            State::Away(copy) => Some((None, Some(copy.into_slot()))),
            other => {
                self.state = other;
                None
            }
        }
    }
}
