//! The states of a page, with its frame and its slot, and what backs it.

ghost use Rattle.std.specs.Prelude.{◌≡◌, length};
ghost use Rattle.frame_pool.specs.FrameValue.{zero_bytes};

use crate::page_copy::PageCopy;
use crate::reading::{read_bytes, read_zeros};
use crate::refusal::LeaveRefusal;
use frame_pool::{BareFrame, Frame};
use page_memory::Rights;
use shared_origins::SharedPage;
use std::sync::ledger::Ledger;
use swap_slots::SwapSlot;

/// Where a page is.
#[derive(Clone, Copy, PartialEq, Eq, Debug)]
pub enum PageState {
    /// It was never brought in, or it was dropped unchanged: its bytes are those that it began with.
    Fresh,
    /// It has a frame, and is mapped.
    Resident,
    /// It has a frame still, and is unmapped.
    Leaving,
    /// The same, while its bytes are saved.
    Saving,
    /// Its bytes are in its slot.
    Away,
    /// It was given back.
    Purged,
}

/// The slot that a page with a frame keeps, and what the page is backed by, unless a copy of it is out.
#[derive(Drop)]
pub(crate) enum Keeping<S: SwapSlot> {
    /// It has no slot, and is backed by what it began with.
    NoSlot,
    /// It has a slot that holds the bytes which were last saved: they back it.
    Saved(PageCopy<S>),
    /// Nothing backs it: its last save failed or was in vain, or its cleaning ended so. With its slot, if it has one.
    Unbacked(Option<S>),
    /// The same, while it is being cleaned.
    Cleaning(Option<S>),
}

impl<S: SwapSlot> Keeping<S> {
    ghost use Rattle.std.specs.Prelude.{◌≡◌, is_some};
    ghost use Rattle.page_store.specs.Cleaning.{is_cleaning};
    ghost use Rattle.page_store.specs.Keeping.{is_unbacked, kept, settled};
    ghost use Rattle.page_store.specs.View.{keeping_of};

    /// The slot, if it has one.
    pub(crate) fn into_slot(self) -> Option<S>
        ensures { result ≡ kept (keeping_of self) }
    {
        match self {
            Keeping::NoSlot => None,
            Keeping::Saved(copy) => Some(copy.into_slot()),
            Keeping::Unbacked(slot) => slot,
            Keeping::Cleaning(slot) => slot,
        }
    }

    /// Whether there is a slot at hand.
    pub(crate) fn has_slot(&self) -> bool
        ensures { result ≡ is_some (kept (keeping_of self.now)) }
    {
        match self {
            Keeping::NoSlot => false,
            Keeping::Saved(_) => true,
            Keeping::Unbacked(slot) => slot.is_some(),
            Keeping::Cleaning(slot) => slot.is_some(),
        }
    }

    /// Whether nothing backs its page.
    pub(crate) fn is_unbacked(&self) -> bool
        ensures { result ≡ is_unbacked (keeping_of self.now) }
    {
        match self {
            Keeping::NoSlot | Keeping::Saved(_) => false,
            Keeping::Unbacked(_) | Keeping::Cleaning(_) => true,
        }
    }

    /// Whether its page is being cleaned.
    pub(crate) fn is_cleaning(&self) -> bool
        ensures { result ≡ is_cleaning (keeping_of self.now) }
    {
        match self {
            Keeping::Cleaning(_) => true,
            Keeping::NoSlot | Keeping::Saved(_) | Keeping::Unbacked(_) => false,
        }
    }

    /// What its page keeps when it begins to leave: a cleaning ends.
    pub(crate) fn settled(self) -> Self
        ensures { keeping_of result ≡ settled (keeping_of self) }
    {
        match self {
            Keeping::Cleaning(slot) => Keeping::Unbacked(slot),
            other => other,
        }
    }
}

/// The bytes that a page begins with.
#[derive(Drop)]
pub(crate) enum Origin {
    Image(SharedPage),
    Zeros(Rights),
}

impl Origin {
    ghost use Rattle.std.specs.Prelude.{◌≡◌, ◌+◌, ◌≤◌, length};
    ghost use Rattle.page_store.specs.Reading.{some_from};
    ghost use Rattle.page_store.specs.View.{origin_of};

    /// What the page may be used for.
    pub(crate) fn rights(&self) -> Rights
        ensures { result ≡ (origin_of self.now).rights }
    {
        match self {
            Origin::Image(page) => page.rights(),
            Origin::Zeros(rights) => *rights,
        }
    }

    /// Reads the bytes from an offset on.
    pub(crate) fn read(&self, offset: usize, bytes: &mut [Option<u8>])
        requires { offset + length bytes.old ≤ 4096 }
        ensures { bytes.new ≡ some_from (origin_of self.now).bytes offset (length bytes.old) }
    {
        match self {
            Origin::Image(page) => read_bytes(page.bytes(), offset, bytes),
            Origin::Zeros(_) => read_zeros(offset, bytes),
        }
    }

    /// Writes the bytes to a frame.
    pub(crate) fn write_to<L: Ledger>(&self, frame: &mut Frame<L>)
        ensures { frame.new ≡ record frame.old { bytes = (origin_of self.now).bytes } }
    {
        match self {
            Origin::Image(page) => write_page(frame.bytes_mut(), page.bytes()),
            Origin::Zeros(_) => write_zeros(frame),
        }
    }
}

/// Makes the bytes of a frame zeros.
#[tactic(auto, unfolding(frame_pool::specs::FrameValue::zero_bytes))]
fn write_zeros<L: Ledger>(frame: &mut Frame<L>)
    ensures { frame.new ≡ record frame.old { bytes = zero_bytes } }
{
    frame.copy_from(&[0; 4096]);
}

/// Writes a whole page.
fn write_page(to: &mut [u8; 4096], from: &[u8])
    requires { length from.now ≡ 4096 }
    ensures { to.new ≡ from.now }
{
    to.copy_from_slice(from);
}

/// Where a page is, with its frame and its slot.
#[derive(Drop)]
pub(crate) enum State<L: Ledger, S: SwapSlot> {
    // The first five have a frame: one comparison shows it, at each access to a page's bytes.
    Resident(Frame<L>, Keeping<S>),
    /// With the dirty bit that its entry had when it began to leave.
    Leaving(Frame<L>, Keeping<S>, bool),
    /// A copy of the page is out, with its slot and the room of its frame.
    ResidentOut(BareFrame<L>),
    /// The same of a page that is leaving.
    LeavingOut(BareFrame<L>, bool),
    /// Its frame's room is out with the copy. With the same mark.
    Saving(BareFrame<L>, bool),
    Fresh,
    Away(PageCopy<S>),
    Purged,
}

/// What a page has that is in no frame and was not given back.
#[derive(Drop)]
pub(crate) enum Absent<S: SwapSlot> {
    Fresh,
    Away(PageCopy<S>),
}

impl<L: Ledger, S: SwapSlot> State<L, S> {
    ghost use Rattle.std.specs.Prelude.{◌≡◌, Bool, Err, IfErr, IfOk, OnErr};
    ghost use Rattle.std.specs.Borrow.{sem};
    ghost use Rattle.std.specs.Option.{option_copied_mut};
    ghost use Rattle.page_store.specs.Moves.{IfAbsent, IfSaving, left};
    ghost use Rattle.page_store.specs.PageValue.{Saving};
    ghost use Rattle.page_store.specs.View.{place_absent, place_in_state};
    ghost use Rattle.page_store.specs.StateLending.{lent_frame, LendsState};

    /// What a page that is absent has, or else the page as it was.
    pub(crate) fn into_absent(self) -> Result<Absent<S>, Self>
        ensures absent { IfOk result (λ absent. place_in_state self ≡ place_absent absent) }
        ensures other { IfErr result (λ other. (other ≡ self) ×
            (¬ IfAbsent (place_in_state self) (Unit {0}) (λ _. Unit {0}))) }
    {
        match self {
            State::Fresh => Ok(Absent::Fresh),
            State::Away(copy) => Ok(Absent::Away(copy)),
            other => Err(other),
        }
    }

    /// What a page that is being saved has, with its mark, or else the page as it was.
    pub(crate) fn into_saving(self) -> Result<(BareFrame<L>, bool), Self>
        ensures saving { IfOk result (λ saving. place_in_state self ≡ Saving saving.0 saving.1) }
        ensures other { IfErr result (λ other. (other ≡ self) ×
            (¬ IfSaving (place_in_state self) (λ _ _. Unit {0}))) }
    {
        match self {
            State::Saving(frame, dirty) => Ok((frame, dirty)),
            other => Err(other),
        }
    }

    /// Why a page that is not resident does not begin to leave.
    pub(crate) fn leave_refusal(&self) -> LeaveRefusal
        ensures { (mark : Bool) → OnErr (left mark (place_in_state self.now)) (
            left mark (place_in_state self.now) ≡ Err result) }
    {
        match self {
            State::Leaving(..) | State::LeavingOut(..) | State::Saving(..) => {
                LeaveRefusal::AlreadyLeaving
            }
            _ => LeaveRefusal::NotResident,
        }
    }

    /// Lends the bytes of the page's frame to be written, where the page has one and is not being saved.
    #[inline]
    pub(crate) fn bytes_mut(&mut self) -> Option<&mut [u8; 4096]>
        ensures* writes_back { sem 𝓛 (LendsState L.row S.row L.Ledger S.SwapSlot self.entry result) }
        ensures bytes { option_copied_mut result ≡ lent_frame self.old }
    {
        match self {
            State::Resident(frame, _) => Some(frame.bytes_mut()),
            State::Leaving(frame, _, _) => Some(frame.bytes_mut()),
            State::ResidentOut(frame) => Some(frame.bytes_mut()),
            State::LeavingOut(frame, _) => Some(frame.bytes_mut()),
            _ => None,
        }
    }
}
