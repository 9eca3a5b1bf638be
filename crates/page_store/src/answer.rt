//! What a page answers when it is to be collected, saved, copied or cleaned.

use crate::job::{CleanJob, CleanedJob, SaveJob, SavedJob};
use frame_pool::Frame;
use std::sync::ledger::Ledger;
use swap_slots::SwapSlot;

/// What a look at a page that is to leave its frame finds.
#[derive(Drop)]
pub enum Collected<L: Ledger, S: SwapSlot> {
    /// The page is not leaving.
    NotLeaving,
    /// A cache holds a translation to its frame still.
    NotYet,
    /// It was unchanged, and has left its frame.
    Clean(Frame<L>),
    /// It is changed, and its bytes are to be saved.
    Dirty(SaveJob<S>),
    /// It is changed, and there is no slot for it.
    NoSlot,
}

/// Why a save that comes back does not free the page's frame, in the order in which the reasons are tested.
#[derive(Drop)]
pub enum SaveRefusal<S: SwapSlot> {
    /// No save of this page is out. The job comes back.
    WrongPage(SavedJob<S>),
    /// The frame no longer holds the bytes that were copied.
    Mismatch,
    /// The device failed.
    Device,
}

/// What comes of a copy that is to be made of a page while it is being cleaned, in the order in which it is tested.
#[derive(Drop)]
pub enum CleanCopy<S: SwapSlot> {
    /// The page is not being cleaned, or its copy is out.
    NotCleaning,
    /// A store was made since the cleaning began, which has ended.
    Stored,
    /// A cache holds a translation to its frame with the dirty mark still.
    NotYet,
    /// There is no slot for it, and the cleaning has ended.
    NoSlot,
    /// Its copy is to be written.
    Copied(CleanJob<S>),
}

/// What comes of a copy that comes back, in the order in which it is tested.
#[derive(Drop)]
pub enum Cleaned<S: SwapSlot> {
    /// No copy of this page is out, or no store explains why it differs from the page. The job comes back.
    WrongPage(CleanedJob<S>),
    /// A store followed the copy.
    Stored,
    /// The device failed.
    Device,
    /// The copy backs the page, which is unchanged.
    Clean,
}
