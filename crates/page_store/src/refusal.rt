//! Why a page is not filled, does not leave or come back, is not cleaned, or can't be read.

use thiserror::Error;

/// Why a page was not brought in, in the order in which the reasons are tested.
#[derive(Clone, Copy, PartialEq, Eq, Debug, Error)]
pub enum FillFault {
    #[error("the page is not absent")]
    NotAbsent,
    #[error("the device failed")]
    Device,
    /// What was loaded has another digest than what was saved.
    #[error("the page is damaged")]
    Damaged,
}

/// Why a page does not begin to leave its frame, in the order in which the reasons are tested.
#[derive(Clone, Copy, PartialEq, Eq, Debug, Error)]
pub enum LeaveRefusal {
    #[error("the page is leaving already")]
    AlreadyLeaving,
    #[error("the page is not resident")]
    NotResident,
}

/// Why a page does not begin to be cleaned, in the order in which the reasons are tested.
#[derive(Clone, Copy, PartialEq, Eq, Debug, Error)]
pub enum CleanRefusal {
    #[error("the page is not resident")]
    NotResident,
    #[error("the page is not changed")]
    NotChanged,
    /// Or a copy of it is out.
    #[error("the page is being cleaned already")]
    AlreadyCleaning,
}

/// The page is not leaving, so there is nothing to bring back.
#[derive(Clone, Copy, PartialEq, Eq, Debug, Error)]
#[error("the page is not leaving")]
pub struct NotLeaving;

/// Why a byte of a page can't be read, in the order in which the reasons are tested.
#[derive(Clone, Copy, PartialEq, Eq, Debug, Error)]
pub enum ReadFault {
    #[error("the page was given back")]
    Purged,
    #[error("the device failed")]
    Device,
}
