//! Why a page is not admitted: it is resident, no frame is free, or there is no memory.

use thiserror::Error;

/// Why a page was not admitted, in the order in which the reasons are tested. Nothing has changed.
#[derive(Clone, Copy, Debug, PartialEq, Eq, Error)]
pub enum AdmitRefusal {
    #[error("the page is resident already")]
    AlreadyResident,
    #[error("no frame is free for the page")]
    NoFrame,
    #[error("out of memory")]
    NoMemory,
}
