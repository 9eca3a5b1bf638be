//! Why a walk gives no address, why a page is not mapped, and that a table does not exist.

use thiserror::Error;

/// Why a walk gives no physical address, in the order of their numbers.
#[derive(Clone, Copy, PartialEq, Eq, Debug, Error)]
pub enum WalkFault {
    /// No leaf is there, or none that allows the access.
    #[error("page fault")]
    PageFault,
    /// A pointer names a physical page that is no table.
    #[error("access fault")]
    AccessFault,
}

/// Why a page was not mapped, in the order of their numbers.
#[derive(Clone, Copy, PartialEq, Eq, Debug, Error)]
pub enum MapFault {
    /// A new table is needed, and there are as many as have a number.
    #[error("too many tables")]
    TooManyTables,
    #[error("out of memory")]
    NoMemory,
}

/// There is no table of this number.
#[derive(Clone, Copy, PartialEq, Eq, Debug, Error)]
#[error("no such table")]
pub struct NoTable;
