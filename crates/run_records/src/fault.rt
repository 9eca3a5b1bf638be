//! Why a text is no record.

use std::alloc::AllocError;
use thiserror::Error;

/// Why a text is no record.
#[derive(Clone, Copy, Debug, PartialEq, Eq, Error)]
pub enum RecordFault {
    /// Its first line does not name this format and this version.
    #[error("not a record")]
    NotARecord,
    /// Its last line has no end.
    #[error("a record that is cut off")]
    Cut,
    /// Lines are counted from 1. One that is missing has the number that it would have.
    #[error("line {0}: bad line")]
    BadLine(u64),
    #[error("no memory")]
    NoMemory,
}

impl From<AllocError> for RecordFault {
    ghost use Rattle.std.specs.Prelude.{◌≡◌};
    ghost use Rattle.run_records.specs.declared.fault.RecordFault.TheVariants.{NoMemory};

    ghost from_gives = { λ _ fault. fault ≡ NoMemory };

    fn from(_: AllocError) -> Self {
        RecordFault::NoMemory
    }
}
