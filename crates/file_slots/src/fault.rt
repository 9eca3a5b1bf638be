//! Why slots in files are not made: a file that can't be made, or no memory.

use crate::file_name::FileName;
use std::alloc::AllocError;
use thiserror::Error;

/// Why slots in files could not be had.
#[derive(Clone, Copy, Debug, PartialEq, Eq, Error)]
pub enum FilesFault<'a> {
    /// The file of this name could not be made anew.
    #[error("{0}: cannot read")]
    CannotMake(FileName<'a>),
    #[error("no memory")]
    NoMemory,
}

impl From<AllocError> for FilesFault<'_> {
    ghost use Rattle.std.specs.Prelude.{◌≡◌};
    ghost use Rattle.file_slots.specs.declared.fault.FilesFault.TheVariants.{NoMemory};

    ghost from_gives = { λ _ fault. fault ≡ NoMemory };

    fn from(_: AllocError) -> Self {
        FilesFault::NoMemory
    }
}
