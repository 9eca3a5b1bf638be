//! Why a command stops, as the message on standard error.

use command_line::UsageError;
use file_slots::{FileName, FilesFault};
use std::alloc::AllocError;
use std::io;
use thiserror::Error;

/// Why a command stops. Each is printed on standard error after `paged: `.
#[derive(Clone, Copy, Debug, PartialEq, Eq, Error)]
pub enum Fault<'a> {
    #[error("bad usage")]
    BadUsage,
    #[error("{0}: cannot read")]
    CannotRead(&'a str),
    /// The file of a slot could not be made.
    #[error("{0}: cannot read")]
    CannotMake(FileName<'a>),
    #[error("{0}: elf fault {1}")]
    ElfFault(&'a str, u8),
    /// A fault of an assembler's source: a line, counted from 1 (0 means the whole source), and the fault's number.
    #[error("{0}: line {1}: fault {2}")]
    Source(&'a str, usize, u8),
    #[error("{0}: bad words")]
    BadWords(&'a str),
    /// Lines are counted from 1.
    #[error("line {0}: bad line")]
    BadLine(u64),
    #[error("no memory")]
    NoMemory,
    /// What a command had to say could not be written.
    #[error("cannot write")]
    CannotWrite,
}

impl From<AllocError> for Fault<'_> {
    ghost use Rattle.std.specs.Prelude.{◌≡◌};
    ghost use Rattle.image_files.specs.declared.fault.Fault.TheVariants.{NoMemory};

    ghost from_gives = { λ _ fault. fault ≡ NoMemory };

    fn from(_: AllocError) -> Self {
        Fault::NoMemory
    }
}

impl From<UsageError> for Fault<'_> {
    ghost use Rattle.std.specs.Prelude.{◌≡◌};
    ghost use Rattle.image_files.specs.Faults.{usage_fault};

    ghost from_gives = { λ error fault. fault ≡ usage_fault error };

    fn from(error: UsageError) -> Self {
        match error {
            UsageError::BadUsage => Fault::BadUsage,
            UsageError::NoMemory => Fault::NoMemory,
        }
    }
}

impl<'a> From<FilesFault<'a>> for Fault<'a> {
    ghost use Rattle.std.specs.Prelude.{◌≡◌};
    ghost use Rattle.image_files.specs.SlotFiles.{fault_of};

    ghost from_gives = { λ error fault. fault ≡ fault_of error };

    fn from(error: FilesFault<'a>) -> Self {
        match error {
            FilesFault::CannotMake(name) => Fault::CannotMake(name),
            FilesFault::NoMemory => Fault::NoMemory,
        }
    }
}

/// Of what is written to standard output.
impl From<io::Error> for Fault<'_> {
    ghost use Rattle.std.specs.Prelude.{◌≡◌};
    ghost use Rattle.image_files.specs.declared.fault.Fault.TheVariants.{CannotWrite};

    ghost from_gives = { λ _ fault. fault ≡ CannotWrite };

    fn from(_: io::Error) -> Self {
        Fault::CannotWrite
    }
}
