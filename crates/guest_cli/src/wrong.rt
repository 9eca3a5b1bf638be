//! What is wrong with the words that the program was given.

use guest_io::UsageFault;
use image_files::Fault;
use record_commands::RecordsFault;
use std::alloc::AllocError;

/// Why a command stops. What is of the other programs too is their fault.
#[derive(Debug, Drop, thiserror::Error)]
pub(crate) enum Wrong<'a> {
    #[error("{0}")]
    Fault(Fault<'a>),
    /// Of a command on records.
    #[error("{0}")]
    Records(RecordsFault<'a>),
    /// Words that are no request.
    #[error("{0}")]
    Usage(UsageFault<'a>),
    /// The file of this name, or the option that is missing, is not the input of a record.
    #[error("{0}: not the input of the record")]
    OtherInput(&'a str),
    /// This image did not run again as it ran before.
    #[error("{0}: the run is another one this time")]
    OtherRun(&'a str),
}

impl<'a> From<Fault<'a>> for Wrong<'a> {
    ghost use Rattle.std.specs.Prelude.{◌≡◌};
    ghost use Rattle.guest_cli.specs.declared.wrong.Wrong.TheVariants as wrong;

    ghost from_gives = { λ why made. made ≡ wrong.Fault why };

    fn from(fault: Fault<'a>) -> Self {
        Wrong::Fault(fault)
    }
}

impl<'a> From<RecordsFault<'a>> for Wrong<'a> {
    ghost use Rattle.std.specs.Prelude.{◌≡◌};
    ghost use Rattle.guest_cli.specs.declared.wrong.Wrong.TheVariants as wrong;

    ghost from_gives = { λ why made. made ≡ wrong.Records why };

    fn from(fault: RecordsFault<'a>) -> Self {
        Wrong::Records(fault)
    }
}

impl<'a> From<UsageFault<'a>> for Wrong<'a> {
    ghost use Rattle.std.specs.Prelude.{◌≡◌};
    ghost use Rattle.guest_cli.specs.declared.wrong.Wrong.TheVariants as wrong;

    ghost from_gives = { λ why made. made ≡ wrong.Usage why };

    fn from(fault: UsageFault<'a>) -> Self {
        Wrong::Usage(fault)
    }
}

impl From<AllocError> for Wrong<'_> {
    ghost use Rattle.std.specs.Prelude.{◌≡◌};
    ghost use Rattle.image_files.specs.declared.fault.Fault.TheVariants.{NoMemory};
    ghost use Rattle.guest_cli.specs.declared.wrong.Wrong.TheVariants as wrong;

    ghost from_gives = { λ _ made. made ≡ wrong.Fault NoMemory };

    fn from(_: AllocError) -> Self {
        Wrong::Fault(Fault::NoMemory)
    }
}
