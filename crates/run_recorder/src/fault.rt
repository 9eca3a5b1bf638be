//! Why a run is not recorded.

use guest_io::UsageFault;
use guest_words::WordsFault;
use image_files::Fault;
use std::alloc::AllocError;
use thiserror::Error;

/// Why a run is not recorded.
#[derive(Debug, Drop, Error)]
pub enum RecorderFault<'a> {
    #[error("{0}")]
    Fault(Fault<'a>),
    /// Words that are no request, or options of the other way to run.
    #[error("{0}")]
    Usage(UsageFault<'a>),
    /// Words that the image does not take, or a fault of its file.
    #[error("{0}")]
    Words(WordsFault<'a>),
    /// The machine's audit found something amiss, so that its run is no flat run.
    #[error("the audit of the machine found a fault: the run is not recorded")]
    NotSound,
    #[error("{0}: cannot write the record")]
    NotWritten(&'a str),
    /// The output can't be written. The record is in the file of this name.
    #[error("cannot write the output; the record is in {0}")]
    NoOutput(&'a str),
}

impl<'a> From<Fault<'a>> for RecorderFault<'a> {
    ghost use Rattle.std.specs.Prelude.{◌≡◌};
    ghost use Rattle.run_recorder.specs.declared.fault.RecorderFault.TheVariants as fault;

    ghost from_gives = { λ why made. made ≡ fault.Fault why };

    fn from(fault: Fault<'a>) -> Self {
        RecorderFault::Fault(fault)
    }
}

impl<'a> From<WordsFault<'a>> for RecorderFault<'a> {
    ghost use Rattle.std.specs.Prelude.{◌≡◌};
    ghost use Rattle.run_recorder.specs.declared.fault.RecorderFault.TheVariants as fault;

    ghost from_gives = { λ why made. made ≡ fault.Words why };

    fn from(fault: WordsFault<'a>) -> Self {
        RecorderFault::Words(fault)
    }
}

impl<'a> From<UsageFault<'a>> for RecorderFault<'a> {
    fn from(fault: UsageFault<'a>) -> Self {
        RecorderFault::Usage(fault)
    }
}

impl From<AllocError> for RecorderFault<'_> {
    ghost use Rattle.std.specs.Prelude.{◌≡◌};
    ghost use Rattle.image_files.specs.declared.fault.Fault.TheVariants.{NoMemory};
    ghost use Rattle.run_recorder.specs.declared.fault.RecorderFault.TheVariants as fault;

    ghost from_gives = { λ _ made. made ≡ fault.Fault NoMemory };

    fn from(_: AllocError) -> Self {
        RecorderFault::Fault(Fault::NoMemory)
    }
}
