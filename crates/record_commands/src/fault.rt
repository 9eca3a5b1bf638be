//! Why a command stops.

use guest_words::WordsFault;
use image_files::Fault;
use run_records::{RecordFault, ReplayFault};
use std::alloc::AllocError;
use std::io;
use thiserror::Error;

/// Why a command stops.
#[derive(Clone, Copy, Debug, PartialEq, Eq, Error)]
pub enum RecordsFault<'a> {
    /// Of a file, of the input, of output or of memory.
    #[error("{0}")]
    Fault(Fault<'a>),
    /// Words that the image does not take.
    #[error("{0}")]
    Words(WordsFault<'a>),
    /// The file of this name is no record.
    #[error("{0}: {1}")]
    NoRecord(&'a str, RecordFault),
    /// The file of this name is not that of the record's image.
    #[error("{0}: not the image of the record")]
    OtherImage(&'a str),
    #[error("standard input: not the input of the record")]
    OtherInput,
    /// The record of this file does not replay.
    #[error("{0}: {1}")]
    NoReplay(&'a str, ReplayFault),
    /// The record of the run by this seed can't be written into this folder.
    #[error("{0}/{1}.record: cannot write")]
    NotSaved(&'a str, u64),
    /// The file of this folder and seed holds a record of another image, which is not replaced.
    #[error("{0}/{1}.record: a record of another image")]
    OtherRecord(&'a str, u64),
}

impl<'a> From<Fault<'a>> for RecordsFault<'a> {
    ghost use Rattle.std.specs.Prelude.{◌≡◌};
    ghost use Rattle.record_commands.specs.declared.fault.RecordsFault.TheVariants as fault;

    ghost from_gives = { λ why made. made ≡ fault.Fault why };

    fn from(why: Fault<'a>) -> Self {
        RecordsFault::Fault(why)
    }
}

impl<'a> From<WordsFault<'a>> for RecordsFault<'a> {
    ghost use Rattle.std.specs.Prelude.{◌≡◌};
    ghost use Rattle.record_commands.specs.Replayed.{words_fault};

    ghost from_gives = { λ why made. made ≡ words_fault why };

    fn from(why: WordsFault<'a>) -> Self {
        match why {
            WordsFault::Fault(why) => RecordsFault::Fault(why),
            why => RecordsFault::Words(why),
        }
    }
}

impl From<AllocError> for RecordsFault<'_> {
    ghost use Rattle.std.specs.Prelude.{◌≡◌};
    ghost use Rattle.image_files.specs.declared.fault.Fault.TheVariants.{NoMemory};
    ghost use Rattle.record_commands.specs.declared.fault.RecordsFault.TheVariants as fault;

    ghost from_gives = { λ _ made. made ≡ fault.Fault NoMemory };

    fn from(_: AllocError) -> Self {
        RecordsFault::Fault(Fault::NoMemory)
    }
}

/// Of what is written to standard output.
impl From<io::Error> for RecordsFault<'_> {
    ghost use Rattle.std.specs.Prelude.{◌≡◌};
    ghost use Rattle.image_files.specs.declared.fault.Fault.TheVariants.{CannotWrite};
    ghost use Rattle.record_commands.specs.declared.fault.RecordsFault.TheVariants as fault;

    ghost from_gives = { λ _ made. made ≡ fault.Fault CannotWrite };

    fn from(_: io::Error) -> Self {
        RecordsFault::Fault(Fault::CannotWrite)
    }
}
