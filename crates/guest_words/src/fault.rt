//! Why a guest is given no words.

use image_files::Fault;
use std::alloc::AllocError;
use thiserror::Error;

/// Why a guest is given no words.
#[derive(Clone, Copy, Debug, PartialEq, Eq, Error)]
pub enum WordsFault<'a> {
    /// Of the image's file, or of memory.
    #[error("{0}")]
    Fault(Fault<'a>),
    #[error("{0}: it takes no words: the file has no bytes of an object __guest_words")]
    NoObject(&'a str),
    /// More bytes are needed than the object has.
    #[error("{image}: the words need {need} bytes, and its object __guest_words has {room}")]
    TooLong {
        image: &'a str,
        need: u64,
        room: u32,
    },
}

impl<'a> From<Fault<'a>> for WordsFault<'a> {
    ghost use Rattle.std.specs.Prelude.{◌≡◌};
    ghost use Rattle.guest_words.specs.declared.fault.WordsFault.TheVariants as fault;

    ghost from_gives = { λ why made. made ≡ fault.Fault why };

    fn from(why: Fault<'a>) -> Self {
        WordsFault::Fault(why)
    }
}

impl From<AllocError> for WordsFault<'_> {
    ghost use Rattle.std.specs.Prelude.{◌≡◌};
    ghost use Rattle.image_files.specs.declared.fault.Fault.TheVariants.{NoMemory};
    ghost use Rattle.guest_words.specs.declared.fault.WordsFault.TheVariants as fault;

    ghost from_gives = { λ _ made. made ≡ fault.Fault NoMemory };

    fn from(_: AllocError) -> Self {
        WordsFault::Fault(Fault::NoMemory)
    }
}
