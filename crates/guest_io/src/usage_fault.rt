//! Words that are no request.

ghost use Rattle.std.specs.Prelude.{◌≡◌};
ghost use Rattle.guest_io.specs.declared.usage_fault.UsageFault.TheVariants as usage;

use std::alloc::AllocError;
use thiserror::Error;

/// Why words are no request.
#[derive(Debug, Drop, Error)]
pub enum UsageFault<'a> {
    /// As the library that reads the words says it in its first line.
    #[error("bad usage: {0}")]
    Words(String),
    #[error("bad usage: --{name} {word}: a number from {least} to {most} is wanted")]
    Number {
        name: &'static str,
        word: &'a str,
        least: u32,
        most: u32,
    },
    /// A word that an option does not take.
    #[error("bad usage: --{name} {word}: {wanted}")]
    Word {
        name: &'static str,
        word: &'a str,
        wanted: &'static str,
    },
    /// Options that don't go together.
    #[error("bad usage: --{option} can't be used {with}")]
    Option {
        option: &'static str,
        with: &'static str,
    },
    #[error("no memory")]
    NoMemory,
}

impl From<AllocError> for UsageFault<'_> {
    ghost from_gives = { λ _ fault. fault ≡ usage.NoMemory };

    fn from(_: AllocError) -> Self {
        UsageFault::NoMemory
    }
}
