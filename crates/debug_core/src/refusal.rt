//! Why the debugger refuses a call, with the number of each reason.

ghost use Rattle.std.specs.Prelude.{◌≡◌};
ghost use Rattle.debug_core.specs.RefusalNumber.{refusal_number};

use thiserror::Error;

/// Why a debugger refuses a call, in the order in which it is tested.
#[derive(Clone, Copy, Debug, PartialEq, Eq, Error)]
pub enum DebugRefusal {
    #[error("each of the 32 points is in use")]
    Full,
    #[error("a watch has 1 to 16 bytes, a look 1 to 4096, and both stay below 2^32")]
    BadRange,
    #[error("there is no such point")]
    NoPoint,
    #[error("there is no such hart")]
    NoHart,
    #[error("the process has ended")]
    Ended,
    #[error("no page is mapped there")]
    NotMapped,
    #[error("the page was given back")]
    Purged,
    #[error("the page could not be loaded")]
    Device,
    #[error("there is no memory")]
    NoMemory,
}

impl DebugRefusal {
    /// The refusal's number, 1 to 9.
    pub fn number(self) -> u32
        ensures { result ≡ refusal_number self }
    {
        match self {
            DebugRefusal::Full => 1,
            DebugRefusal::BadRange => 2,
            DebugRefusal::NoPoint => 3,
            DebugRefusal::NoHart => 4,
            DebugRefusal::Ended => 5,
            DebugRefusal::NotMapped => 6,
            DebugRefusal::Purged => 7,
            DebugRefusal::Device => 8,
            DebugRefusal::NoMemory => 9,
        }
    }
}
