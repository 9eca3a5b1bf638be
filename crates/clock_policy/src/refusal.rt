//! Why the replacement list refuses a call, and why no list is made, with the number of each reason.

ghost use Rattle.std.specs.Prelude.{◌≡◌};
ghost use Rattle.clock_policy.specs.RefusalNumber.{refusal_number, new_refusal_number};

use thiserror::Error;

/// Why a call of the list was refused. A refused call changes nothing, and the refusals of a call are tested in this order.
#[derive(Clone, Copy, Debug, PartialEq, Eq, Error)]
pub enum Refusal {
    #[error("the page is resident already")]
    AlreadyResident,
    #[error("no page is resident, so that there is no question")]
    NoQuestion,
    #[error("the list has no entry of the page")]
    NotThere,
    #[error("each frame has its page")]
    Full,
    #[error("out of memory")]
    NoMemory,
}

impl Refusal {
    /// The number under which the refusal is printed. 5 is that of a list that was not made for its size.
    pub fn number(self) -> u32
        ensures { result ≡ refusal_number self }
    {
        match self {
            Refusal::AlreadyResident => 1,
            Refusal::NoQuestion => 2,
            Refusal::NotThere => 3,
            Refusal::Full => 4,
            Refusal::NoMemory => 6,
        }
    }
}

/// Why a list was not made.
#[derive(Clone, Copy, Debug, PartialEq, Eq, Error)]
pub enum NewRefusal {
    #[error("a list is for 4 to 4096 frames")]
    BadSize,
    #[error("out of memory")]
    NoMemory,
}

impl NewRefusal {
    /// The number under which the refusal is printed: 5 or 6.
    pub fn number(self) -> u32
        ensures { result ≡ new_refusal_number self }
    {
        match self {
            NewRefusal::BadSize => 5,
            NewRefusal::NoMemory => 6,
        }
    }
}
