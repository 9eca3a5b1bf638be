//! Why an event is refused, with the number of each reason, and why no machine is made.

ghost use Rattle.std.specs.Prelude.{◌≡◌};
ghost use Rattle.machine_core.specs.RefusalNumber.{refusal_number};

use machine_limits::MOST_PROCESSES;
use thiserror::Error;

/// Why an event is refused, in the order in which the reasons are tested, but for want of memory, which comes last.
#[derive(Clone, Copy, PartialEq, Eq, Debug, Error)]
pub enum EventRefusal {
    #[error("there is no such process")]
    NoProcess,
    #[error("the process has no such live hart")]
    NoHart,
    #[error("the process has ended")]
    Ended,
    #[error("the page is not absent")]
    NotAbsent,
    #[error("no frame is free")]
    NoFrame,
    #[error("no page is resident")]
    NothingResident,
    #[error("the page is not leaving")]
    NotLeaving,
    #[error("the page is not being saved")]
    NotSaving,
    #[error("the process has not ended")]
    NotEnded,
    #[error("a page of the process is being saved")]
    SavingStill,
    #[error("the process has given its pages back")]
    Purged,
    #[error("out of memory")]
    NoMemory,
    #[error("the page is not resident")]
    NotResident,
    #[error("the page is not changed")]
    NotChanged,
    #[error("the page is being cleaned")]
    AlreadyCleaning,
    #[error("the page is not being cleaned")]
    NotCleaning,
    #[error("no copy of the page is out")]
    NotCopied,
}

impl EventRefusal {
    /// The number under which the refusal is printed, 1 to 17.
    pub fn number(self) -> u32
        ensures { result ≡ refusal_number self }
    {
        match self {
            EventRefusal::NoProcess => 1,
            EventRefusal::NoHart => 2,
            EventRefusal::Ended => 3,
            EventRefusal::NotAbsent => 4,
            EventRefusal::NoFrame => 5,
            EventRefusal::NothingResident => 6,
            EventRefusal::NotLeaving => 7,
            EventRefusal::NotSaving => 8,
            EventRefusal::NotEnded => 9,
            EventRefusal::SavingStill => 10,
            EventRefusal::Purged => 11,
            EventRefusal::NoMemory => 12,
            EventRefusal::NotResident => 13,
            EventRefusal::NotChanged => 14,
            EventRefusal::AlreadyCleaning => 15,
            EventRefusal::NotCleaning => 16,
            EventRefusal::NotCopied => 17,
        }
    }
}

/// Why no machine was made, in the order in which the reasons are tested.
#[derive(Clone, Copy, PartialEq, Eq, Debug, Error)]
pub enum CoreError {
    #[error("the number of frames is not between 4 and 4096")]
    BadSize,
    #[error("there are more than {most} processes", most = MOST_PROCESSES)]
    TooManyProcesses,
    #[error("out of memory")]
    NoMemory,
}
