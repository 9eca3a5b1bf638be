//! What is wrong with the words or the trace that the program was given.

use image_files::Fault;
use page_policies::PolicyRefusal;
use policies_requests::RequestFault;
use std::alloc::AllocError;
use std::io;
use trace_files::TraceFault;

/// Why a command stops. What is of the other programs too is their fault.
#[derive(Debug, Drop, thiserror::Error)]
pub enum Wrong<'a> {
    #[error("{0}")]
    Fault(Fault<'a>),
    /// Words that are no request.
    #[error("{0}")]
    Request(RequestFault<'a>),
    #[error("clock-pro and clock-pro-used have 4 to 4096 frames; name others by --policies")]
    BadSize,
    /// A curve of so many pages.
    #[error("{0} pages: a curve has rows for 16777216 frames at most")]
    ManyPages(usize),
    /// How many references are skipped, of a trace that has so many.
    #[error("--skip {0}: all {2} references of {1} are skipped")]
    AllSkipped(u64, &'a str, u64),
    /// Why a trace is not read to its end.
    #[error("{0}")]
    Trace(TraceFault<'a>),
}

impl<'a> From<Fault<'a>> for Wrong<'a> {
    fn from(fault: Fault<'a>) -> Self {
        Wrong::Fault(fault)
    }
}

impl<'a> From<RequestFault<'a>> for Wrong<'a> {
    fn from(fault: RequestFault<'a>) -> Self {
        match fault {
            RequestFault::NoMemory => Wrong::Fault(Fault::NoMemory),
            RequestFault::BadUsage => Wrong::Fault(Fault::BadUsage),
            other => Wrong::Request(other),
        }
    }
}

impl<'a> From<TraceFault<'a>> for Wrong<'a> {
    fn from(fault: TraceFault<'a>) -> Self {
        match fault {
            TraceFault::NoMemory => Wrong::Fault(Fault::NoMemory),
            TraceFault::CannotRead(name) => Wrong::Fault(Fault::CannotRead(name)),
            other => Wrong::Trace(other),
        }
    }
}

impl From<AllocError> for Wrong<'_> {
    ghost use Rattle.std.specs.Prelude.{◌≡◌};
    ghost use Rattle.image_files.specs.declared.fault.Fault.TheVariants.{NoMemory};
    ghost use Rattle.policies_cli.specs.declared.wrong.Wrong.TheVariants.{Fault};

    ghost from_gives = { λ _ wrong. wrong ≡ Fault NoMemory };

    fn from(_: AllocError) -> Self {
        Wrong::Fault(Fault::NoMemory)
    }
}

impl From<PolicyRefusal> for Wrong<'_> {
    fn from(refusal: PolicyRefusal) -> Self {
        match refusal {
            PolicyRefusal::BadSize => Wrong::BadSize,
            PolicyRefusal::NoMemory => Wrong::Fault(Fault::NoMemory),
        }
    }
}

impl From<io::Error> for Wrong<'_> {
    fn from(error: io::Error) -> Self {
        Wrong::Fault(Fault::from(error))
    }
}
