//! Why a run can't be run again.

use std::alloc::AllocError;
use thiserror::Error;

/// Why a run can't be run again.
#[derive(Clone, Copy, Debug, PartialEq, Eq, Error)]
pub enum RunFault {
    #[error("no memory")]
    NoMemory,
    /// The steps of a path are not those of the program.
    #[error("the run is another one this time")]
    OtherRun,
}

impl From<AllocError> for RunFault {
    ghost use Rattle.std.specs.Prelude.{◌≡◌};
    ghost use Rattle.run_paths.specs.declared.fault.RunFault.TheVariants as fault;

    ghost from_gives = { λ _ made. made ≡ fault.NoMemory };

    fn from(_: AllocError) -> Self {
        RunFault::NoMemory
    }
}
