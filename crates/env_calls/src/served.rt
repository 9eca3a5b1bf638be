//! What becomes of a hart by its served call, and why a call can't be served yet.

ghost use Rattle.std.specs.Prelude.{◌≡◌};
ghost use Rattle.env_calls.specs.declared.served.ServeStop.TheVariants.{NoMemory};

use rv_exec::Regs;
use std::alloc::AllocError;
use thiserror::Error;

/// What becomes of the hart whose call was served.
#[derive(Clone, Copy, Debug, PartialEq, Eq)]
pub enum Served {
    /// It goes on.
    Continue,
    /// It goes on, and lets others have their turn.
    Yield,
    /// It is done; another hart of its process is live.
    HartDone,
    /// Its process ends with this exit status.
    Ended(u32),
    /// It goes on, and a new hart with this number and these registers is started.
    Spawned { hart: u32, regs: Regs },
}

/// Why a call could not be served yet. Nothing has changed.
#[derive(Clone, Copy, Debug, PartialEq, Eq, Error)]
pub enum ServeStop {
    #[error("page {0:#x} is absent")]
    Absent(u32),
    #[error("out of memory")]
    NoMemory,
}

impl From<AllocError> for ServeStop {
    ghost from_gives = { λ _ stop. stop ≡ NoMemory };

    fn from(_error: AllocError) -> ServeStop {
        ServeStop::NoMemory
    }
}
