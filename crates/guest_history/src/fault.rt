//! Why a conversation is broken off.

use run_paths::RunFault;
use thiserror::Error;

/// Why a conversation is broken off.
#[derive(Clone, Copy, Debug, PartialEq, Eq, Error)]
pub enum HistoryFault {
    /// Lines are counted from 1.
    #[error("line {0}: bad line")]
    BadLine(u64),
    #[error("the input can't be read")]
    CannotRead,
    #[error("the replies can't be written")]
    CannotWrite,
    #[error("{0}")]
    Run(RunFault),
}

impl From<RunFault> for HistoryFault {
    ghost use Rattle.std.specs.Prelude.{◌≡◌};
    ghost use Rattle.guest_history.specs.declared.fault.HistoryFault.TheVariants as fault;

    ghost from_gives = { λ why made. made ≡ fault.Run why };

    fn from(why: RunFault) -> Self {
        HistoryFault::Run(why)
    }
}
