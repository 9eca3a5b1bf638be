//! Why a policy is not made.

use std::alloc::AllocError;
use thiserror::Error;

/// Why a policy is not made.
#[derive(Clone, Copy, Debug, PartialEq, Eq, Error)]
pub enum PolicyRefusal {
    #[error("the policy does not serve so many frames")]
    BadSize,
    #[error("out of memory")]
    NoMemory,
}

impl From<AllocError> for PolicyRefusal {
    ghost use Rattle.std.specs.Prelude.{◌≡◌};
    ghost use Rattle.page_policies.specs.declared.refusal.PolicyRefusal.TheVariants.{NoMemory};

    ghost from_gives = { λ _ refusal. refusal ≡ NoMemory };

    fn from(_: AllocError) -> Self {
        PolicyRefusal::NoMemory
    }
}
