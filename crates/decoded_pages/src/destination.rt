//! A register that an instruction may write.

ghost use Rattle.std.specs.Prelude.{◌≡◌, ◌<◌, MatchOption};

use rv_isa::Reg;
use std::marker::Model;

/// A register that keeps what is written to it: `x1` to `x31`.
#[derive(Clone, Copy, Debug, PartialEq, Eq)]
pub struct Destination {
    index: u8,
}

impl Model for Destination {
    ghost use Rattle.std.specs.Prelude.{ℕ, ◌<◌};

    ghost Value = { ℕ };

    ghost view = { λ d. d.index };

    ghost invariant = { λ d. (0 < d.index) × (d.index < 32) };

    ghost inverse = { λ n. record { index = n } };
}

impl Destination {
    /// The value where no register is written.
    pub fn unused() -> Self {
        Destination { index: 1 }
    }

    /// The register, unless it is `x0`.
    pub fn new(named: Reg) -> Option<Self>
        ensures { MatchOption result (named ≡ 0) (λ destination. destination ≡ named) }
    {
        let index = named.index();
        if index == 0 {
            None
        } else {
            Some(Destination { index })
        }
    }

    /// Its number.
    #[inline(always)]
    pub fn index(self) -> u8
        ensures value { result ≡ self }
        ensures above { 0 < result }
        ensures below { result < 32 }
    {
        self.index
    }
}
