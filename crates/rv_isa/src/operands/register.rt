//! The registers that instructions name, by their numbers below 32.

ghost use Rattle.std.specs.Prelude.{◌≡◌, ◌<◌, ◌↔◌, IsSome, IfSome};

use std::marker::Model;

/// An integer register, `x0` to `x31`.
#[derive(Clone, Copy, Debug, PartialEq, Eq)]
pub struct Reg {
    index: u8,
}

impl Model for Reg {
    ghost use Rattle.std.specs.Prelude.{ℕ, ◌<◌};

    ghost Value = { ℕ };

    ghost view = { λ r. r.index };

    ghost invariant = { λ r. r.index < 32 };

    ghost inverse = { λ n. record { index = n } };
}

impl Reg {
    /// The register of an index below 32.
    #[inline]
    pub fn from_index(index: u8) -> Self
        requires { index < 32 }
        ensures { result ≡ index }
    {
        Reg { index }
    }

    /// The register of an index, if there is one.
    pub fn new(index: u8) -> Option<Self>
        ensures valid { IsSome result ↔ (index < 32) }
        ensures value { IfSome result (λ r. r ≡ index) }
    {
        if index < 32 {
            Some(Reg { index })
        } else {
            None
        }
    }

    /// 0 for `x0` to 31 for `x31`.
    #[inline]
    pub fn index(self) -> u8
        ensures value { result ≡ self }
        ensures in_range { result < 32 }
    {
        self.index
    }
}
