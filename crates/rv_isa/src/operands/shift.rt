//! The amount of a shift by an immediate: 5 bits.

ghost use Rattle.std.specs.Prelude.{◌≡◌, ◌<◌, ◌↔◌, IsSome, IfSome};

use std::marker::Model;

/// How far a shift by an immediate goes: 0 to 31.
#[derive(Clone, Copy, Debug, PartialEq, Eq)]
pub struct ShiftAmount {
    value: u8,
}

impl Model for ShiftAmount {
    ghost use Rattle.std.specs.Prelude.{ℕ, ◌<◌};

    ghost Value = { ℕ };

    ghost view = { λ s. s.value };

    ghost invariant = { λ s. s.value < 32 };

    ghost inverse = { λ n. record { value = n } };
}

impl ShiftAmount {
    /// The amount of a number below 32.
    #[inline]
    pub(crate) fn from_value(value: u8) -> Self
        requires { value < 32 }
        ensures { result ≡ value }
    {
        ShiftAmount { value }
    }

    /// The amount, if it is below 32.
    pub fn new(value: u8) -> Option<Self>
        ensures valid { IsSome result ↔ (value < 32) }
        ensures value { IfSome result (λ s. s ≡ value) }
    {
        if value < 32 {
            Some(ShiftAmount { value })
        } else {
            None
        }
    }

    #[inline]
    pub fn value(self) -> u8
        ensures value { result ≡ self }
        ensures in_range { result < 32 }
    {
        self.value
    }
}
