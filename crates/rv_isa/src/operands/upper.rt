//! The immediate of the U format: the upper 20 bits of a word.

ghost use Rattle.std.specs.Prelude.{◌≡◌, ◌^◌, ◌<◌, ◌↔◌, IsSome, IfSome};

use std::marker::Model;

/// The immediate of `lui` and `auipc`: 20 bits, the upper ones of a word.
#[derive(Clone, Copy, Debug, PartialEq, Eq)]
pub struct UpperImmediate {
    value: u32,
}

impl Model for UpperImmediate {
    ghost use Rattle.std.specs.Prelude.{ℕ, ◌<◌, ◌^◌};

    ghost Value = { ℕ };

    ghost view = { λ u. u.value };

    ghost invariant = { λ u. u.value < 2 ^ 20 };

    ghost inverse = { λ n. record { value = n } };
}

impl UpperImmediate {
    /// The immediate of a number below 2^20.
    #[inline]
    pub(crate) fn from_value(value: u32) -> Self
        requires { value < 2 ^ 20 }
        ensures { result ≡ value }
    {
        UpperImmediate { value }
    }

    /// The immediate of a number, if that is below 2^20.
    pub fn new(value: u32) -> Option<Self>
        ensures valid { IsSome result ↔ (value < 2 ^ 20) }
        ensures value { IfSome result (λ u. u ≡ value) }
    {
        if value < 0x10_0000 {
            Some(UpperImmediate { value })
        } else {
            None
        }
    }

    /// The 20 bits as a number.
    #[inline]
    pub fn value(self) -> u32
        ensures value { result ≡ self }
        ensures in_range { result < 2 ^ 20 }
    {
        self.value
    }
}
