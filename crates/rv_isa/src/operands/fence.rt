//! The upper 12 bits of a fence's word, which are kept as they are.

ghost use Rattle.std.specs.Prelude.{◌≡◌, ◌^◌, ◌<◌, ◌↔◌, IsSome, IfSome};

use std::marker::Model;

/// Bits 31 to 20 of a fence: its mode, predecessors and successors.
#[derive(Clone, Copy, Debug, PartialEq, Eq)]
pub struct FenceBits {
    value: u16,
}

impl Model for FenceBits {
    ghost use Rattle.std.specs.Prelude.{ℕ, ◌<◌, ◌^◌};

    ghost Value = { ℕ };

    ghost view = { λ f. f.value };

    ghost invariant = { λ f. f.value < 2 ^ 12 };

    ghost inverse = { λ n. record { value = n } };
}

impl FenceBits {
    /// The bits of a number below 2^12.
    #[inline]
    pub(crate) fn from_value(value: u16) -> Self
        requires { value < 2 ^ 12 }
        ensures { result ≡ value }
    {
        FenceBits { value }
    }

    /// The bits of a number, if it is below 2^12.
    pub fn new(value: u16) -> Option<Self>
        ensures valid { IsSome result ↔ (value < 2 ^ 12) }
        ensures value { IfSome result (λ f. f ≡ value) }
    {
        if value < 0x1000 {
            Some(FenceBits { value })
        } else {
            None
        }
    }

    #[inline]
    pub fn value(self) -> u16
        ensures value { result ≡ self }
        ensures in_range { result < 2 ^ 12 }
    {
        self.value
    }
}
