//! The immediate of the I and S formats: 12 bits, signed.

ghost use Rattle.std.specs.Prelude.{◌≡◌, ◌↔◌, IsSome, IfSome};
ghost use Rattle.std.specs.Int.{w32, cast_unsigned};
ghost use Rattle.rv_isa.specs.Operands.{IsImmediate};

use std::marker::Model;

/// A signed immediate of 12 bits: -2048 to 2047.
#[derive(Clone, Copy, Debug, PartialEq, Eq)]
pub struct Immediate {
    number: i32,
}

impl Model for Immediate {
    ghost use Rattle.std.specs.Prelude.{ℤ};
    ghost use Rattle.rv_isa.specs.Operands.{IsImmediate};

    ghost Value = { ℤ };

    ghost view = { λ i. i.number };

    ghost invariant = { λ i. IsImmediate i.number };

    ghost inverse = { λ z. record { number = z } };
}

impl Immediate {
    /// The immediate of a value that is in range.
    #[inline]
    pub(crate) fn from_value(value: i32) -> Self
        requires { IsImmediate value }
        ensures { result ≡ value }
    {
        Immediate { number: value }
    }

    /// The immediate of a value, if it is in range.
    pub fn new(value: i32) -> Option<Self>
        ensures valid { IsSome result ↔ IsImmediate value }
        ensures value { IfSome result (λ i. i ≡ value) }
    {
        if -2048 <= value && value < 2048 {
            Some(Immediate { number: value })
        } else {
            None
        }
    }

    #[inline]
    pub fn value(self) -> i32
        ensures value { result ≡ self }
        ensures in_range { IsImmediate result }
    {
        self.number
    }

    /// The immediate, sign-extended to a word.
    #[inline]
    pub fn word(self) -> u32
        ensures value { result ≡ cast_unsigned w32 self }
        ensures in_range { IsImmediate self }
    {
        self.value().cast_unsigned()
    }
}
