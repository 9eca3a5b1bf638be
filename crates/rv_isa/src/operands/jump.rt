//! The distance of a jump (J format), in bytes: even, 21 bits, signed.

ghost use Rattle.std.specs.Prelude.{◌≡◌, ◌↔◌, IsSome, IfSome};
ghost use Rattle.std.specs.Int.{w32, cast_unsigned};
ghost use Rattle.rv_isa.specs.Operands.{IsJumpOffset};

use std::marker::Model;

/// The signed distance of a jump, in bytes: even, -1048576 to 1048574.
#[derive(Clone, Copy, Debug, PartialEq, Eq)]
pub struct JumpOffset {
    number: i32,
}

impl Model for JumpOffset {
    ghost use Rattle.std.specs.Prelude.{ℤ};
    ghost use Rattle.rv_isa.specs.Operands.{IsJumpOffset};

    ghost Value = { ℤ };

    ghost view = { λ j. j.number };

    ghost invariant = { λ j. IsJumpOffset j.number };

    ghost inverse = { λ z. record { number = z } };
}

impl JumpOffset {
    /// The distance of a value that is even and in range.
    #[inline]
    pub(crate) fn from_value(value: i32) -> Self
        requires { IsJumpOffset value }
        ensures { result ≡ value }
    {
        JumpOffset { number: value }
    }

    /// The distance of a value, if it is even and in range.
    pub fn new(value: i32) -> Option<Self>
        ensures valid { IsSome result ↔ IsJumpOffset value }
        ensures value { IfSome result (λ j. j ≡ value) }
    {
        if -1_048_576 <= value && value < 1_048_576 && value.cast_unsigned() % 2 == 0 {
            Some(JumpOffset { number: value })
        } else {
            None
        }
    }

    #[inline]
    pub fn value(self) -> i32
        ensures value { result ≡ self }
        ensures in_range { IsJumpOffset result }
    {
        self.number
    }

    /// The distance, sign-extended to a word.
    #[inline]
    pub fn word(self) -> u32
        ensures value { result ≡ cast_unsigned w32 self }
        ensures in_range { IsJumpOffset self }
    {
        self.value().cast_unsigned()
    }
}
