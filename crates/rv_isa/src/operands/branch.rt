//! The distance of a branch (B format), in bytes: even, 13 bits, signed.

ghost use Rattle.std.specs.Prelude.{◌≡◌, ◌↔◌, IsSome, IfSome};
ghost use Rattle.std.specs.Int.{w32, cast_unsigned};
ghost use Rattle.rv_isa.specs.Operands.{IsBranchOffset};

use std::marker::Model;

/// The signed distance of a branch, in bytes: even, -4096 to 4094.
#[derive(Clone, Copy, Debug, PartialEq, Eq)]
pub struct BranchOffset {
    number: i32,
}

impl Model for BranchOffset {
    ghost use Rattle.std.specs.Prelude.{ℤ};
    ghost use Rattle.rv_isa.specs.Operands.{IsBranchOffset};

    ghost Value = { ℤ };

    ghost view = { λ b. b.number };

    ghost invariant = { λ b. IsBranchOffset b.number };

    ghost inverse = { λ z. record { number = z } };
}

impl BranchOffset {
    /// The distance of a value that is even and in range.
    #[inline]
    pub(crate) fn from_value(value: i32) -> Self
        requires { IsBranchOffset value }
        ensures { result ≡ value }
    {
        BranchOffset { number: value }
    }

    /// The distance of a value, if it is even and in range.
    pub fn new(value: i32) -> Option<Self>
        ensures valid { IsSome result ↔ IsBranchOffset value }
        ensures value { IfSome result (λ b. b ≡ value) }
    {
        if -4096 <= value && value < 4096 && value.cast_unsigned() % 2 == 0 {
            Some(BranchOffset { number: value })
        } else {
            None
        }
    }

    #[inline]
    pub fn value(self) -> i32
        ensures value { result ≡ self }
        ensures in_range { IsBranchOffset result }
    {
        self.number
    }

    /// The distance, sign-extended to a word.
    #[inline]
    pub fn word(self) -> u32
        ensures value { result ≡ cast_unsigned w32 self }
        ensures in_range { IsBranchOffset self }
    {
        self.value().cast_unsigned()
    }
}
