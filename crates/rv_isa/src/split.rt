//! A word in two parts: what `lui` and `addi` load.

ghost use Rattle.std.specs.Prelude.{◌≡◌};
ghost use Rattle.rv_isa.specs.Split.{low_part, high_part};

use crate::operands::{Immediate, UpperImmediate};

/// What `lui` puts into the upper bits of a register, to which `addi` adds [`low_part`].
#[tactic(auto, unfolding(crate::specs::Split::high_part))]
pub fn high_part(word: u32) -> UpperImmediate
    ensures { result ≡ high_part word }
{
    UpperImmediate::new(word.wrapping_add(2048) / 4096).unwrap()
}

/// The low twelve bits of a word, taken signed.
#[tactic(auto, using(crate::proofs::SplitLaws::low_part_small, crate::proofs::SplitLaws::low_part_large))]
pub fn low_part(word: u32) -> Immediate
    ensures { result ≡ low_part word }
{
    let bits = (word % 4096) as i32;
    if bits < 2048 {
        Immediate::new(bits).unwrap()
    } else {
        Immediate::new(bits - 4096).unwrap()
    }
}
