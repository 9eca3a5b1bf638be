//! The fields of an instruction word: opcode, funct3, funct7, registers, and the immediates of the formats.

ghost use Rattle.std.specs.Prelude.{◌≡◌, pos, ◌-ℤ◌, ◌+◌, ◌-◌, ◌*◌, ◌^◌, ◌<◌, ◌≤◌};
ghost use Rattle.rv_isa.specs.Bits.{bits, signed};
ghost use Rattle.rv_isa.specs.Table.{i_immediate, s_immediate, b_immediate, u_immediate, j_immediate};

use super::operands::{
    BranchOffset, FenceBits, Immediate, JumpOffset, Reg, ShiftAmount, UpperImmediate,
};

/// Bits `high` to `low` of a word, as a number.
#[inline(always)]
#[tactic(auto, using(crate::proofs::BitsLaws::bits_field), unfolding(crate::specs::Bits::bits))]
pub(crate) fn field(word: u32, high: u32, low: u32) -> u32
    requires order { low ≤ high }
    requires within { high < 32 }
    requires part { high < low + 31 }
    ensures value { result ≡ bits word high low }
    ensures below { result < 2 ^ (high + 1 - low) }
{
    (word >> low) % (1 << (high + 1 - low))
}

/// Bits 6 to 0: which group of instructions a word belongs to.
#[inline(always)]
pub fn opcode(word: u32) -> u32
    ensures { result ≡ bits word 6 0 }
{
    field(word, 6, 0)
}

/// Bits 14 to 12: which instructions of its opcode.
#[inline(always)]
pub fn funct3(word: u32) -> u32
    ensures { result ≡ bits word 14 12 }
{
    field(word, 14, 12)
}

/// Bits 31 to 25: which of these, where they have no immediate.
#[inline(always)]
pub fn funct7(word: u32) -> u32
    ensures { result ≡ bits word 31 25 }
{
    field(word, 31, 25)
}

/// The register in bits 11 to 7.
#[inline(always)]
pub fn rd(word: u32) -> Reg
    ensures { result ≡ bits word 11 7 }
{
    Reg::from_index(field(word, 11, 7) as u8)
}

/// The register in bits 19 to 15.
#[inline(always)]
pub fn rs1(word: u32) -> Reg
    ensures { result ≡ bits word 19 15 }
{
    Reg::from_index(field(word, 19, 15) as u8)
}

/// The register in bits 24 to 20.
#[inline(always)]
pub fn rs2(word: u32) -> Reg
    ensures { result ≡ bits word 24 20 }
{
    Reg::from_index(field(word, 24, 20) as u8)
}

/// The shift amount in bits 24 to 20.
#[inline(always)]
pub fn shift_amount(word: u32) -> ShiftAmount
    ensures { result ≡ bits word 24 20 }
{
    ShiftAmount::from_value(field(word, 24, 20) as u8)
}

/// The immediate of the I format.
#[inline(always)]
pub fn immediate(word: u32) -> Immediate
    ensures { result ≡ i_immediate word }
{
    Immediate::from_value(word.cast_signed() >> 20)
}

/// The word's upper seven bits, as a signed number.
#[inline(always)]
fn signed_funct7(word: u32) -> i32
    ensures { result ≡ signed 7 (bits word 31 25) }
{
    word.cast_signed() >> 25
}

/// The immediate of the S format.
#[inline(always)]
pub fn store_immediate(word: u32) -> Immediate
    ensures { result ≡ s_immediate word }
{
    Immediate::from_value(signed_funct7(word) * 0x20 + field(word, 11, 7).cast_signed())
}

/// The bits of a fence.
#[inline(always)]
pub(crate) fn fence_bits(word: u32) -> FenceBits
    ensures { result ≡ bits word 31 20 }
{
    FenceBits::from_value(field(word, 31, 20) as u16)
}

/// The immediate of the U format.
#[inline(always)]
pub fn upper_immediate(word: u32) -> UpperImmediate
    ensures { result ≡ u_immediate word }
{
    UpperImmediate::from_value(field(word, 31, 12))
}

/// -1 or 0, by the word's sign bit.
#[inline(always)]
fn sign(word: u32) -> i32
    ensures value { result ≡ pos 0 -ℤ pos (bits word 31 31) }
    ensures bit { bits word 31 31 < 2 }
{
    word.cast_signed() >> 31
}

/// The distance of the B format.
#[inline(always)]
pub fn branch_offset(word: u32) -> BranchOffset
    ensures { result ≡ b_immediate word }
{
    let low = field(word, 7, 7) * 0x800 + field(word, 30, 25) * 0x20 + field(word, 11, 8) * 2;
    BranchOffset::from_value(sign(word) * 0x1000 + low.cast_signed())
}

/// The distance of the J format.
#[inline(always)]
pub fn jump_offset(word: u32) -> JumpOffset
    ensures { result ≡ j_immediate word }
{
    let low = field(word, 19, 12) * 0x1000 + field(word, 20, 20) * 0x800 + field(word, 30, 21) * 2;
    JumpOffset::from_value(sign(word) * 0x10_0000 + low.cast_signed())
}
