//! Which numbers the field of an instruction takes.
#![tactic(auto, unfolding(asm_values::specs::Ranges::within, asm_values::specs::Ranges::up_to))]

ghost use Rattle.std.specs.Prelude.{◌≡◌, pos, negsuc};
ghost use Rattle.asm_values.specs.Ranges.{within, up_to};

use asm_lines::FaultKind;
use rv_isa::{FenceBits, Immediate, ShiftAmount, UpperImmediate};

/// A signed immediate of 12 bits.
pub(crate) fn immediate(number: i64) -> Result<Immediate, FaultKind>
    ensures { result ≡ within (negsuc 2047) (pos 2047) number }
{
    let number = i32::try_from(number).map_err(|_| FaultKind::Range)?;
    Immediate::new(number).ok_or(FaultKind::Range)
}

/// The immediate of `lui` and `auipc`.
pub(crate) fn upper_immediate(number: i64) -> Result<UpperImmediate, FaultKind>
    ensures { result ≡ up_to 0xFFFFF number }
{
    let number = u32::try_from(number).map_err(|_| FaultKind::Range)?;
    UpperImmediate::new(number).ok_or(FaultKind::Range)
}

/// How far a shift goes.
pub(crate) fn shift_amount(number: i64) -> Result<ShiftAmount, FaultKind>
    ensures { result ≡ up_to 31 number }
{
    let number = u8::try_from(number).map_err(|_| FaultKind::Range)?;
    ShiftAmount::new(number).ok_or(FaultKind::Range)
}

/// The bits of a fence.
pub(crate) fn fence_bits(number: i64) -> Result<FenceBits, FaultKind>
    ensures { result ≡ up_to 4095 number }
{
    let number = u16::try_from(number).map_err(|_| FaultKind::Range)?;
    FenceBits::new(number).ok_or(FaultKind::Range)
}
