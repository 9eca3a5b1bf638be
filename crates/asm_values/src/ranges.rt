//! Which numbers words, half words, bytes and counts take.
#![tactic(auto, unfolding(crate::specs::Ranges::up_to, crate::specs::Ranges::bits_within))]

ghost use Rattle.std.specs.Prelude.{◌≡◌, negsuc};
ghost use Rattle.std.specs.Int.{w8, w16, w32};
ghost use Rattle.asm_values.specs.Ranges.{up_to, bits_within};

use asm_lines::FaultKind;

/// A word: a negative number stands for itself in two's complement.
pub fn word(number: i64) -> Result<u32, FaultKind>
    ensures { result ≡ bits_within w32 (negsuc 0x7FFF_FFFF) 0xFFFF_FFFF number }
{
    if let Ok(word) = u32::try_from(number) {
        return Ok(word);
    }
    let negative = i32::try_from(number).map_err(|_| FaultKind::Range)?;
    Ok(negative.cast_unsigned())
}

/// Two bytes, as a word is read.
pub(crate) fn half(number: i64) -> Result<u16, FaultKind>
    ensures { result ≡ bits_within w16 (negsuc 0x7FFF) 0xFFFF number }
{
    if let Ok(half) = u16::try_from(number) {
        return Ok(half);
    }
    let negative = i16::try_from(number).map_err(|_| FaultKind::Range)?;
    Ok(negative.cast_unsigned())
}

/// A byte, as a word is read.
pub(crate) fn byte(number: i64) -> Result<u8, FaultKind>
    ensures { result ≡ bits_within w8 (negsuc 0x7F) 0xFF number }
{
    if let Ok(byte) = u8::try_from(number) {
        return Ok(byte);
    }
    let negative = i8::try_from(number).map_err(|_| FaultKind::Range)?;
    Ok(negative.cast_unsigned())
}

/// How many zero bytes a statement may ask for.
pub(crate) fn zero_count(number: i64) -> Result<u32, FaultKind>
    ensures { result ≡ up_to 65536 number }
{
    let number = u32::try_from(number).map_err(|_| FaultKind::Range)?;
    if number <= 65536 {
        Ok(number)
    } else {
        Err(FaultKind::Range)
    }
}
