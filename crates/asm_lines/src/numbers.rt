//! Numbers as they are written.

ghost use Rattle.std.specs.Prelude.{◌≡◌, ◌≤◌, option_map, pos, neg_ℤ, IfSome};
ghost use Rattle.asm_lines.specs.Numbers.{saturating_numeral, number_of, too_large};

/// A number that no field holds: each number from here on stands as this one.
const TOO_LARGE: u64 = 0x100_0000_0000;

/// The number that a word writes: hexadecimal behind `0x`, and else decimal, where a minus may stand first.
#[tactic(auto, unfolding(crate::specs::Numbers::number_of))]
pub fn number(word: &[u8]) -> Option<i64>
    ensures { result ≡ number_of word.now }
{
    if word.starts_with(b"0x".as_slice()) {
        positive(&word[2..], 16)
    } else if word.starts_with(b"-".as_slice()) {
        negative(&word[1..])
    } else {
        positive(word, 10)
    }
}

/// What digits write in a radix.
fn positive(digits: &[u8], radix: u32) -> Option<i64>
    requires least { 2 ≤ radix }
    requires greatest { radix ≤ 36 }
    ensures { result ≡ option_map pos (saturating_numeral radix digits.now) }
{
    let size = saturating_numeral(digits, radix)?;
    Some(size as i64)
}

/// What decimal digits write behind a minus.
fn negative(digits: &[u8]) -> Option<i64>
    ensures { result ≡ option_map (λ size. neg_ℤ (pos size)) (saturating_numeral 10 digits.now) }
{
    let size = saturating_numeral(digits, 10)?;
    Some(-(size as i64))
}

/// What one digit or more write in a radix, where nothing else stands there: their value, or [`TOO_LARGE`] past it.
#[tactic(auto, using(crate::proofs::Numerals::numeral_goes_on, crate::proofs::Numerals::numeral_stops), unfolding(crate::specs::Numbers::saturating_numeral))]
fn saturating_numeral(digits: &[u8], radix: u32) -> Option<u64>
    requires least { 2 ≤ radix }
    requires greatest { radix ≤ 36 }
    ensures value { result ≡ saturating_numeral radix digits.now }
    ensures small { IfSome result (λ size. size ≤ too_large) }
{
    if digits.is_empty() {
        return None;
    }
    let mut value = 0u64;
    let mut rest = digits;
    while let Some((first, others)) = rest.split_first() {
        let digit = char::from(*first).to_digit(radix)?;
        value = (value * u64::from(radix) + u64::from(digit)).min(TOO_LARGE);
        rest = others;
    }
    Some(value)
}
