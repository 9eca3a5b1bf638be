//! Numbers as users write them.

ghost use Rattle.std.specs.Prelude.{◌≡◌, ◌≤◌, ◌<◌, ◌+◌, ◌*◌, ◌^◌, length};
ghost use Rattle.std.specs.Option.{SomeIff};
ghost use Rattle.std.specs.Str.Parse.{IsNumeral, digits_value};
ghost use Rattle.text_lines.specs.Numbers.{IsUpTo, IsNumber, number_value};

/// The number that digits write in a radix, where there is nothing but digits and it is at most `most`.
/// No sign may stand before it.
#[tactic(auto, using(crate::proofs::Digits::digits_grow))]
pub fn numeral(text: &[u8], radix: u32, most: u32) -> Option<u32>
    requires least { 2 ≤ radix }
    requires greatest { radix ≤ 36 }
    ensures { SomeIff result (IsUpTo most radix text.now) (digits_value radix text.now) }
{
    if text.is_empty() {
        return None;
    }
    let mut value = 0u32;
    let mut rest = text;
    while let Some((first, others)) = rest.split_first() {
        let digit = char::from(*first).to_digit(radix)?;
        let next = u64::from(value) * u64::from(radix) + u64::from(digit);
        if next > u64::from(most) {
            return None;
        }
        value = next as u32;
        rest = others;
    }
    Some(value)
}

/// The number that a word of a script writes, in hexadecimal after `0x` and else in decimal.
pub fn number(text: &[u8], most: u32) -> Option<u32>
    ensures { SomeIff result (IsNumber most text.now) (number_value text.now) }
{
    if text.starts_with(b"0x".as_slice()) {
        numeral(&text[2..], 16, most)
    } else {
        numeral(text, 10, most)
    }
}

/// The number that a word writes, of 32 bits.
pub fn word_number(word: &[u8]) -> Option<u32>
    ensures { SomeIff result (IsNumber 4294967295 word.now) (number_value word.now) }
{
    number(word, u32::MAX)
}
