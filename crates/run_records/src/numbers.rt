//! The words of a line: numbers, and the text after a name.

ghost use Rattle.std.specs.Prelude.{◌≡◌, ◌≤◌, ◌<◌, ◌^◌, Some, None, MatchOption, IfSome, position};
ghost use Rattle.std.specs.Option.{SomeIff};
ghost use Rattle.std.specs.Str.Parse.{IsNumeral, digits_value};
ghost use Rattle.run_records.specs.Words.{cut, is_space, is_padded, number_of, numeral_of, word_of};
ghost use Rattle.run_records.specs.RecordLines.{after_word};

/// The part of a text before its first space, and the part after it.
#[tactic(auto, using(crate::proofs::Cuts::cut_found, crate::proofs::Cuts::cut_missing))]
pub(crate) fn cut(text: &[u8]) -> Option<(&[u8], &[u8])>
    ensures { MatchOption result (cut text.now ≡ None) (λ parts. cut text.now ≡
        Some (parts.0.now, parts.1.now)) }
{
    match space(text) {
        Some(place) => Some((&text[..place], &text[place + 1..])),
        None => None,
    }
}

/// Where the first space is.
fn space(text: &[u8]) -> Option<usize>
    ensures { result ≡ position is_space text.now }
{
    text.iter().position(|byte| *byte == b' ')
}

/// The text after a name and a space.
#[tactic(auto, unfolding(crate::specs::RecordLines::after_word))]
pub(crate) fn after_word<'a>(name: &[u8], line: &'a [u8]) -> Option<&'a [u8]>
    ensures { MatchOption result (after_word name.now line.now ≡ None) (λ rest. after_word name.now
        line.now ≡ Some rest.now) }
{
    let (word, rest) = cut(line)?;
    if word == name { Some(rest) } else { None }
}

/// The number that decimal digits write, with no zero in front of others, where it is not above the most.
#[tactic(auto, unfolding(crate::specs::Words::number_of))]
pub(crate) fn number_in(text: &[u8], most: u64) -> Option<u64>
    ensures number { result ≡ number_of most text.now }
    ensures within { IfSome result (λ number. number ≤ most) }
{
    if is_padded(text) {
        return None;
    }
    match numeral_in(text) {
        Some(number) if number <= most => Some(number),
        _ => None,
    }
}

/// A number of 32 bits.
pub(crate) fn word_in(text: &[u8]) -> Option<u32>
    ensures { result ≡ word_of text.now }
{
    match number_in(text, 4_294_967_295) {
        Some(number) => Some(number as u32),
        None => None,
    }
}

/// Whether a zero precedes something else.
fn is_padded(text: &[u8]) -> bool
    ensures { result ≡ is_padded text.now }
{
    text.len() > 1 && text[0] == b'0'
}

/// The number of 64 bits that decimal digits write.
#[tactic(auto, using(crate::proofs::WordLaws::number_told))]
fn numeral_in(digits: &[u8]) -> Option<u64>
    ensures { result ≡ numeral_of digits.now }
{
    numeral(digits)
}

/// The number below 2^64 that digits write, where there is nothing but digits, and one at least.
#[tactic(auto, using(crate::proofs::WordLaws::digits_grow))]
fn numeral(digits: &[u8]) -> Option<u64>
    ensures { SomeIff result (IsNumeral 10 digits.now × (digits_value 10 digits.now < 2 ^ 64))
        (digits_value 10 digits.now) }
{
    if digits.is_empty() {
        return None;
    }
    let mut number = 0u64;
    let mut rest = digits;
    while let Some((first, others)) = rest.split_first() {
        let digit = char::from(*first).to_digit(10)?;
        number = number.checked_mul(10)?.checked_add(u64::from(digit))?;
        rest = others;
    }
    Some(number)
}
