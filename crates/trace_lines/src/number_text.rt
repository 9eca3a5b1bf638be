//! The numbers of ids, of addresses and of sizes.

ghost use Rattle.std.specs.Prelude.{◌≡◌, ◌≤◌, ◌<◌, ◌^◌};
ghost use Rattle.std.specs.Option.{SomeIff};
ghost use Rattle.std.specs.Str.Parse.{IsNumeral, digits_value};
ghost use Rattle.trace_lines.specs.Ids.{id_in, id_to};

/// The number that decimal digits write, or after `0x` hexadecimal ones, where it is below 2^64.
#[tactic(auto, unfolding(crate::specs::Ids::written_below))]
pub(crate) fn id_in(number: &[u8]) -> Option<u64>
    ensures { result ≡ id_in number.now }
{
    if number.starts_with(b"0x".as_slice()) {
        id_to(&number[2..], 16)
    } else {
        id_to(number, 10)
    }
}

/// The number below 2^64 that digits write.
#[tactic(auto, using(crate::proofs::IdLaws::number_told))]
pub(crate) fn id_to(digits: &[u8], radix: u32) -> Option<u64>
    requires least { 2 ≤ radix }
    requires most { radix ≤ 36 }
    ensures { result ≡ id_to radix digits.now }
{
    numeral(digits, radix)
}

/// The number below 2^64 that digits write, where there is nothing but digits, and one at least.
#[tactic(auto, using(crate::proofs::Digits::digits_grow))]
fn numeral(digits: &[u8], radix: u32) -> Option<u64>
    requires least { 2 ≤ radix }
    requires most { radix ≤ 36 }
    ensures { SomeIff result (IsNumeral radix digits.now × (digits_value radix digits.now < 2 ^ 64))
        (digits_value radix digits.now) }
{
    if digits.is_empty() {
        return None;
    }
    let mut id = 0u64;
    let mut rest = digits;
    while let Some((first, others)) = rest.split_first() {
        let digit = char::from(*first).to_digit(radix)?;
        id = id
            .checked_mul(u64::from(radix))?
            .checked_add(u64::from(digit))?;
        rest = others;
    }
    Some(id)
}
