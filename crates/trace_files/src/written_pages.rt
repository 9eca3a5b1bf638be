//! Lines at the front of a text that are as `policies trace` writes them.

ghost use Rattle.std.specs.Prelude.{◌≡◌, ◌<◌, ◌≤◌, ◌+◌, ◌++◌, ◌∷◌, ◌^◌, length, IfOk, IfSome, OnOk};
ghost use Rattle.std.specs.Fmt.{decimal};
ghost use Rattle.clock_policy.specs.Text.{key_text};
ghost use Rattle.trace_lines.specs.PageLines.{IsPage};
ghost use Rattle.trace_files.specs.WrittenPages.{AddsPages};

use clock_policy::Key;
use guest_strings::Reference;
use std::alloc::AllocError;

/// A number from here on may pass 32 bits with another digit.
const LONG: u32 = 400_000_000;

/// The value of a decimal digit.
#[inline(always)]
fn digit_in(byte: u8) -> Option<u32>
    ensures digit { IfSome result (λ digit. byte ≡ 48 + digit) }
    ensures small { IfSome result (λ digit. digit < 10) }
{
    if byte.is_ascii_digit() {
        Some(u32::from(byte - b'0'))
    } else {
        None
    }
}

/// The text after a byte, where that byte comes first.
#[inline(always)]
fn behind(text: &[u8], byte: u8) -> Option<&[u8]>
    ensures { IfSome result (λ rest. text.now ≡ byte ∷ rest.now) }
{
    let (first, rest) = text.split_first()?;
    if *first != byte {
        return None;
    }
    Some(rest)
}

/// A number with the digits that follow it, and the text after them. A digit that may pass 32 bits is left in that text.
#[inline(always)]
#[tactic(auto, using(crate::proofs::WrittenPagesLaws::digit_more))]
fn longer_number(number: u32, text: &[u8]) -> (u32, &[u8])
    requires { 0 < number }
    ensures { decimal number ++ text.now ≡ decimal result.0 ++ result.1.now }
{
    let mut longer = number;
    let mut rest = text;
    'digits: while let Some((byte, others)) = rest.split_first() {
        let Some(digit) = digit_in(*byte) else {
            return (longer, rest);
        };
        if longer >= LONG {
            return (longer, rest);
        }
        longer = 10 * longer + digit;
        rest = others;
    }
    (longer, rest)
}

/// The number whose decimal digits come first, and the text after it.
#[inline(always)]
#[tactic(auto, using(crate::proofs::WrittenPagesLaws::digit_alone))]
fn number_ahead(text: &[u8]) -> Option<(u32, &[u8])>
    ensures { IfSome result (λ found. text.now ≡ decimal found.0 ++ found.1.now) }
{
    let (first, rest) = text.split_first()?;
    let digit = digit_in(*first)?;
    if digit == 0 {
        return Some((0, rest));
    }
    Some(longer_number(digit, rest))
}

/// The page of the first line, and the text after that line.
#[inline(always)]
#[tactic(auto, using(crate::proofs::WrittenPagesLaws::page_before))]
fn page_ahead(text: &[u8]) -> Option<(Key, &[u8])>
    ensures text { IfSome result (λ found. text.now ≡ key_text found.0 ++ 10 ∷ found.1.now) }
    ensures page { IfSome result (λ found. IsPage found.0) }
{
    let (process, rest) = number_ahead(text)?;
    let rest = behind(rest, b'/')?;
    let (vpn, rest) = number_ahead(rest)?;
    let rest = behind(rest, b'\n')?;
    Some((Key { process, vpn }, rest))
}

/// Adds references to the pages of the first lines to a block, which then has so many at most. Returns the text after those lines.
#[tactic(auto, using(crate::proofs::WrittenPagesLaws::none_added, crate::proofs::WrittenPagesLaws::one_added))]
pub(crate) fn add_pages<'t>(
    text: &'t [u8],
    block: &mut Vec<Reference>,
    most: usize,
) -> Result<&'t [u8], AllocError>
    requires { length block.old.items ≤ most }
    ensures few { length block.new.items ≤ most }
    ensures added { IfOk result (λ rest. AddsPages text.now rest.now block.old.items
        block.new.items) }
{
    let mut rest = text;
    'lines: while block.len() < most {
        let Some((page, others)) = page_ahead(rest) else {
            return Ok(rest);
        };
        block.push(Reference {
            page,
            is_written: false,
        })?;
        rest = others;
    }
    Ok(rest)
}
