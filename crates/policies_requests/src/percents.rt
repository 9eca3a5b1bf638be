//! Parts of a string's pages.

use miss_counts::FootprintPart;
use text_lines::numeral;

/// How many millionths a hundredth is.
const HUNDREDTH: u32 = 10_000;

/// A percentage above 0 and up to 100, with four places after its point at most: `10%`, `0.1%`.
pub(crate) fn part_in(word: &str) -> Option<FootprintPart> {
    let number = word.strip_suffix('%')?;
    let millionths = match number.split_once('.') {
        None => hundredths(number)?,
        Some((whole, places)) => hundredths(whole)?.checked_add(rest(places)?)?,
    };
    if millionths == 0 || millionths > 100 * HUNDREDTH {
        return None;
    }
    Some(FootprintPart { millionths })
}

fn hundredths(number: &str) -> Option<u32> {
    numeral(number.as_bytes(), 10, 100)?.checked_mul(HUNDREDTH)
}

/// The digits after the point, in millionths.
fn rest(places: &str) -> Option<u32> {
    let unit = match places.len() {
        1 => 1000,
        2 => 100,
        3 => 10,
        4 => 1,
        _ => return None,
    };
    numeral(places.as_bytes(), 10, 9999)?.checked_mul(unit)
}
