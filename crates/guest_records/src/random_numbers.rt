//! Numbers of a generator.

ghost use Rattle.std.specs.Prelude.{◌≤◌, ◌<◌};

use rand_core::utils::NextWord;
use rand_pcg::Pcg32;

/// A number below another, or 0 where there is none.
pub(crate) fn below(word: u32, most: u32) -> u32
    ensures { 0 < most → result < most }
{
    if most == 0 { 0 } else { word % most }
}

/// A number below another of 64 bits, or 0 where there is none.
pub(crate) fn long_below(generator: &mut Pcg32, most: u64) -> u64
    ensures { 0 < most → result < most }
{
    let high = u64::from(generator.next_word());
    let low = u64::from(generator.next_word());
    let word = high * 4_294_967_296 + low;
    if most == 0 { 0 } else { word % most }
}
