//! Where a page is counted.

ghost use Rattle.std.specs.Prelude.{◌≡◌, ◌≤◌, ◌<◌, ◌*◌};
ghost use Rattle.page_policies.specs.Spread.{spread};
ghost use Rattle.tiny_lfu.specs.Sketch.{first, second, third, fourth, place, places_of};
ghost use Rattle.tiny_lfu.specs.Sketch.{most_width};

use clock_policy::Key;
use page_policies::spread;

/// The multipliers by which the four rows spread pages: odd, with bits of no order.
const FIRST: u64 = 11400714819323198485;

const SECOND: u64 = 13787848793156543929;

const THIRD: u64 = 10723151780598845931;

const FOURTH: u64 = 14029467366897019727;

/// The places of a page's four counts, one in each row.
#[derive(Clone, Copy, Debug, PartialEq, Eq)]
pub(crate) struct Places {
    pub(crate) first: usize,
    pub(crate) second: usize,
    pub(crate) third: usize,
    pub(crate) fourth: usize,
}

/// The page's place in a row.
#[tactic(auto, unfolding(crate::specs::Sketch::place))]
fn place(width: usize, row: usize, multiplier: u64, page: Key) -> usize
    requires some { 1 ≤ width }
    requires most { width ≤ most_width }
    requires row { row < 4 }
    ensures place { result ≡ place width row multiplier page }
    ensures inside { result < 4 * width }
{
    row * width + (spread(multiplier, page) % width as u64) as usize
}

/// The page's places in rows of so many counts.
#[tactic(auto, unfolding(crate::specs::Sketch::places_of))]
pub(crate) fn places_of(width: usize, page: Key) -> Places
    requires some { 1 ≤ width }
    requires most { width ≤ most_width }
    ensures places { result ≡ places_of width page }
    ensures first { result.first < 4 * width }
    ensures second { result.second < 4 * width }
    ensures third { result.third < 4 * width }
    ensures fourth { result.fourth < 4 * width }
{
    Places {
        first: place(width, 0, FIRST, page),
        second: place(width, 1, SECOND, page),
        third: place(width, 2, THIRD, page),
        fourth: place(width, 3, FOURTH, page),
    }
}
