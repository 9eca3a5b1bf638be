//! What may be asked of Linux's two lists.

ghost use Rattle.std.specs.Prelude.{◌≡◌, ◌≤◌, ◌<◌, ◌+◌, ◌*◌};
ghost use Rattle.kernel_policies.specs.TwoLists.{int_sqrt, ratio_of};

use page_policies::Frames;
use ticked_policies::Arrival;

/// How many pages of 4 KB a gigabyte has.
const GIGABYTE: usize = 262_144;

/// How many times as long the active list may be as the inactive one, and whether a page comes in as used.
#[derive(Clone, Copy, Debug, PartialEq, Eq)]
pub struct TwoListsParts {
    /// None: as Linux has it for so many frames.
    pub ratio: Option<u32>,
    pub arrival: Arrival,
}

impl TwoListsParts {
    pub const USUAL: TwoListsParts = TwoListsParts {
        ratio: None,
        arrival: Arrival::Marked,
    };

    /// The least and the greatest that may be asked for.
    pub const RATIO: (u32, u32) = (1, 1000);

    /// How many times as long the active list may be with so many frames.
    pub(crate) fn ratio(self, frames: Frames) -> usize
        ensures { result ≡ ratio_of self.ratio frames.number }
    {
        match self.ratio {
            Some(ratio) => ratio as usize,
            None => int_sqrt(10 * (frames.number() / GIGABYTE)).max(1),
        }
    }
}

/// The root, rounded down.
#[tactic(auto, using(crate::proofs::RootLaws::root_is))]
fn int_sqrt(number: usize) -> usize
    ensures { result ≡ int_sqrt number }
{
    number.isqrt()
}
