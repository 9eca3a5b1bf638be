//! How LIRS divides its frames.

ghost use Rattle.std.specs.Prelude.{◌≡◌};
ghost use Rattle.younger_policies.specs.Lirs.{most_stack, rooms_of};

use page_policies::Frames;

/// How many of a hundred frames LIRS gives to pages that are not to stay, how many at least, and how many pages its stack has at most for
/// a hundred frames, if it has a bound.
#[derive(Clone, Copy, Debug, PartialEq, Eq)]
pub struct LirsShares {
    pub hirs: u32,
    pub floor: u32,
    pub stack: Option<u32>,
}

/// How many frames LIRS has, how many of them pages that stay have at most, and how many pages are in the stack at most.
#[derive(Clone, Copy, Debug, PartialEq, Eq)]
pub(crate) struct LirsRooms {
    pub(crate) frames: usize,
    pub(crate) most_lir: usize,
    pub(crate) most_stack: Option<usize>,
}

impl LirsShares {
    /// What its authors write of.
    pub const USUAL: LirsShares = LirsShares {
        hirs: 1,
        floor: 1,
        stack: None,
    };

    /// The least and the greatest that may be asked for.
    pub const HIRS: (u32, u32) = (0, 99);

    pub const FLOOR: (u32, u32) = (1, 1000);

    /// The bound is not below the frames, so that only pages in no frame have to leave the stack for it.
    pub const STACK: (u32, u32) = (100, 100_000);

    /// Of so many frames, rounded down.
    pub(crate) fn rooms(self, frames: Frames) -> LirsRooms
        ensures { result ≡ rooms_of self frames.number }
    {
        let number = frames.number();
        let hirs = (number * self.hirs as usize / 100).max(self.floor as usize);
        LirsRooms {
            frames: number,
            most_lir: number.saturating_sub(hirs),
            most_stack: most_stack(self.stack, frames),
        }
    }
}

/// So many hundredths of the frames, rounded down, if there is a bound.
fn most_stack(hundredths: Option<u32>, frames: Frames) -> Option<usize>
    ensures { result ≡ most_stack hundredths frames.number }
{
    match hundredths {
        Some(hundredths) => {
            let most = frames.number() as u64 * u64::from(hundredths) / 100;
            Some(most.min(usize::MAX as u64) as usize)
        }
        None => None,
    }
}
