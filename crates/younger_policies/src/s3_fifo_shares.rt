//! How S3-FIFO divides its frames.

ghost use Rattle.std.specs.Prelude.{◌≡◌};
ghost use Rattle.younger_policies.specs.S3Fifo.{rooms_of};

use page_policies::Frames;

/// What becomes of the count of a page that goes from the small queue to the main one.
#[derive(Clone, Copy, Debug, PartialEq, Eq)]
pub enum MovedCount {
    Keep,
    Clear,
}

/// How many of a hundred frames S3-FIFO gives to the small queue, how many ghosts there are for a hundred frames of the main one, and
/// what becomes of the count of a page that goes there.
#[derive(Clone, Copy, Debug, PartialEq, Eq)]
pub struct S3FifoShares {
    pub small: u32,
    pub ghosts: u32,
    pub moved: MovedCount,
}

/// How many frames S3-FIFO has, the small queue's share in hundredths of a frame, how many frames the main queue has, how many ghosts
/// there are, and what becomes of a count.
#[derive(Clone, Copy, Debug, PartialEq, Eq)]
pub(crate) struct S3FifoRooms {
    pub(crate) frames: usize,
    pub(crate) hundredths: usize,
    pub(crate) main: usize,
    pub(crate) ghosts: usize,
    pub(crate) moved: MovedCount,
}

impl S3FifoShares {
    /// Those of its authors.
    pub const USUAL: S3FifoShares = S3FifoShares {
        small: 10,
        ghosts: 100,
        moved: MovedCount::Keep,
    };

    /// The least and the greatest that may be asked for.
    pub const SMALL: (u32, u32) = (1, 99);

    pub const GHOSTS: (u32, u32) = (0, 1000);

    /// Of so many frames, rounded down.
    pub(crate) fn rooms(self, frames: Frames) -> S3FifoRooms
        ensures { result ≡ rooms_of self frames.number }
    {
        let number = frames.number();
        let hundredths = number * self.small as usize;
        let main = number.saturating_sub((hundredths / 100).max(1));
        S3FifoRooms {
            frames: number,
            hundredths,
            main,
            ghosts: (main as u64 * u64::from(self.ghosts) / 100) as usize,
            moved: self.moved,
        }
    }
}
