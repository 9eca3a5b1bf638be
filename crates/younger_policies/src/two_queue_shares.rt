//! How 2Q divides its frames.

ghost use Rattle.std.specs.Prelude.{◌≡◌};
ghost use Rattle.younger_policies.specs.TwoQueues.{rooms_of};

use page_policies::Frames;

/// How many of a hundred frames 2Q gives to the queue of new pages, and for how many of a hundred it remembers a page that left.
#[derive(Clone, Copy, Debug, PartialEq, Eq)]
pub struct TwoQueueShares {
    pub kin: u32,
    pub kout: u32,
}

/// How many frames 2Q has, how many of them the queue of new pages may keep, and how many pages that left are remembered.
#[derive(Clone, Copy, Debug, PartialEq, Eq)]
pub(crate) struct TwoQueueRooms {
    pub(crate) frames: usize,
    pub(crate) kin: usize,
    pub(crate) kout: usize,
}

impl TwoQueueShares {
    /// What its authors advise for strings that are not known.
    pub const USUAL: TwoQueueShares = TwoQueueShares { kin: 25, kout: 50 };

    /// The least and the greatest that may be asked for.
    pub const KIN: (u32, u32) = (0, 99);

    pub const KOUT: (u32, u32) = (0, 1000);

    /// Of so many frames, rounded down.
    pub(crate) fn rooms(self, frames: Frames) -> TwoQueueRooms
        ensures { result ≡ rooms_of self frames.number }
    {
        let number = frames.number();
        TwoQueueRooms {
            frames: number,
            kin: number * self.kin as usize / 100,
            kout: (number as u64 * u64::from(self.kout) / 100) as usize,
        }
    }
}
