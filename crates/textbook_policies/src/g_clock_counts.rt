//! The counts of generalized CLOCK.

/// The most that a page's count may be, and its first.
#[derive(Clone, Copy, Debug, PartialEq, Eq)]
pub struct GClockCounts {
    pub most: u32,
    pub first: u32,
}

impl GClockCounts {
    /// Two bits, and a page comes in as used.
    pub const USUAL: GClockCounts = GClockCounts { most: 3, first: 1 };

    /// The least and the greatest that may be asked for.
    pub const MOST: (u32, u32) = (1, 255);

    pub const FIRST: (u32, u32) = (0, 255);
}
