//! When ticks come.

/// NRU's ticks.
#[derive(Clone, Copy, Debug, PartialEq, Eq)]
pub struct NruTicks {
    /// A tick comes after so many references; None: after as many as there are frames.
    pub every: Option<u32>,
}

impl NruTicks {
    pub const USUAL: NruTicks = NruTicks { every: None };

    /// The least and the greatest that may be asked for.
    pub const EVERY: (u32, u32) = (1, u32::MAX);
}

/// Aging's ticks, and how many bits its counters have.
#[derive(Clone, Copy, Debug, PartialEq, Eq)]
pub struct AgingTicks {
    /// A tick comes after so many references; None: after as many as there are frames.
    pub every: Option<u32>,
    pub bits: u32,
}

impl AgingTicks {
    pub const USUAL: AgingTicks = AgingTicks {
        every: None,
        bits: 8,
    };

    pub const BITS: (u32, u32) = (1, 32);
}
