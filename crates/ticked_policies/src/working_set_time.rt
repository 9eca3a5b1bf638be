//! WSClock's working set.

/// How old a use is that is in the working set.
#[derive(Clone, Copy, Debug, PartialEq, Eq)]
pub struct WorkingSetTime {
    /// So many references at most; None: twice as many as there are frames.
    pub tau: Option<u32>,
}

impl WorkingSetTime {
    pub const USUAL: WorkingSetTime = WorkingSetTime { tau: None };

    /// The least and the greatest that may be asked for.
    pub const TAU: (u32, u32) = (1, u32::MAX);
}
