/// How many points there may be at once: they are numbered from 0 on.
pub const MOST_POINTS: usize = 32;

/// How many bytes a watch may have.
pub const MOST_WATCHED: u32 = 16;

/// Where a debugger stops.
#[derive(Clone, Copy, Debug, PartialEq, Eq)]
pub enum Point {
    /// Before the instruction at an address, where the hart that has the turn is at this address.
    Break { address: u32 },
    /// After a step that changed the value of one of so many bytes from an address on.
    Watch { address: u32, length: u32 },
}

/// Why a debugger stopped, in the order in which it is tested.
#[derive(Clone, Copy, Debug, PartialEq, Eq)]
pub enum Why {
    /// The process has ended.
    Ended,
    /// The last step changed a byte of the watch with this number.
    Watch(u32),
    /// The only hart that runs has ended.
    Gone,
    /// The hart that has the turn is at the break with this number.
    Break(u32),
    /// As many steps were done as were allowed.
    Limit,
    /// A page that the next step needs, or a byte that is watched, could not be had.
    Absent,
}

/// What has come of one step.
#[derive(Clone, Copy, Debug, PartialEq, Eq)]
pub enum DebugStep {
    Ran,
    /// A page that it needs could not be had; it was not taken.
    Absent,
}
