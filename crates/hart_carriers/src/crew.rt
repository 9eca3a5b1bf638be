//! Who carries the harts of a machine.

ghost use Rattle.std.specs.Prelude.{◌≡◌};

use std::thread::Promise;

/// By what a worker carries harts: it is one of so many, which the harts fall to in turn, and gives each slices of so many instructions.
#[derive(Clone, Copy, Debug, PartialEq, Eq)]
pub struct Shift {
    pub worker: u32,
    pub workers: u32,
    pub slice: u32,
}

/// That a worker's thread carries by this shift.
#[derive(Clone, Copy)]
pub(crate) struct Carries(pub(crate) Shift);

impl Promise<Shift> for Carries {
    ghost kept_by = { λ promise shift. shift ≡ promise.0 };
}

/// That the daemon's thread writes changed pages ahead, or does not.
#[derive(Clone, Copy)]
pub(crate) struct Writes(pub(crate) bool);

impl Promise<bool> for Writes {
    ghost kept_by = { λ promise ahead. ahead ≡ promise.0 };
}

/// By whom a machine is to be run.
#[derive(Clone, Copy, Debug, PartialEq, Eq)]
pub struct CrewRequest {
    /// How many workers carry the harts.
    pub workers: u32,
    /// Of how many instructions, at most, a slice is that they give.
    pub slice: u32,
    /// Whether the daemon writes changed pages ahead, so that they can leave their frames with no save.
    pub ahead: bool,
}

/// The threads that were started to run a machine.
#[derive(Clone, Copy, Debug, PartialEq, Eq)]
pub struct Crew {
    /// How many workers were started.
    pub workers: u32,
    /// Of how many instructions, at most, a slice is that they give.
    pub slice: u32,
    /// Whether the daemon writes changed pages ahead.
    pub ahead: bool,
    /// Whether the daemon and each worker that was wanted could be started. Where one could not, each process that went on was killed for
    /// want of memory.
    pub is_whole: bool,
}
