//! What a step or a slice of a hart comes to, and why a slice stops.

ghost use Rattle.std.specs.Bool.{OnTrue, OnFalse};
ghost use Rattle.std.specs.Prelude.{◌≡◌, ◌≢◌};
ghost use Rattle.space_core.specs.Next.{progress_of_step, stop_after, stop_before};

use env_calls::{ServeStop, Stepped};

/// What became of a hart, and of its process, by one step.
#[derive(Clone, Copy, Debug, PartialEq, Eq)]
pub enum Progress {
    /// The hart goes on.
    GoesOn,
    /// The hart goes on, and lets others have their turn.
    Yielded,
    /// The hart goes on, and a new hart is started.
    Spawned,
    /// The hart is done; another hart of its process is live.
    HartDone,
    /// The process ended, itself or by a trap.
    Ended,
}

/// What a slice of a hart's time was: how many instructions ran, and why it stopped.
#[derive(Clone, Copy, Debug, PartialEq, Eq)]
pub struct Slice {
    pub ran: u32,
    pub stop: SliceStop,
}

/// How a hart's instructions went that ran one at a time.
#[derive(Clone, Copy, PartialEq, Eq, Debug)]
pub struct Steps {
    /// How many ran and passed on to the next one.
    pub ran: u32,
    /// The slice of one instruction after them, where there were fewer than were allowed.
    pub last: Option<Slice>,
}

/// Why a slice stops.
#[derive(Clone, Copy, Debug, PartialEq, Eq)]
pub enum SliceStop {
    /// All the instructions that it was allowed ran.
    Budget,
    /// The next instruction uses this page, by number, which has to be brought in first.
    Absent(u32),
    /// The last instruction lets other harts have their turn.
    Yield,
    /// The last instruction ended the hart.
    HartDone,
    /// The process has ended, by the last instruction or before.
    Ended,
    /// The process has no such live hart.
    NoHart,
    /// The schedule takes no more instructions of the hart.
    ScheduleFull,
    /// There is no memory for the next instruction's output or pages.
    NoMemory,
}

impl Progress {
    /// What a step came to.
    #[inline]
    pub(crate) fn of_step(stepped: &Stepped) -> Progress
        ensures { result ≡ progress_of_step stepped.now }
    {
        match stepped {
            Stepped::Ran => Progress::GoesOn,
            Stepped::Yielded => Progress::Yielded,
            Stepped::Spawned { .. } => Progress::Spawned,
            Stepped::HartDone => Progress::HartDone,
            Stepped::Exited(_) => Progress::Ended,
            Stepped::Trapped(..) => Progress::Ended,
        }
    }

    /// Why a slice of one instruction stops after it.
    pub(crate) fn stop(self) -> SliceStop
        ensures { result ≡ stop_after self }
    {
        match self {
            Progress::GoesOn => SliceStop::Budget,
            Progress::Spawned => SliceStop::Budget,
            Progress::Yielded => SliceStop::Yield,
            Progress::HartDone => SliceStop::HartDone,
            Progress::Ended => SliceStop::Ended,
        }
    }
}

impl SliceStop {
    /// Whether a slice of one instruction that stops so has run it, and the next one may follow.
    #[inline]
    pub(crate) fn goes_on(self) -> bool
        ensures on { OnTrue result (self ≡ SliceStop.Budget) }
        ensures off { OnFalse result (self ≢ SliceStop.Budget) }
    {
        matches!(self, SliceStop::Budget)
    }
}

/// Why a slice stops before a step that is not taken.
pub(crate) fn stop_before(stop: ServeStop) -> SliceStop
    ensures { result ≡ stop_before stop }
{
    match stop {
        ServeStop::Absent(page) => SliceStop::Absent(page),
        ServeStop::NoMemory => SliceStop::NoMemory,
    }
}
