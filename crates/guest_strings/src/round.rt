//! Processes side by side, which run by slices.

ghost use Rattle.std.specs.Prelude.{◌≤◌, ◌<◌, length};
ghost use Rattle.machine_limits.specs.Limits.{most_processes};
ghost use Rattle.guest_strings.specs.Slices.{most_places, place_of};

use crate::access_kinds::AccessKinds;
use crate::turns::Turn;
use flat_machine::FlatProcess;

/// Processes, and whose turn it is.
#[derive(Drop)]
pub(crate) struct Round {
    pub(crate) processes: Vec<FlatProcess>,
    pub(crate) turn: Option<Turn>,
    /// What is kept of what they refer to.
    pub(crate) accesses: AccessKinds,
    /// How many instructions a slice has.
    pub(crate) slice: u32,
    /// How many more instructions may run.
    pub(crate) left: u64,
    ghost few: { length processes.items ≤ most_processes },
    ghost there: { place_of turn < most_places },
}
