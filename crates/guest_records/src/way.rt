//! How the turns of a run are chosen.

/// How the turns of a run are chosen.
#[derive(Clone, Copy, Debug, PartialEq, Eq)]
pub enum Way {
    /// Each turn is of any live hart, and of 1 to 1000 instructions, of each magnitude as often.
    Turns,
    /// The live hart of the highest priority runs. Priorities change at so many steps, one fewer than the depth, of a run that is expected to
    /// have so many steps. A hart that took as many steps in a row as the patience says is taken to wait.
    Priorities {
        depth: u32,
        steps: u64,
        patience: u64,
    },
}
