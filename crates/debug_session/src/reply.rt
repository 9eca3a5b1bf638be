//! The replies of a debugger, before they become text.

use debug_core::{DebugRefusal, DebugStep, Why};
use flat_machine::End;
use rv_exec::Regs;

/// What a debugger replies.
#[derive(Drop)]
pub enum DebugReply {
    /// A point was added under this number.
    Point(u32),
    /// A point was removed.
    Removed,
    /// What came of one step.
    Stepped(DebugStep),
    /// Why it stopped, whose turn it is, and after how many steps.
    Stopped {
        why: Why,
        turn: u32,
        steps: u64,
    },
    /// The same, with the hart of the last step.
    Told {
        why: Why,
        last: u32,
        turn: u32,
        steps: u64,
    },
    /// How the process ended, if it did.
    Ending(Option<End>),
    /// Whether a hart is live.
    Live(bool),
    Registers(Regs),
    Bytes(Vec<u8>),
    Refused(DebugRefusal),
}
