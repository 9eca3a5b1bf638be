//! What becomes of an instruction: it is done, calls, traps, or uses an absent page.

use crate::cause::Cause;

/// What became of a hart's next instruction.
#[derive(Clone, Copy, Debug, PartialEq, Eq)]
pub enum Outcome {
    /// It was done.
    Done,
    /// It is ECALL: the environment is to serve it. Nothing has changed.
    Ecall,
    /// It traps, with its cause and trap value. Nothing has changed.
    Trap(Cause, u32),
    /// A page that it uses, by number, is absent. Nothing has changed.
    Absent(u32),
}
