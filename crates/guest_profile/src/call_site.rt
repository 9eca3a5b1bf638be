//! Calls.

use crate::sums::Sums;

/// A step as a jump: where it is, where its hart goes on, the hart's stack pointer (x2) then, and what the step does, in numbers.
#[derive(Clone, Copy, Debug)]
pub(crate) struct Jump {
    pub(crate) site: u32,
    pub(crate) target: u32,
    pub(crate) sp: u32,
    pub(crate) step: Sums,
}

/// A place that calls, what it calls, and at which levels. A call is of level 2 where its hart has a pending call of the same callee, else
/// of level 1.
#[derive(Clone, Copy, Debug, PartialEq, Eq, PartialOrd, Ord, Hash)]
pub struct CallSite {
    pub site: u32,
    pub callee: u32,
    /// Of the last call that was pending before it; 1 where none was.
    pub from_level: u32,
    pub level: u32,
}

/// How often a place called, and what its harts did until the returns.
#[derive(Clone, Copy, Debug, PartialEq, Eq)]
pub struct CallCount {
    pub times: u64,
    /// The steps of a call within a call of level 2 to the same callee count there.
    pub inside: Sums,
}
