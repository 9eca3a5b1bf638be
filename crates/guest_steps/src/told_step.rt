//! The report of a step.

use page_memory::MemoryFault;
use rv_exec::Regs;

/// A step of a hart.
#[derive(Clone, Copy, Debug)]
pub struct ToldStep {
    pub hart: u32,
    /// Its registers before the step.
    pub before: Regs,
    /// What the fetch at its pc gave.
    pub word: Result<u32, MemoryFault>,
    /// Its registers after the step.
    pub after: Regs,
}
