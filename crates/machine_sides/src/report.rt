//! What a machine has come to.

use flat_machine::{End, Turn};

/// What a process has come to.
#[derive(Drop)]
pub struct ProcessReport {
    /// What it wrote, in bytes.
    pub output: Vec<u8>,
    /// How it ended, if it did.
    pub end: Option<End>,
    /// How many instructions ran.
    pub steps: u64,
    /// Whose turn each of them was, first to last.
    pub turns: Vec<Turn>,
}

/// What a machine has come to. Each count stays at its type's largest number.
#[derive(Drop)]
pub struct Report {
    /// By the processes' numbers.
    pub processes: Vec<ProcessReport>,
    /// How many frames the machine has.
    pub frames: u32,
    /// Pages that were admitted to a frame.
    pub page_ins: u64,
    /// Pages that were named to leave their frames.
    pub victims: u64,
    /// Pages whose frame was freed once they were saved.
    pub saves: u64,
    /// Unchanged pages whose frame was freed with no save.
    pub drops: u64,
    /// Questions of the list that were answered.
    pub questions: u64,
    /// Whether an audit found nothing amiss: the list's resident entries are the resident pages, and no frame is lost.
    pub audit: bool,
}
