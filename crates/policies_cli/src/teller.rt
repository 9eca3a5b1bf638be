//! The progress of a command, reported on standard error.

use miss_counts::{Stage, StageListener};
use std::io::Write;

/// A line that each stage writes anew, and that is erased at the end. What can't be written is left out.
#[derive(Drop)]
pub(crate) struct Teller<'e, E: Write> {
    err: &'e mut E,
    is_shown: bool,
}

/// How many references pass until the next report.
const STEP: u64 = 1 << 20;

impl<'e, E: Write> Teller<'e, E> {
    pub(crate) fn new(err: &'e mut E, is_shown: bool) -> Self {
        Teller { err, is_shown }
    }

    /// Erases the line.
    pub(crate) fn erase(&mut self) {
        if self.is_shown {
            let _ = write!(self.err, "\r\x1b[K");
            let _ = self.err.flush();
        }
    }
}

impl<'e, E: Write> StageListener for Teller<'e, E> {
    fn tell(&mut self, stage: Stage) {
        if !self.is_shown {
            return;
        }
        match stage {
            Stage::References(count) if count % STEP == 0 => {
                let _ = write!(self.err, "\r\x1b[K{count} references");
            }
            Stage::References(_) => return,
            Stage::Rows(done, all) => {
                let _ = write!(self.err, "\r\x1b[K{done} of {all} numbers of frames");
            }
        }
        let _ = self.err.flush();
    }
}
