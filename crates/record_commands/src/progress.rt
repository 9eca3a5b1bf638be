//! What runs are like, and how many are done, on lines of a terminal.

use guest_records::RunSize;
use std::io::Write;

/// The line is written again after every so many runs.
const OFTEN: u32 = 16;

/// Shows how many runs are done and how many rows these came to, now and then. Where that can't be written, nothing is lost.
pub(crate) fn show_progress<E: Write>(done: u32, runs: u32, rows: usize, err: &mut E) {
    if done % OFTEN == 0 {
        let _ = write!(err, "\r{done} of {runs} runs, {rows} rows");
        let _ = err.flush();
    }
}

/// Takes the line away.
pub(crate) fn end_progress<E: Write>(err: &mut E) {
    let _ = write!(err, "\r\x1b[K");
    let _ = err.flush();
}

/// Shows what runs are taken to be like.
pub(crate) fn show_size<E: Write>(size: RunSize, patience: u64, err: &mut E) {
    let (harts, steps) = (size.harts, size.steps);
    let found = if size.has_ended {
        "of a run that ended"
    } else {
        "then nothing new came"
    };
    let _ = writeln!(
        err,
        "guest: {harts} harts; k {steps}, {found}; a hart waits after {patience} steps in a row",
    );
    let _ = err.flush();
}
