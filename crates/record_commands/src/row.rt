//! What runs came to, and how many of them.

ghost use Rattle.std.specs.Prelude.{◌≡◌, ◌↔◌, IsTrue};
ghost use Rattle.record_commands.specs.Rows.{IsLike, row_of};

use flat_machine::End;
use run_records::{Closing, Fingerprint};

/// How runs ended and what they wrote, and how many did so.
#[derive(Clone, Copy, Debug, PartialEq, Eq)]
pub struct Row {
    pub end: End,
    pub output: Fingerprint,
    /// The seed of the first of them.
    pub seed: u64,
    pub times: u64,
}

impl Row {
    /// The row of one run.
    pub(crate) fn of(seed: u64, closing: &Closing) -> Row
        ensures { result ≡ row_of seed closing.now }
    {
        Row {
            end: closing.end,
            output: closing.output,
            seed,
            times: 1,
        }
    }

    /// Whether a run is one of these.
    pub(crate) fn is_like(&self, closing: &Closing) -> bool
        ensures { IsTrue result ↔ IsLike closing.now self.now }
    {
        self.end == closing.end && self.output == closing.output
    }
}
