//! The error of a script's line that is none of the forms allowed there.

use thiserror::Error;

/// A line that says nothing that its script may say.
#[derive(Clone, Copy, Debug, PartialEq, Eq, Error)]
#[error("bad line")]
pub struct BadLine;
