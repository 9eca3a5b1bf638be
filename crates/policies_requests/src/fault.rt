//! Why words are no request.

use crate::policy_names::PolicyWords;
use std::alloc::AllocError;

/// Why words are no request.
#[derive(Debug, Drop, thiserror::Error)]
pub enum RequestFault<'a> {
    #[error("no memory")]
    NoMemory,
    #[error("bad usage")]
    BadUsage,
    /// Words that are no request, as the library that reads them says it. Help that was asked for is no fault.
    #[error("{0}")]
    Words(clap::Error),
    /// An option's value, and what it may be.
    #[error("--{0} {1}: {2}")]
    Value(&'static str, &'a str, &'static str),
    /// A word that names no policy, and those that do.
    #[error("--policies {0}: {1}")]
    Policies(&'a str, PolicyWords),
    /// A word with a policy's name, the name, and which parameters it may have.
    #[error("--policies {0}: {1} may have {2}")]
    PolicyParts(&'a str, &'static str, &'static str),
    /// Two options that don't go together, and why.
    #[error("--{0} with --{1}: {2}")]
    Together(&'static str, &'static str, &'static str),
    /// A trace in a format that marks no writes.
    #[error("--format: oraclegeneral marks no writes, and csv only in a column that is named, as --columns id=lba,op=type")]
    NoWrites,
    /// A policy that goes by writes, with a trace in such a format.
    #[error("--policies {0} goes by writes: oraclegeneral marks none, and csv only in a column that is named, as --columns id=lba,op=type")]
    NeedsWrites(&'static str),
    /// A number of frames that one of the policies can't have.
    #[error("{0} frames: clock-pro and clock-pro-used have 4 to 4096; name others by --policies")]
    ClockProFrames(usize),
    #[error("{0} images: 64 run at most")]
    ManyImages(usize),
}

impl From<AllocError> for RequestFault<'_> {
    fn from(_: AllocError) -> Self {
        RequestFault::NoMemory
    }
}
