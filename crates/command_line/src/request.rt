//! What is asked of each command, with the values of its options; and why words make no request.

use std::alloc::AllocError;
use thiserror::Error;

/// What is asked for on the command line.
#[derive(Debug, Drop)]
pub enum Request<'a> {
    Asm(AsmRequest<'a>),
    Flat(FlatRequest<'a>),
    Clock(ClockRequest<'a>),
    Drive(DriveRequest<'a>),
    Run(RunRequest<'a>),
    Debug(DebugRequest<'a>),
}

/// Assemble a source into an ELF file.
#[derive(Clone, Copy, Debug)]
pub struct AsmRequest<'a> {
    pub source: &'a str,
    /// The file to be written.
    pub target: &'a str,
}

/// Run an image on flat memory.
#[derive(Clone, Copy, Debug)]
pub struct FlatRequest<'a> {
    /// The most instructions that are run.
    pub limit: u32,
    /// The file whose bytes the process reads, if there is one.
    pub input: Option<&'a str>,
    pub image: &'a str,
}

/// Play a script on a replacement list.
#[derive(Clone, Copy, Debug)]
pub struct ClockRequest<'a> {
    pub frames: u32,
    pub script: &'a str,
}

/// Play a script of events on a machine, with a process for each image.
#[derive(Debug, Drop)]
pub struct DriveRequest<'a> {
    pub frames: u32,
    pub slots: u32,
    pub script: &'a str,
    pub images: Vec<&'a str>,
}

/// Run a machine with a process for each image to its end.
#[derive(Debug, Drop)]
pub struct RunRequest<'a> {
    pub frames: u32,
    pub slots: u32,
    /// The most instructions that a hart runs in its turn.
    pub slice: u32,
    /// The most events that are applied on one thread. On several it is not used.
    pub limit: u32,
    /// The file whose bytes the first process reads, if there is one.
    pub input: Option<&'a str>,
    /// What the names of the slots' files begin with; slots are in memory where there is none.
    pub swap: Option<&'a str>,
    pub threading: Threading,
    pub images: Vec<&'a str>,
}

/// On which threads a machine runs.
#[derive(Clone, Copy, Debug, PartialEq, Eq)]
pub enum Threading {
    /// On one, one event after another.
    Serial,
    /// Its harts on so many workers, while another thread makes room for pages. With or without lines that report how far the
    /// processes are; and that thread writes changed pages ahead, or does not.
    Workers {
        workers: u32,
        status: bool,
        ahead: bool,
    },
}

/// Converse with a debugger of an image.
#[derive(Clone, Copy, Debug)]
pub struct DebugRequest<'a> {
    /// On how many frames it runs; on flat memory where there is no number.
    pub frames: Option<u32>,
    pub image: &'a str,
}

/// Why the words make no request.
#[derive(Clone, Copy, Debug, PartialEq, Eq, Error)]
pub enum UsageError {
    #[error("bad usage")]
    BadUsage,
    #[error("no memory")]
    NoMemory,
}

impl From<AllocError> for UsageError {
    ghost use Rattle.std.specs.Prelude.{◌≡◌};
    ghost use Rattle.command_line.specs.declared.request.UsageError.TheVariants.{NoMemory};

    ghost from_gives = { λ _ error. error ≡ NoMemory };

    fn from(_: AllocError) -> Self {
        UsageError::NoMemory
    }
}
