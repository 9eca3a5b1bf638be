//! What is asked for.

ghost use Rattle.std.specs.Prelude.{◌≤◌};
ghost use Rattle.std.specs.Option.{ForSome};

use record_commands::ReplayRequest;

/// What is asked for on the command line.
#[derive(Debug, Drop)]
pub(crate) enum Request<'a> {
    Run(RunRequest<'a>),
    Trace(TraceRequest<'a>),
    Profile(ProfileRequest<'a>),
    Debug(DebugRequest<'a>),
    Replay(ReplayRequest<'a>),
}

/// Run a program on standard input.
#[derive(Debug, Drop)]
pub(crate) struct RunRequest<'a> {
    /// How many frames, 4 to 4096; None: flat memory.
    pub(crate) frames: Option<u32>,
    /// The most steps.
    pub(crate) limit: u64,
    pub(crate) image: &'a str,
    /// The words that it is given, if any: its name, and more.
    pub(crate) argv: Vec<&'a str>,
}

/// Tell the steps of a program.
#[derive(Clone, Copy, Debug)]
pub(crate) struct TraceRequest<'a> {
    /// The first step that is printed, counted from 1.
    pub(crate) from: u64,
    /// How many lines are written at most.
    pub(crate) count: u64,
    /// Whose steps are printed; None: all harts'.
    pub(crate) hart: Option<u32>,
    /// Whether only calls and returns are printed.
    pub(crate) is_of_functions: bool,
    pub(crate) image: &'a str,
}

/// Count where a program spends its steps.
#[derive(Clone, Copy, Debug)]
pub(crate) struct ProfileRequest<'a> {
    pub(crate) limit: u64,
    /// How many rows a table has at most.
    pub(crate) rows: u32,
    pub(crate) is_callgrind: bool,
    pub(crate) image: &'a str,
}

/// Answer the lines of a debugger.
#[derive(Clone, Copy, Debug)]
pub(crate) struct DebugRequest<'a> {
    /// How many frames, 4 to 4096; None: flat memory.
    pub(crate) frames: Option<u32>,
    /// The file whose bytes the program reads, if there is one.
    pub(crate) input: Option<&'a str>,
    /// The record by which its harts take their turns, if there is one.
    pub(crate) record: Option<&'a str>,
    pub(crate) image: &'a str,
    ghost fitting: { ForSome frames (λ number. (4 ≤ number) × (number ≤ 4096)) },
}
