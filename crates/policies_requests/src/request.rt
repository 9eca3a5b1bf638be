//! What is asked for.

ghost use Rattle.std.specs.Prelude.{◌≡◌, true};

use guest_strings::AccessKinds;
use miss_counts::{PolicyName, PolicySet, TableSize};
use policies_tables::Printing;
use std::num::NonZeroU32;
use trace_files::TraceFormat;

/// What is asked for on the command line.
#[derive(Drop)]
pub enum PoliciesRequest<'a> {
    Misses(MissesRequest<'a>),
    Trace(TraceRequest<'a>),
    Replay(ReplayRequest<'a>),
    Curve(CurveRequest<'a>),
    WriteBacks(WriteBacksRequest<'a>),
    Totals(TotalsRequest<'a>),
}

/// Which guests run, and how.
#[derive(Drop)]
pub struct GuestRequest<'a> {
    /// Which of their references are wanted.
    pub accesses: AccessKinds,
    /// How many instructions a slice has.
    pub slice: u32,
    /// The most instructions that are run.
    pub limit: u32,
    /// The file whose bytes the first process reads, if there is one.
    pub input: Option<&'a str>,
    pub images: Vec<&'a str>,
}

/// Count what guests miss.
#[derive(Drop)]
pub struct MissesRequest<'a> {
    pub guest: GuestRequest<'a>,
    /// None: as many rows as the guests have pages for.
    pub sizes: Option<Vec<TableSize>>,
    pub wanted: PolicySet,
    pub printing: Printing,
    /// Whether the progress of the count is reported on standard error.
    pub is_told: bool,
}

/// Write the string of references of guests.
#[derive(Drop)]
pub struct TraceRequest<'a> {
    pub guest: GuestRequest<'a>,
    pub format: TraceFormat<'a>,
}

/// Count what a trace misses.
#[derive(Drop)]
pub struct ReplayRequest<'a> {
    pub sizes: Vec<TableSize>,
    pub format: TraceFormat<'a>,
    /// Where the optimum is among them the whole string is kept.
    pub wanted: PolicySet,
    /// How many references come before those whose misses are reported.
    pub skip: u64,
    pub printing: Printing,
    /// Whether the progress of the count is reported on standard error.
    pub is_told: bool,
    pub trace: &'a str,
    ghost whole: { wanted.optimum ≡ true → skip ≡ 0 },
}

/// Count what a trace misses under LRU with every number of frames, or its working sets.
#[derive(Drop)]
pub struct CurveRequest<'a> {
    pub format: TraceFormat<'a>,
    /// Whether the optimum is counted too.
    pub has_optimum: bool,
    /// Whether working sets are counted with every window, and nothing else.
    pub is_of_windows: bool,
    /// Where one page in so many is looked at: the result is an estimate.
    pub one_in: Option<NonZeroU32>,
    pub printing: Printing,
    /// Whether the progress of the count is reported on standard error.
    pub is_told: bool,
    pub trace: &'a str,
}

/// Count what a trace writes back.
#[derive(Drop)]
pub struct WriteBacksRequest<'a> {
    pub sizes: Vec<TableSize>,
    pub format: TraceFormat<'a>,
    pub policies: Vec<PolicyName>,
    pub printing: Printing,
    /// Whether the progress of the count is reported on standard error.
    pub is_told: bool,
    pub trace: &'a str,
}

/// Count a trace's references and pages.
#[derive(Drop)]
pub struct TotalsRequest<'a> {
    pub format: TraceFormat<'a>,
    /// Whether the progress of the count is reported on standard error.
    pub is_told: bool,
    pub trace: &'a str,
}
