//! The report of one process that has run, with what was published last of it.

ghost use Rattle.std.specs.Prelude.{◌≡◌, true};
ghost use Rattle.elf_image.specs.Start.{start_of};
ghost use Rattle.hart_carriers.specs.Counts.{status_of};
ghost use Rattle.hart_carriers.specs.FlatLines.{counts_of};
ghost use Rattle.machine_sides.specs.FlatLines.{StandsForRun};
ghost use Rattle.machine_sides.specs.Reporting.{come_to, told};

use elf_image::Image;
use machine_sides::{ProcessReport, into_process_report};
use space_core::Space;
use status_cell::Status;
use std::sync::ledger::Ledger;
use swap_slots::SwapSlot;

/// A process that runs no more, and what was published of it last, which is how far it has come.
#[derive(Drop)]
pub struct Ran<L: Ledger, S: SwapSlot> {
    pub process: Space<L, S>,
    pub last: Status,
    pub ghost published: { last ≡ status_of process },
}

/// What a process has come to, what was published of it last, and whether it was started from this image and this input.
#[derive(Drop)]
pub(crate) struct Line {
    pub(crate) report: ProcessReport,
    pub(crate) last: Status,
    pub(crate) started: bool,
}

/// The line of a process that was to run this image on this input.
#[tactic(auto, using(crate::proofs::FlatRuns::stands_for_run, crate::proofs::FlatRuns::counted))]
pub(crate) fn line_of<L: Ledger, S: SwapSlot>(ran: Ran<L, S>, image: &Image, input: &[u8]) -> Line
    ensures stands { S.honest → result.started ≡ true →
        StandsForRun (start_of image.now input.now) (told result.report) }
    ensures last { result.last ≡ counts_of result.report }
    ensures told { told result.report ≡ come_to ran.process }
{
    let Ran { process, last } = ran;
    process.coherent();
    let started = process.started_from(image, input);
    Line {
        report: into_process_report(process),
        last,
        started,
    }
}
