//! The exit status of a run of several processes.

ghost use Rattle.std.specs.Prelude.{◌≡◌, map, max};
ghost use Rattle.report_text.specs.RunStatus.{worst_status};

use machine_sides::ProcessReport;
use process_text::{end_of, status_of_end};

/// The exit status of a run: the highest of its processes' statuses.
pub fn status_of_all(processes: &[ProcessReport]) -> u8
    ensures { result ≡ worst_status 0 (map (λ process. process.end) processes.now) }
{
    let mut status = 0;
    let mut rest = processes;
    while let Some((first, others)) = rest.split_first() {
        status = worse(status, status_of_end(end_of(first.end)));
        rest = others;
    }
    status
}

fn worse(status: u8, other: u8) -> u8
    ensures { result ≡ max status other }
{
    if other > status { other } else { status }
}
