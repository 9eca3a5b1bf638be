//! `policies totals`: how many references and pages a trace has.

ghost use Rattle.std.specs.Prelude.{IfOk};
ghost use Rattle.policies_cli.specs.Replays.{OfFile};
ghost use Rattle.policies_cli.specs.Totals.{TotalsOf};

use crate::teller::Teller;
use crate::totals::{Totals, totals_of};
use crate::wrong::Wrong;
use policies_requests::TotalsRequest;
use std::io::Write;
use std::rt::Files;
use trace_files::{TraceFault, marks_writes, open_trace};

/// Counts a trace as it comes, and writes a line for each count: none for writes where the format marks none.
pub(crate) fn run_totals<'a, R: Files + AllocGlobal, W: Write, E: Write>(
    rt: &R,
    request: &TotalsRequest<'a>,
    out: &mut W,
    err: &mut E,
) -> Result<(), Wrong<'a>> {
    let totals = count_trace(rt, request, err)?;
    if totals.references == 0 {
        return Err(Wrong::Trace(TraceFault::Empty(request.trace)));
    }
    let (references, writes, pages) = (totals.references, totals.writes, totals.pages);
    writeln!(out, "references {references}")?;
    if marks_writes(request.format) {
        writeln!(out, "writes {writes}")?;
    }
    writeln!(out, "pages {pages}")?;
    Ok(())
}

/// Counts a trace as it comes. The progress of the count is reported meanwhile.
#[tactic(auto, using(crate::proofs::Opened::of_file))]
fn count_trace<'a, R: Files + AllocGlobal, E: Write>(
    rt: &R,
    request: &TotalsRequest<'a>,
    err: &mut E,
) -> Result<Totals, Wrong<'a>>
    ensures { IfOk result (λ totals. OfFile R.File.remaining request.now.format (TotalsOf totals)) }
{
    let mut trace = open_trace(rt, request.trace, request.format)?;
    let mut teller = Teller::new(err, request.is_told);
    let counted = totals_of(rt.alloc(), &mut trace, request.trace, &mut teller);
    teller.erase();
    counted
}
