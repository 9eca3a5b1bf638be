//! `policies misses`: what guests miss.

ghost use Rattle.std.specs.Prelude.{IfOk};
ghost use Rattle.policies_cli.specs.Asked.{CountsAsAsked};

use crate::guests::read_guests;
use crate::teller::Teller;
use crate::wrong::Wrong;
use image_files::Folder;
use miss_counts::{PolicyCounts, StageListener, guest_rows};
use policies_requests::MissesRequest;
use policies_tables::write_table;
use std::io::Write;
use std::rt::Files;

/// Plays the string of references of guests on each policy, and writes the table.
pub(crate) fn run_misses<'a, R: Files + AllocGlobal, W: Write, E: Write>(
    rt: &R,
    request: MissesRequest<'a>,
    out: &mut W,
    err: &mut E,
) -> Result<(), Wrong<'a>> {
    let printing = request.printing;
    let rows = count_told(rt, request, err)?;
    Ok(write_table(rows.as_slice(), printing, out)?)
}

/// The progress of the count is reported meanwhile.
fn count_told<'a, R: Files + AllocGlobal, E: Write>(
    rt: &R,
    request: MissesRequest<'a>,
    err: &mut E,
) -> Result<Vec<PolicyCounts>, Wrong<'a>>
    ensures { IfOk result (λ rows. CountsAsAsked ⟦<R as Folder>⟧.gives request.entry rows.items) }
{
    let mut teller = Teller::new(err, request.is_told);
    let counted = count_misses(rt, request, &mut teller);
    teller.erase();
    counted
}

/// The rows of the table.
pub fn count_misses<'a, R: Folder + AllocGlobal, P: StageListener>(
    rt: &R,
    request: MissesRequest<'a>,
    progress: &mut P,
) -> Result<Vec<PolicyCounts>, Wrong<'a>>
    ensures { IfOk result (λ rows. CountsAsAsked R.gives request.entry rows.items) }
{
    let processes = read_guests(rt, &request.guest)?;
    let accesses = request.guest.accesses;
    let (slice, limit) = (request.guest.slice, u64::from(request.guest.limit));
    let rows = guest_rows(
        rt.alloc(),
        processes,
        accesses,
        slice,
        limit,
        request.sizes,
        &request.wanted,
        progress,
    )?;
    Ok(rows)
}
