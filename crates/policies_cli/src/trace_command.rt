//! `policies trace`: the string of references of guests.

ghost use Rattle.std.specs.Prelude.{◌≡◌, ◌∷◌, [], ◌++◌, length, OnOk};
ghost use Rattle.std.specs.List.{flat_map};
ghost use Rattle.std.specs.Io.KnownBytes.{Appends};
ghost use Rattle.guest_strings.specs.ToCome.{to_come};
ghost use Rattle.trace_files.specs.Written.{header, records, reference_line};
ghost use Rattle.policies_cli.specs.Traces.{TracesAsAsked, rows_behind, trace_text};

use crate::guests::read_guests;
use clock_policy::Key;
use guest_strings::GuestString;
use image_files::{Fault, Folder};
use miss_counts::{Quiet, pages_in, references_of};
use policies_requests::TraceRequest;
use std::alloc::Global;
use std::io::Write;
use trace_files::{CSV_HEADER, TraceFormat, write_csv, write_line, write_records};
use whole_strings::next_uses;

/// Writes the string, reference by reference; with its next uses once it is whole.
pub fn run_trace<'a, R: Folder + AllocGlobal, W: Write>(
    rt: &R,
    request: &TraceRequest<'a>,
    out: &mut W,
) -> Result<(), Fault<'a>>
    ensures { OnOk result (TracesAsAsked R.gives request.now (W.contents out.old) (W.contents
        out.new)) }
{
    let processes = read_guests(rt, &request.guest)?;
    let (accesses, slice) = (request.guest.accesses, request.guest.slice);
    let limit = u64::from(request.guest.limit);
    let guests = GuestString::new(processes, accesses, slice, limit);
    write_guests(rt.alloc(), guests, request.format, out)?;
    Ok(())
}

/// Writes a string in a format.
fn write_guests<'a, W: Write>(
    alloc: Global,
    guests: GuestString,
    format: TraceFormat<'a>,
    out: &mut W,
) -> Result<(), Fault<'a>>
    ensures { OnOk result (Appends (W.contents out.old) (W.contents out.new) (trace_text
        format.entry (to_come guests))) }
{
    match format {
        TraceFormat::Text | TraceFormat::Lackey | TraceFormat::DynamoRio => write_text(guests, out),
        TraceFormat::Csv(_) | TraceFormat::Columns(_) => write_all_csv(guests, out),
        TraceFormat::OracleGeneral => write_all_oracle(alloc, guests, out),
    }
}

fn write_text<'a, W: Write>(mut guests: GuestString, out: &mut W) -> Result<(), Fault<'a>>
    ensures { OnOk result (Appends (W.contents out.old) (W.contents out.new)
        (flat_map reference_line (to_come guests))) }
{
    'references: while let Some(reference) = guests.next()? {
        write_line(reference, out)?;
    }
    Ok(())
}

fn write_all_csv<'a, W: Write>(guests: GuestString, out: &mut W) -> Result<(), Fault<'a>>
    ensures { OnOk result (Appends (W.contents out.old) (W.contents out.new) ((header ++ 10 ∷ []) ++
        rows_behind 0 (to_come guests))) }
{
    writeln!(out, "{CSV_HEADER}")?;
    write_rows(guests, out)?;
    Ok(())
}

fn write_rows<'a, W: Write>(mut guests: GuestString, out: &mut W) -> Result<(), Fault<'a>>
    ensures { OnOk result (Appends (W.contents out.old) (W.contents out.new) (rows_behind 0
        (to_come guests))) }
{
    let mut time = 0u64;
    'references: while let Some(reference) = guests.next()? {
        time = time.saturating_add(1);
        write_csv(time, reference.page, out)?;
    }
    Ok(())
}

fn write_all_oracle<'a, W: Write>(
    alloc: Global,
    guests: GuestString,
    out: &mut W,
) -> Result<(), Fault<'a>>
    ensures { OnOk result (Appends (W.contents out.old) (W.contents out.new) (trace_text
        TraceFormat.OracleGeneral (to_come guests))) }
{
    let string = references_of(alloc, guests, &mut Quiet)?;
    let pages = pages_in(alloc, string.as_slice())?;
    write_oracle(alloc, pages.as_slice(), out)
}

fn write_oracle<'a, W: Write>(alloc: Global, string: &[Key], out: &mut W) -> Result<(), Fault<'a>>
    ensures { OnOk result (Appends (W.contents out.old) (W.contents out.new) (records (length
        string.now) 0 string.now)) }
{
    let uses = next_uses(alloc, string)?;
    Ok(write_records(string, uses.as_slice(), out)?)
}
