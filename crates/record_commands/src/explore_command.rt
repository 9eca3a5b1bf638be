//! `guest explore`: what a program may come to, by schedules that are chosen at random.

ghost use Rattle.std.specs.Prelude.{ℕ, List, IfErr, IfOk, OnOk};
ghost use Rattle.std.specs.Io.KnownBytes.{Appends};
ghost use Rattle.run_records.specs.Prints.{print_of};
ghost use Rattle.record_commands.specs.Exploring.{Explores};
ghost use Rattle.record_commands.specs.Saved.{HoldsOther, IfOther, Replaces};
ghost use Rattle.record_commands.specs.Tables.{shown_text};
ghost use Rattle.record_commands.specs.declared.row.Row.{Row};

use crate::exploring::{Program, explore};
use crate::fault::RecordsFault;
use crate::progress::end_progress;
use crate::request::ExploreRequest;
use crate::row::Row;
use crate::table_text::{write_table, write_values};
use guest_io::{WholeFiles, read_whole};
use image_files::{Folder, image_in};
use run_records::take_fingerprint;
use std::io;
use std::io::{Read, Write};

/// Runs an image on an input by many schedules, and writes a table of what came. The image is read before the input.
pub fn run_explore<'a, R, I, O, E>(
    rt: &R,
    request: ExploreRequest<'a>,
    input: I,
    out: &mut O,
    err: &mut E,
) -> Result<u8, RecordsFault<'a>>
where
    R: Folder + WholeFiles + AllocGlobal,
    I: Read + Drop,
    O: Write,
    E: Write,
    ensures explored { IfOk result (λ _. (rows : List Row) × (Explores R.gives
        (Replaces R.gives R.withholds R.takes) request.entry (I.remaining input) rows × Appends
        (O.contents out.old) (O.contents out.new) (shown_text request.entry.is_csv rows))) }
    ensures other { IfErr result (IfOther (λ name. (file : List ℕ) × (R.gives
        request.entry.image.now file × HoldsOther R.gives name (print_of file)))) }
{
    let alloc = rt.alloc();
    let file = rt.read(request.image)?;
    let print = take_fingerprint(file.as_slice());
    let image = image_in(alloc, file, request.image)?;
    let input = read_whole(alloc, input)?;
    let program = Program {
        image: &image,
        file: print,
        input: input.as_slice(),
    };
    let explored = explore(rt, &program, &request, err);
    if request.is_watched {
        end_progress(err);
    }
    let rows = explored?;
    write_rows(request.is_csv, rows.as_slice(), out)?;
    Ok(0)
}

/// Writes a table of rows, or their values.
fn write_rows<O: Write>(is_csv: bool, rows: &[Row], out: &mut O) -> io::Result<()>
    ensures { OnOk result (Appends (O.contents out.old) (O.contents out.new) (shown_text is_csv
        rows.now)) }
{
    if is_csv {
        write_values(rows, out)
    } else {
        write_table(rows, out)
    }
}
