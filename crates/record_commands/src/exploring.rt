//! Runs by schedules that are chosen at random, and what they came to.

ghost use Rattle.std.specs.Prelude.{◌≡◌, ◌<◌, ◌^◌, ◌↔◌, IsTrue, IfErr, IfOk, OnOk, option_map};
ghost use Rattle.run_records.specs.Records.{value_of};
ghost use Rattle.record_commands.specs.Exploring.{IsExplored};
ghost use Rattle.record_commands.specs.Rows.{Counts, GoesOn, times_of};
ghost use Rattle.record_commands.specs.Saved.{AreNoted, HoldsOther, IfOther, IsRunOf, Replaces};

use crate::fault::RecordsFault;
use crate::progress::{show_progress, show_size};
use crate::request::{By, ExploreRequest};
use crate::row::Row;
use crate::saving::save;
use crate::table::count;
use elf_image::Image;
use guest_io::WholeFiles;
use guest_records::{Way, explore_run, measure_runs};
use image_files::Folder;
use run_records::{Fingerprint, Record};
use std::alloc::{AllocError, Global};
use std::io::Write;

/// A program on an input.
#[derive(Clone, Copy)]
pub(crate) struct Program<'p> {
    pub(crate) image: &'p Image,
    /// The fingerprint that distinguishes the image's file from others.
    pub(crate) file: Fingerprint,
    pub(crate) input: &'p [u8],
}

/// Runs a program by as many seeds as are asked for, and returns what the runs came to. Saves the record of the first run of each row, as
/// soon as it is there.
pub(crate) fn explore<'a, R: Folder + WholeFiles + AllocGlobal, E: Write>(
    rt: &R,
    program: &Program<'_>,
    request: &ExploreRequest<'a>,
    err: &mut E,
) -> Result<Vec<Row>, RecordsFault<'a>>
    ensures explored { IfOk result (λ rows. IsExplored (Replaces R.gives R.withholds R.takes)
        request.now program.now.image.now program.now.input.now program.now.file rows.items) }
    ensures other { IfErr result (IfOther (λ name. HoldsOther R.gives name program.now.file)) }
{
    let way = way_of(rt.alloc(), program, request, err)?;
    let mut rows = Vec::new(rt.alloc());
    'runs: for done in 0..request.runs {
        if !goes_on(request.until, rows.as_slice()) {
            return Ok(rows);
        }
        if request.is_watched {
            show_progress(done, request.runs, rows.len(), err);
        }
        let seed = u64::from(request.seed) + u64::from(done);
        let told = run_once(rt.alloc(), program, seed, way, request.limit)?;
        note(rt, request.folder, &mut rows, seed, &told)?;
    }
    Ok(rows)
}

/// Counts a run, and saves its record where it begins a row.
fn note<'a, R: Folder + WholeFiles + AllocGlobal>(
    rt: &R,
    folder: Option<&'a str>,
    rows: &mut Vec<Row>,
    seed: u64,
    told: &Record,
) -> Result<(), RecordsFault<'a>>
    requires few { times_of rows.old.items < 2 ^ 63 }
    ensures counts { OnOk result (Counts seed told.now.closing rows.old.items rows.new.items) }
    ensures saved { OnOk result (AreNoted (Replaces R.gives R.withholds R.takes) (option_map (λ s.
        s.now) folder.entry) (value_of told.now) rows.old.items rows.new.items) }
    ensures other { IfErr result (IfOther (λ name. HoldsOther R.gives name told.now.image)) }
{
    if count(rows, seed, &told.closing)? {
        save(rt, folder, seed, told)?;
    }
    Ok(())
}

/// How turns are chosen: by priorities for runs as they are measured. That is shown above a table.
fn way_of<E: Write>(
    alloc: Global,
    program: &Program<'_>,
    request: &ExploreRequest<'_>,
    err: &mut E,
) -> Result<Way, AllocError> {
    match request.by {
        By::Turns => Ok(Way::Turns),
        By::Priorities { depth } => {
            let size = measure_runs(alloc, program.image, program.input, request.limit)?;
            let patience = size.patience(request.limit);
            if !request.is_csv {
                show_size(size, patience, err);
            }
            Ok(Way::Priorities {
                depth,
                steps: size.steps,
                patience,
            })
        }
    }
}

/// Whether rows are fewer than are wanted.
fn goes_on(until: Option<u32>, rows: &[Row]) -> bool
    ensures { IsTrue result ↔ GoesOn until rows.now }
{
    match until {
        Some(until) => (rows.len() as u64) < u64::from(until),
        None => true,
    }
}

/// The record of the run by a seed.
fn run_once(
    alloc: Global,
    program: &Program<'_>,
    seed: u64,
    way: Way,
    limit: u64,
) -> Result<Record, AllocError>
    ensures { IfOk result (λ told. IsRunOf program.now.image.now program.now.input.now
        program.now.file limit (value_of told)) }
{
    let input = Vec::from_slice(alloc, program.input)?;
    explore_run(alloc, program.image, program.file, input, seed, way, limit)
}
