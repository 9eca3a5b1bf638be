//! The command.

ghost use Rattle.std.specs.Prelude.{◌≡◌, ◌<◌, IfErr, IfOk, OnOk};
ghost use Rattle.std.specs.Io.KnownBytes.{Appends};
ghost use Rattle.elf_image.specs.Start.{start_of};
ghost use Rattle.machine_sides.specs.FlatLines.{StandsForRun};
ghost use Rattle.machine_sides.specs.Reporting.{told};
ghost use Rattle.run_records.specs.Records.{record_text, value_of};
ghost use Rattle.run_recorder.specs.Recorded.{IsEarly, IsKept, RanBy, RunsRecorded};
ghost use Rattle.run_recorder.specs.Requests.{IsInRange};

use crate::crew::run_by_crew;
use crate::fault::RecorderFault;
use crate::request::{Driver, RecordRequest};
use crate::told::record_of;
use elf_image::Image;
use guest_frames::play_process;
use guest_io::{WholeFiles, read_whole, status_of, tell_end};
use guest_words::read_with_words;
use hart_carriers::CrewRequest;
use image_files::{Folder, image_in};
use machine_sides::ProcessReport;
use run_records::{Record, take_fingerprint, write_record};
use std::alloc::Global;
use std::io;
use std::io::{Read, Write};
use std::sync::Wait;
use std::thread::Threads;

/// Runs a program on a machine, saves the record of its run in the file that is asked for, writes its output to `out`, and returns
/// the exit status. The image is read before the input, and nothing is run where the file can't be made. Output that can't be written
/// loses no record, nor a record that can't be saved the output. The size of the record is printed to `err`.
pub fn run_record<'a, R, I, O, E>(
    rt: &R,
    request: &RecordRequest<'a>,
    input: I,
    out: &mut O,
    err: &mut E,
) -> Result<u8, RecorderFault<'a>>
where
    R: Folder + WholeFiles + AllocGlobal + Threads + Wait + Sync,
    I: Read + Drop,
    O: Write,
    E: Write,
    requires in_range { IsInRange request.now }
    ensures recorded { IfOk result (RunsRecorded R.gives R.takes request.now (I.remaining input)
        (O.contents out.old) (O.contents out.new)) }
    ensures kept { IfErr result (IsKept R.gives R.takes request.now (I.remaining input)) }
{
    let alloc = rt.alloc();
    let file = read_with_words(rt, request.image, request.argv.as_slice())?;
    let image_print = take_fingerprint(file.as_slice());
    let image = image_in(alloc, file, request.image)?;
    let input = read_whole(alloc, input)?;
    let input_print = take_fingerprint(input.as_slice());
    if rt.try_put(request.record).is_err() {
        return Err(RecorderFault::NotWritten(request.record));
    }
    let report = run_machine(rt, request, image, input)?;
    let (told, output) = record_of(report, image_print, input_print)?;
    let saved = save(rt, request.record, &told);
    let written = write_output(output.as_slice(), out);
    let bytes = saved?;
    let Ok(()) = written else {
        return Err(RecorderFault::NoOutput(request.record));
    };
    let closing = told.closing;
    tell_record(request.record, told.turns.len(), bytes, err);
    tell_end(closing.end, closing.steps, err);
    Ok(status_of(closing.end))
}

/// Writes all output at once.
fn write_output<O: Write>(output: &[u8], out: &mut O) -> io::Result<()>
    ensures { OnOk result (Appends (O.contents out.old) (O.contents out.new) output.now) }
{
    out.write_all(output)?;
    out.flush()
}

/// Runs an image on an input on the machine that is asked for.
fn run_machine<'a, R: Folder + AllocGlobal + Threads + Wait + Sync>(
    rt: &R,
    request: &RecordRequest<'a>,
    image: Image,
    input: Vec<u8>,
) -> Result<ProcessReport, RecorderFault<'a>>
    requires in_range { IsInRange request.now }
    ensures ran { IfOk result (RanBy request.now.driver request.now (start_of image
        input.items)) }
    ensures flat { IfOk result (λ report. StandsForRun (start_of image input.items)
        (told report)) }
    ensures early { IfErr result IsEarly }
{
    let (alloc, frames, slots, slice) = (rt.alloc(), request.frames, request.slots, request.slice);
    match request.driver {
        Driver::Serial { limit } => {
            Ok(play_process(alloc, frames, slots, slice, image, input, limit)?)
        }
        Driver::Workers { workers, ahead } => {
            let wanted = CrewRequest {
                workers,
                slice,
                ahead,
            };
            run_by_crew(rt, alloc, frames, slots, &wanted, image, input)
        }
    }
}

/// Writes a record to a file, and returns of how many bytes it is.
fn save<'a, R: WholeFiles + AllocGlobal>(
    rt: &R,
    name: &'a str,
    told: &Record,
) -> Result<usize, RecorderFault<'a>>
    ensures saved { OnOk result (R.takes name.now (record_text (value_of told.now))) }
    ensures early { IfErr result IsEarly }
{
    let mut text = Vec::new(rt.alloc());
    if write_record(told, &mut text).is_err() {
        return Err(RecorderFault::NotWritten(name));
    }
    match rt.put(name, text.as_slice()) {
        Ok(()) => Ok(text.len()),
        Err(_) => Err(RecorderFault::NotWritten(name)),
    }
}

/// Prints how large a record is. Where that can't be written, nothing is lost.
fn tell_record<E: Write>(name: &str, turns: usize, bytes: usize, err: &mut E) {
    let _ = writeln!(
        err,
        "guest: {name}: a record of {turns} turns, {bytes} bytes"
    );
    let _ = err.flush();
}
