//! `guest replay`: a program by the turns of a record, its bytes on standard output.

ghost use Rattle.std.specs.Prelude.{◌≡◌, ◌⊎◌, List, [], ℕ, IfErr, IfOk, OnOk, map};
ghost use Rattle.std.specs.Io.KnownBytes.{Appends};
ghost use Rattle.elf_image.specs.Image.{ImageContent};
ghost use Rattle.flat_machine.specs.Process.{opening};
ghost use Rattle.guest_words.specs.Given.{GivesWithWords};
ghost use Rattle.image_files.specs.declared.fault.Fault.TheVariants.{CannotWrite};
ghost use Rattle.run_records.specs.Records.{value_of};
ghost use Rattle.run_records.specs.Replaying.{Replays};
ghost use Rattle.record_commands.specs.Replayed.{
  AnswersReplay,
  GivesImageOf,
  GivesRecord,
  IsInputOf,
  IsNoImageOf,
  IsNoInputOf,
  IsNoRecord,
  RefusesProcess,
  RefusesReplay,
};
ghost use Rattle.record_commands.specs.declared.fault.RecordsFault.TheVariants as fault;

use crate::fault::RecordsFault;
use crate::request::ReplayRequest;
use elf_image::Image;
use flat_machine::FlatProcess;
use guest_io::{read_whole, status_of, tell_end};
use guest_words::read_with_words;
use image_files::{Fault, Folder, image_in};
use run_records::{Record, RecordFault, ReplayFault, is_print_of, read_record, replay};
use std::alloc::Global;
use std::io;
use std::io::{Read, Write};

/// Runs the image on the input of a record by the record's turns, writes its output, and answers the exit status, as `guest run` does.
/// Nothing is run for what is no record, or another image or input than the record's, and nothing is written where it does not replay.
/// The record is read first, then the image and the input.
pub fn run_replay<'a, R, I, O, E>(
    rt: &R,
    request: ReplayRequest<'a>,
    input: I,
    out: &mut O,
    err: &mut E,
) -> Result<u8, RecordsFault<'a>>
where
    R: Folder + AllocGlobal,
    I: Read + Drop,
    O: Write,
    E: Write,
    ensures answered { IfOk result (AnswersReplay R.gives request.entry.record.now
        request.entry.image.now (map (λ s. s.now) request.entry.argv.items) (I.remaining input)
        (O.contents out.old) (O.contents out.new)) }
    ensures refused { IfErr result (RefusesReplay R.gives R.withholds request.entry.record.now
        request.entry.image.now (map (λ s. s.now) request.entry.argv.items) (I.remaining
        input)) }
    ensures unwritten { IfErr result (λ why. (why ≡ fault.Fault CannotWrite) ⊎
        (O.contents out.new ≡ O.contents out.old)) }
{
    let told = read_told(rt, request.record)?;
    let process = replayed(
        rt,
        request.record,
        request.image,
        request.argv.as_slice(),
        &told,
        input,
    )?;
    write_output(process.output(), out)?;
    tell_end(told.closing.end, told.closing.steps, err);
    Ok(status_of(told.closing.end))
}

/// Writes all output at once.
fn write_output<O: Write>(output: &[u8], out: &mut O) -> io::Result<()>
    ensures { OnOk result (Appends (O.contents out.old) (O.contents out.new) output.now) }
{
    out.write_all(output)?;
    out.flush()
}

/// The record that a file holds.
pub fn read_told<'a, R: Folder + AllocGlobal>(
    rt: &R,
    name: &'a str,
) -> Result<Record, RecordsFault<'a>>
    ensures told { IfOk result (λ told. GivesRecord R.gives name.now (value_of told)) }
    ensures refused { IfErr result (IsNoRecord R.gives R.withholds name.now) }
{
    let text = rt.read(name)?;
    match read_record(rt.alloc(), text.as_slice()) {
        Ok(told) => Ok(told),
        Err(RecordFault::NoMemory) => Err(RecordsFault::Fault(Fault::NoMemory)),
        Err(fault) => Err(RecordsFault::NoRecord(name, fault)),
    }
}

/// The process of the image with words on the input, run by the turns of a record of both.
fn replayed<'a, R: Folder + AllocGlobal, I: Read + Drop>(
    rt: &R,
    record: &'a str,
    image: &'a str,
    words: &[&str],
    told: &Record,
    input: I,
) -> Result<FlatProcess, RecordsFault<'a>>
    ensures replayed { IfOk result (λ process. (content : ImageContent) ×
        (GivesImageOf (GivesWithWords R.gives (map (λ s. s.now) words.now)) image.now
        told.now.image content × ((bytes : List ℕ) × (IsInputOf told.now.input
        (I.remaining input) bytes × Replays (value_of told.now) (opening content bytes) process)))) }
    ensures refused { IfErr result (RefusesProcess R.gives R.withholds record.now image.now (map (λ s.
        s.now) words.now) (I.remaining input) (value_of told.now)) }
{
    let image = read_image_with_words(rt, image, words, told)?;
    let input = read_same_input(rt.alloc(), input, told)?;
    let mut process = FlatProcess::new(rt.alloc(), &image, input)?;
    match replay(rt.alloc(), &mut process, told) {
        Ok(()) => Ok(process),
        Err(ReplayFault::NoMemory) => Err(RecordsFault::Fault(Fault::NoMemory)),
        Err(fault) => Err(RecordsFault::NoReplay(record, fault)),
    }
}

/// The image that a file holds, if it is the file of a record's.
pub fn read_recorded_image<'a, R: Folder + AllocGlobal>(
    rt: &R,
    name: &'a str,
    told: &Record,
) -> Result<Image, RecordsFault<'a>>
    ensures image { IfOk result (GivesImageOf (GivesWithWords R.gives []) name.now
        told.now.image) }
    ensures refused { IfErr result (IsNoImageOf R.gives R.withholds [] name.now told.now.image) }
{
    read_image_with_words(rt, name, &[], told)
}

/// The same of its file with words.
fn read_image_with_words<'a, R: Folder + AllocGlobal>(
    rt: &R,
    name: &'a str,
    words: &[&str],
    told: &Record,
) -> Result<Image, RecordsFault<'a>>
    ensures image { IfOk result (GivesImageOf (GivesWithWords R.gives (map (λ s.
        s.now) words.now)) name.now told.now.image) }
    ensures refused { IfErr result (IsNoImageOf R.gives R.withholds (map (λ s.
        s.now) words.now) name.now told.now.image) }
{
    let file = read_with_words(rt, name, words)?;
    if !is_print_of(&told.image, file.as_slice()) {
        return Err(RecordsFault::OtherImage(name));
    }
    Ok(image_in(rt.alloc(), file, name)?)
}

/// All bytes of an input, if they are those of a record's.
fn read_same_input<'a, I: Read + Drop>(
    alloc: Global,
    input: I,
    told: &Record,
) -> Result<Vec<u8>, RecordsFault<'a>>
    ensures input { IfOk result (λ bytes. IsInputOf told.now.input (I.remaining input) bytes.items) }
    ensures refused { IfErr result (IsNoInputOf told.now.input (I.remaining input)) }
{
    let input = read_whole(alloc, input)?;
    if is_print_of(&told.input, input.as_slice()) {
        Ok(input)
    } else {
        Err(RecordsFault::OtherInput)
    }
}
