//! Reads the text of a record.

ghost use Rattle.std.specs.Prelude.{◌≡◌, ◌<◌, ◌^◌, ◌⊎◌, ◌++◌, ◌∷◌, [], Ok, Err, IfOk, IfErr, OnOk, MatchResult};
ghost use Rattle.text_lines.specs.Text.{lines_of};
ghost use Rattle.run_records.specs.RecordLines.{end_of, fingerprint_of, steps_of};
ghost use Rattle.run_records.specs.Records.{
  alone,
  behind_turns,
  body_of,
  closing_of,
  is_ended,
  next_of,
  record_of,
  rest_of,
  turns_of,
  value_of,
};

use crate::fault::RecordFault;
use crate::fingerprint::{Fingerprint, fingerprint_in};
use crate::record::{Closing, Record};
use crate::turns::{end_in, steps_in, turn_in};
use flat_machine::{End, Turn};
use std::alloc::Global;
use text_lines::next_line;

/// The first line: the format and its version.
pub(crate) const TITLE: &[u8] = b"guest-record 1";

/// Reads a record. A text that is none is refused for its first line that is none of a record; lack of memory may hide that.
#[tactic(auto, unfolding(crate::specs::Records::record_of))]
pub fn read_record(alloc: Global, text: &[u8]) -> Result<Record, RecordFault>
    ensures read { IfOk result (λ told. record_of text.now ≡ Ok (value_of told)) }
    ensures refused { IfErr result (λ fault. (fault ≡ RecordFault.NoMemory) ⊎ (record_of text.now ≡ Err
        fault)) }
{
    let Some((first, rest)) = next_line(text) else {
        return Err(RecordFault::NotARecord);
    };
    if first != TITLE {
        return Err(RecordFault::NotARecord);
    }
    if !is_ended(text) {
        return Err(RecordFault::Cut);
    }
    read_body(alloc, rest)
}

/// Whether the last line of a text has an end.
#[tactic(auto, using(crate::proofs::Ends::last_is_end, crate::proofs::Ends::nothing_ends))]
fn is_ended(text: &[u8]) -> bool
    ensures { result ≡ is_ended text.now }
{
    match text.last() {
        Some(last) => *last == b'\n',
        None => false,
    }
}

/// Reads the lines after the first.
#[tactic(auto, unfolding(crate::specs::Records::body_of))]
fn read_body(alloc: Global, text: &[u8]) -> Result<Record, RecordFault>
    ensures read { IfOk result (λ told. body_of (lines_of text.now) ≡ Ok (value_of told)) }
    ensures refused { IfErr result (λ fault. (fault ≡ RecordFault.NoMemory)
        ⊎ (body_of (lines_of text.now) ≡ Err fault)) }
{
    let (image, text) = next_fingerprint(b"image", 2, text)?;
    let (input, text) = next_fingerprint(b"input", 3, text)?;
    read_rest(alloc, image, input, text)
}

/// Reads turns and last lines.
#[tactic(auto, unfolding(crate::specs::Records::rest_of))]
fn read_rest(
    alloc: Global,
    image: Fingerprint,
    input: Fingerprint,
    text: &[u8],
) -> Result<Record, RecordFault>
    ensures read { IfOk result (λ told. rest_of image input (lines_of text.now) ≡ Ok
        (value_of told)) }
    ensures refused { IfErr result (λ fault. (fault ≡ RecordFault.NoMemory)
        ⊎ (rest_of image input (lines_of text.now) ≡ Err fault)) }
{
    let (turns, text) = read_turns(alloc, text)?;
    let closing = read_closing(turns.len() as u64 + 4, text)?;
    Ok(Record {
        image,
        input,
        turns,
        closing,
    })
}

/// Reads the turns of the first lines, as far as these are turns.
#[tactic(auto, using(crate::proofs::Turning::nothing_read, crate::proofs::Turning::one_read, crate::proofs::Turning::no_turn, crate::proofs::Turning::no_line))]
fn read_turns(alloc: Global, text: &[u8]) -> Result<(Vec<Turn>, &[u8]), RecordFault>
    ensures turns { IfOk result (λ read. read.0.items ≡ turns_of (lines_of text.now)) }
    ensures rest { IfOk result (λ read. lines_of read.1.now ≡ behind_turns (lines_of text.now)) }
    ensures memory { IfErr result (λ fault. fault ≡ RecordFault.NoMemory) }
{
    let mut turns = Vec::new(alloc);
    let mut rest = text;
    'lines: while let Some((line, later)) = next_line(rest) {
        let Some(turn) = turn_in(line) else {
            return Ok((turns, rest));
        };
        add(&mut turns, turn)?;
        rest = later;
    }
    Ok((turns, rest))
}

/// Adds a turn after the others.
fn add(turns: &mut Vec<Turn>, turn: Turn) -> Result<(), RecordFault>
    ensures added { OnOk result (turns.new.items ≡ turns.old.items ++ turn ∷ []) }
    ensures memory { IfErr result (λ fault. fault ≡ RecordFault.NoMemory) }
{
    match turns.push(turn) {
        Ok(()) => Ok(()),
        Err(_) => Err(RecordFault::NoMemory),
    }
}

/// Reads the last lines, the first of which has this number.
#[tactic(auto, unfolding(crate::specs::Records::closing_of))]
fn read_closing(number: u64, text: &[u8]) -> Result<Closing, RecordFault>
    requires { number < 2 ^ 63 }
    ensures { result ≡ closing_of number (lines_of text.now) }
{
    let (end, text) = next_end(number, text)?;
    let (steps, text) = next_steps(number + 1, text)?;
    let (output, text) = next_fingerprint(b"output", number + 2, text)?;
    alone(number + 3, Closing { end, steps, output }, text)
}

/// The last lines. No line may follow them; one that does has this number.
fn alone(number: u64, closing: Closing, text: &[u8]) -> Result<Closing, RecordFault>
    ensures { result ≡ alone number (lines_of text.now) closing }
{
    match next_line(text) {
        Some(_) => Err(RecordFault::BadLine(number)),
        None => Ok(closing),
    }
}

/// What the next line says, and the text after it. The line has this name and this number.
#[tactic(auto, unfolding(crate::specs::Records::next_of))]
fn next_fingerprint<'a>(
    name: &[u8],
    number: u64,
    text: &'a [u8],
) -> Result<(Fingerprint, &'a [u8]), RecordFault>
    ensures { MatchResult result (λ read. next_of (fingerprint_of name.now) number
        (lines_of text.now) ≡ Ok (read.0, lines_of read.1.now)) (λ fault. next_of (fingerprint_of
        name.now) number (lines_of text.now) ≡ Err fault) }
{
    let Some((line, rest)) = next_line(text) else {
        return Err(RecordFault::BadLine(number));
    };
    match fingerprint_in(name, line) {
        Some(print) => Ok((print, rest)),
        None => Err(RecordFault::BadLine(number)),
    }
}

/// The ending that the next line gives, and the text after it. The line has this number.
#[tactic(auto, unfolding(crate::specs::Records::next_of))]
fn next_end(number: u64, text: &[u8]) -> Result<(End, &[u8]), RecordFault>
    ensures { MatchResult result (λ read. next_of end_of number (lines_of text.now) ≡ Ok (
      read.0,
      lines_of read.1.now,
    )) (λ fault. next_of end_of number (lines_of text.now) ≡ Err fault) }
{
    let Some((line, rest)) = next_line(text) else {
        return Err(RecordFault::BadLine(number));
    };
    match end_in(line) {
        Some(end) => Ok((end, rest)),
        None => Err(RecordFault::BadLine(number)),
    }
}

/// How many steps the next line gives, and the text after it. The line has this number.
#[tactic(auto, unfolding(crate::specs::Records::next_of))]
fn next_steps(number: u64, text: &[u8]) -> Result<(u64, &[u8]), RecordFault>
    ensures { MatchResult result (λ read. next_of steps_of number (lines_of text.now) ≡ Ok (
      read.0,
      lines_of read.1.now,
    )) (λ fault. next_of steps_of number (lines_of text.now) ≡ Err fault) }
{
    let Some((line, rest)) = next_line(text) else {
        return Err(RecordFault::BadLine(number));
    };
    match steps_in(line) {
        Some(steps) => Ok((steps, rest)),
        None => Err(RecordFault::BadLine(number)),
    }
}
