//! Writes the text of a record.

ghost use Rattle.std.specs.Prelude.{◌≡◌, OnOk, map, codes};
ghost use Rattle.std.specs.List.{flat_map};
ghost use Rattle.std.specs.Io.KnownBytes.{Appends};
ghost use Rattle.hex.specs.Hex.{encode_lower};
ghost use Rattle.run_records.specs.RecordLines.{end_text, fingerprint_text, steps_text, turn_text};
ghost use Rattle.run_records.specs.Records.{closing_lines, ended, record_text, value_of};

use crate::fingerprint::Fingerprint;
use crate::record::{Closing, Record};
use flat_machine::{End, Turn};
use hex::encode_to_slice;
use itoa::Buffer;
use std::io;
use std::io::Write;

/// Writes a record.
pub fn write_record<W: Write>(told: &Record, out: &mut W) -> io::Result<()>
    ensures { OnOk result (Appends (W.contents out.old) (W.contents out.new) (record_text
        (value_of told.now))) }
{
    out.write_all(b"guest-record 1\n")?;
    write_fingerprint("image", &told.image, out)?;
    write_fingerprint("input", &told.input, out)?;
    write_turns(told.turns.as_slice(), out)?;
    write_closing(&told.closing, out)?;
    Ok(())
}

#[tactic(auto, using(crate::proofs::TurnTexts::turn_on))]
fn write_turns<W: Write>(turns: &[Turn], out: &mut W) -> io::Result<()>
    ensures { OnOk result (Appends (W.contents out.old) (W.contents out.new) (flat_map ended
        (map turn_text turns.now))) }
{
    'turns: for turn in turns {
        write_turn(*turn, out)?;
    }
    Ok(())
}

#[tactic(auto, unfolding(crate::specs::RecordLines::turn_text))]
fn write_turn<W: Write>(turn: Turn, out: &mut W) -> io::Result<()>
    ensures { OnOk result (Appends (W.contents out.old) (W.contents out.new) (ended (turn_text turn))) }
{
    let mut number = Buffer::new();
    out.write_all(number.format(turn.hart).as_bytes())?;
    out.write_all(b" ")?;
    out.write_all(number.format(turn.count).as_bytes())?;
    out.write_all(b"\n")
}

fn write_closing<W: Write>(closing: &Closing, out: &mut W) -> io::Result<()>
    ensures { OnOk result (Appends (W.contents out.old) (W.contents out.new) (flat_map ended
        (closing_lines closing.now))) }
{
    write_end(closing.end, out)?;
    write_steps(closing.steps, out)?;
    write_fingerprint("output", &closing.output, out)
}

#[tactic(auto, unfolding(crate::specs::RecordLines::end_text))]
fn write_end<W: Write>(end: End, out: &mut W) -> io::Result<()>
    ensures { OnOk result (Appends (W.contents out.old) (W.contents out.new) (ended (end_text end))) }
{
    match end {
        End::Exited(status) => writeln!(out, "exited {status}"),
        End::Trapped {
            hart,
            cause,
            pc,
            value,
        } => {
            let cause = cause.number();
            writeln!(out, "trapped {hart} {cause} {pc} {value}")
        }
        End::Killed(cause) => {
            let cause = cause.number();
            writeln!(out, "killed {cause}")
        }
    }
}

#[tactic(auto, unfolding(crate::specs::RecordLines::steps_text))]
fn write_steps<W: Write>(steps: u64, out: &mut W) -> io::Result<()>
    ensures { OnOk result (Appends (W.contents out.old) (W.contents out.new) (ended
        (steps_text steps))) }
{
    writeln!(out, "steps {steps}")
}

#[tactic(auto, unfolding(crate::specs::RecordLines::fingerprint_text))]
fn write_fingerprint<W: Write>(name: &str, print: &Fingerprint, out: &mut W) -> io::Result<()>
    ensures { OnOk result (Appends (W.contents out.old) (W.contents out.new) (ended
        (fingerprint_text name.now print.now))) }
{
    let digits = digits_of(&print.digest);
    let length = print.length;
    out.write_all(name.as_bytes())?;
    out.write_all(b" ")?;
    out.write_all(digits.as_slice())?;
    writeln!(out, " {length}")
}

/// The hexadecimal digits of a digest, in lower case.
pub fn digits_of(digest: &[u8; 32]) -> [u8; 64]
    ensures { result ≡ encode_lower digest.now }
{
    let mut digits = [0u8; 64];
    // Two digits of each byte are as many as there is room for.
    let _ = encode_to_slice(digest.as_slice(), &mut digits);
    digits
}
