//! The report of a process that has ended.

ghost use Rattle.std.specs.Prelude.{◌≡◌, OnOk};
ghost use Rattle.std.specs.Io.KnownBytes.{Appends};
ghost use Rattle.process_text.specs.ProcessText.{process_text, output_text, length_text, end_text};

use crate::ending_text::Ending;
use flat_machine::End;
use std::io;
use std::io::Write;

/// Writes the output of a process, and how it ended and after how many steps.
pub fn write_process<W: Write>(
    number: usize,
    output: &[u8],
    end: End,
    steps: u64,
    out: &mut W,
) -> io::Result<()>
    ensures { OnOk result (Appends (W.contents out.old) (W.contents out.new)
        (process_text number output.now end steps)) }
{
    write_output(number, output, out)?;
    write_end(number, end, steps, out)
}

/// Writes a line with the number of bytes of a process's output, and then the output.
fn write_output<W: Write>(number: usize, output: &[u8], out: &mut W) -> io::Result<()>
    ensures { OnOk result (Appends (W.contents out.old) (W.contents out.new)
        (output_text number output.now)) }
{
    write_length(number, output.len(), out)?;
    out.write_all(output)?;
    out.write_all(b"\n")
}

#[tactic(auto, unfolding(crate::specs::ProcessText::length_text))]
fn write_length<W: Write>(number: usize, length: usize, out: &mut W) -> io::Result<()>
    ensures { OnOk result (Appends (W.contents out.old) (W.contents out.new)
        (length_text number length)) }
{
    writeln!(out, "process {number} output {length}")
}

#[tactic(auto, unfolding(crate::specs::ProcessText::end_text))]
fn write_end<W: Write>(number: usize, end: End, steps: u64, out: &mut W) -> io::Result<()>
    ensures { OnOk result (Appends (W.contents out.old) (W.contents out.new)
        (end_text number end steps)) }
{
    let ending = Ending(end);
    writeln!(out, "process {number} {ending} after {steps} steps")
}
