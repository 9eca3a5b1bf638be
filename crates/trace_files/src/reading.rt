//! The next line or record of a reader.

ghost use Rattle.std.specs.Prelude.{◌≡◌, ◌<◌, ◌≤◌, ◌++◌, List, ℕ, IfOk, OnOk, length, take};
ghost use Rattle.std.specs.Io.BufRead.{strip_last};
ghost use Rattle.std.specs.Io.KnownBytes.{Consumes, IsAtEnd};
ghost use Rattle.text_lines.specs.Text.{lines_of};
ghost use Rattle.trace_files.specs.References.{records_of};
ghost use Rattle.trace_files.specs.ReferenceAnswers.{TakesPiece};
ghost use Rattle.trace_files.specs.WrittenPages.{TakesPages};

use crate::written_pages::add_pages;
use guest_strings::Reference;
use std::io;
use std::io::{BufRead, ErrorKind};

/// How many bytes a record of the binary format has.
const RECORD: usize = 24;

/// Reads the next line in place of the last one, without its line feed. Answers whether there was one.
pub(crate) fn read_line<B: BufRead>(file: &mut B, line: &mut Vec<u8>) -> io::Result<bool>
    ensures { IfOk result (λ is_there. TakesPiece lines_of is_there line.new.items (B.remaining
        file.old) (B.remaining file.new)) }
{
    line.clear();
    let read = file.read_until(b'\n', line)?;
    drop_line_feed(line);
    Ok(read > 0)
}

/// Takes the line feed off a line, if it has one.
fn drop_line_feed(line: &mut Vec<u8>)
    ensures { line.new.items ≡ strip_last 10 line.old.items }
{
    let length = line.len();
    if length == 0 {
        return;
    }
    if line[length - 1] != b'\n' {
        return;
    }
    line.truncate(length - 1);
}

/// Reads the next record in place of the last one, or as many of its bytes as there are. Answers whether there was one.
pub(crate) fn read_record<B: BufRead>(file: &mut B, bytes: &mut Vec<u8>) -> io::Result<bool>
    ensures { IfOk result (λ is_there. TakesPiece records_of is_there bytes.new.items (B.remaining
        file.old) (B.remaining file.new)) }
{
    bytes.clear();
    bytes.reserve(RECORD)?;
    'bytes: while bytes.len() < RECORD {
        if read_onto(file, bytes, RECORD - bytes.len())? == 0 {
            return Ok(!bytes.is_empty());
        }
    }
    Ok(true)
}

/// Reads at least one byte and at most so many, after those that are there; none at the end. Returns how many.
fn read_onto<B: BufRead>(file: &mut B, bytes: &mut Vec<u8>, most: usize) -> io::Result<usize>
    requires some { 0 < most }
    requires few { most ≤ 24 }
    ensures appended { IfOk result (λ n. (part : List ℕ) × ((bytes.new.items ≡ bytes.old.items ++
        part) × ((length part ≡ n) × Consumes (B.remaining file.old) (B.remaining file.new)
        part))) }
    ensures few { IfOk result (λ n. n ≤ most) }
    ensures end { IfOk result (λ n. n ≡ 0 → IsAtEnd (B.remaining file.new)) }
{
    let mut part = [0u8; RECORD];
    let read = read_some(file, &mut part[..most])?;
    bytes.extend_from_slice(&part[..read])?;
    Ok(read)
}

/// One read, again where a signal interrupts it.
fn read_some<B: BufRead>(file: &mut B, part: &mut [u8]) -> io::Result<usize>
    ensures bound { IfOk result (λ n. n ≤ length part.new) }
    ensures bytes { IfOk result (λ n. Consumes (B.remaining file.old) (B.remaining file.new) (take n
        part.new)) }
    ensures end { IfOk result (λ n. n ≡ 0 → 0 < length part.old → IsAtEnd (B.remaining
        file.new)) }
{
    'tries: for _ in 0..u64::MAX {
        match file.read(part) {
            Ok(read) => return Ok(read),
            Err(error) => {
                if error.kind() != ErrorKind::Interrupted {
                    return Err(error);
                }
            }
        }
    }
    // nothing says that a reader ends: std gives up after as many turns
    Err(io::Error::from(ErrorKind::Interrupted))
}

/// Adds references to the pages of the next lines to a block, which then has so many at most: of whole lines that the reader has at hand, up to the first
/// that is not as `write_line` writes a page.
pub(crate) fn take_pages<B: BufRead>(
    file: &mut B,
    block: &mut Vec<Reference>,
    most: usize,
) -> io::Result<()>
    requires { length block.old.items ≤ most }
    ensures few { length block.new.items ≤ most }
    ensures taken { OnOk result (TakesPages (B.remaining file.old) (B.remaining file.new)
        block.old.items block.new.items) }
{
    let text = match file.fill_buf() {
        Ok(text) => text,
        Err(error) => {
            return if error.kind() == ErrorKind::Interrupted {
                Ok(())
            } else {
                Err(error)
            };
        }
    };
    let rest = add_pages(text, block, most)?;
    let size = text.len() - rest.len();
    file.consume(size);
    Ok(())
}
