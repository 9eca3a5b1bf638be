//! What is written of a string of references. To libCacheSim an object is a page: its id is the process's number times 2^32, and the page's
//! number; its size is 1, so that the size of a cache is its number of frames. Times count references from 1.

ghost use Rattle.std.specs.Prelude.{◌≡◌, ◌+◌, ◌<◌, ◌^◌, length, OnOk};
ghost use Rattle.std.specs.Io.KnownBytes.{Appends};
ghost use Rattle.page_policies.specs.NextUses.{next_uses};
ghost use Rattle.trace_lines.specs.PageIds.{id_of};
ghost use Rattle.trace_files.specs.Written.{csv_line, reference_line, next_time, short_time};
ghost use Rattle.trace_files.specs.Written.{record_bytes, records};

use byteorder::{LittleEndian, WriteBytesExt};
use clock_policy::Key;
use guest_strings::Reference;
use std::io;
use std::io::Write;

/// The columns of the text.
pub const CSV_HEADER: &str = "time,id,size";

/// How many numbers a page of a process may have.
const PAGE_NUMBERS: u64 = 1 << 32;

/// The next use of a page that is not used again: -1 in two's complement.
const NO_NEXT: u64 = u64::MAX;

fn id_of(page: Key) -> u64
    ensures { result ≡ id_of page }
{
    u64::from(page.process) * PAGE_NUMBERS + u64::from(page.vpn)
}

/// Writes a reference as a line of the text that libCacheSim reads.
pub fn write_csv<W: Write>(time: u64, page: Key, out: &mut W) -> io::Result<()>
    ensures { OnOk result (Appends (W.contents out.old) (W.contents out.new) (csv_line time page)) }
{
    let id = id_of(page);
    writeln!(out, "{time},{id},1")
}

/// Writes a reference as a line: its page, and after it a `w` where it is written.
pub fn write_line<W: Write>(reference: Reference, out: &mut W) -> io::Result<()>
    ensures { OnOk result (Appends (W.contents out.old) (W.contents out.new)
        (reference_line reference)) }
{
    let page = reference.page;
    if reference.is_written {
        writeln!(out, "{page} w")
    } else {
        writeln!(out, "{page}")
    }
}

/// The time of the reference at a place, in 32 bits.
fn short_time(at: usize) -> u32
    requires { at < 2 ^ 63 }
    ensures { result ≡ short_time at }
{
    u32::try_from(at + 1).unwrap_or(u32::MAX)
}

/// The time of the next use of the page at a place, of which so many references come before; none where all the others do.
fn next_time(references: usize, at: usize, ahead: usize) -> u64
    ensures { result ≡ next_time references at ahead }
{
    let time = (at as u64).saturating_add(ahead as u64).saturating_add(2);
    if time > references as u64 {
        return NO_NEXT;
    }
    time
}

/// Writes a record of 24 bytes, little endian: time (4 bytes), id (8), size (4), and the time of the page's next use, or -1 (8).
fn write_record<W: Write>(time: u32, page: Key, next: u64, out: &mut W) -> io::Result<()>
    ensures { OnOk result (Appends (W.contents out.old) (W.contents out.new) (record_bytes time page
        next)) }
{
    out.write_u32::<LittleEndian>(time)?;
    out.write_u64::<LittleEndian>(id_of(page))?;
    out.write_u32::<LittleEndian>(1)?;
    out.write_u64::<LittleEndian>(next)?;
    Ok(())
}

/// Writes a string as records, from how many references come before each page's next use.
pub fn write_records<W: Write>(string: &[Key], uses: &[usize], out: &mut W) -> io::Result<()>
    requires { uses.now ≡ next_uses string.now }
    ensures { OnOk result (Appends (W.contents out.old) (W.contents out.new) (records (length
        string.now) 0 string.now)) }
{
    'places: for at in 0..string.len() {
        let next = next_time(string.len(), at, uses[at]);
        write_record(short_time(at), string[at], next, out)?;
    }
    Ok(())
}
