//! Processes as JSON: of each what is not as in the picture before.

use crate::hart_json::write_harts;
use crate::json_text::comma_before;
use crate::picture::Picture;
use crate::shown_process::ShownProcess;
use crate::shown_table::ShownTable;
use flat_machine::End;
use process_text::Ending;
use std::io;
use std::io::Write;

/// Writes processes, `null` for one that is as it was.
pub(crate) fn write_processes<W: Write>(
    processes: &[ShownProcess],
    before: Option<&Picture>,
    out: &mut W,
) -> io::Result<()> {
    for (number, process) in processes.iter().enumerate() {
        write!(out, "{}", comma_before(number))?;
        match process_before(before, number) {
            Some(was) if was == process => write!(out, "null")?,
            Some(was) => write_process(process, Some(was), out)?,
            None => write_process(process, None, out)?,
        }
    }
    Ok(())
}

fn process_before<'a>(before: Option<&'a Picture>, number: usize) -> Option<&'a ShownProcess> {
    before?.processes.as_slice().get(number)
}

fn write_process<W: Write>(
    process: &ShownProcess,
    old: Option<&ShownProcess>,
    out: &mut W,
) -> io::Result<()> {
    write_end(process.end, out)?;
    write!(out, ",\"harts\":[")?;
    write_harts(process.harts.as_slice(), old, out)?;
    write!(out, "],\"tables\":[")?;
    write_tables(process.page_tables.as_slice(), old, out)?;
    write!(out, "]}}")
}

fn write_end<W: Write>(end: Option<End>, out: &mut W) -> io::Result<()> {
    match end {
        Some(end) => write!(out, "{{\"end\":\"{}\"", Ending(end)),
        None => write!(out, "{{\"end\":null"),
    }
}

/// Writes page tables by their words, `null` for one that is as it was.
fn write_tables<W: Write>(
    tables: &[ShownTable],
    old: Option<&ShownProcess>,
    out: &mut W,
) -> io::Result<()> {
    for (number, table) in tables.iter().enumerate() {
        write!(out, "{}", comma_before(number))?;
        match table_before(old, number) {
            Some(was) if was == table => write!(out, "null")?,
            _ => write_table(table, out)?,
        }
    }
    Ok(())
}

fn table_before<'a>(old: Option<&'a ShownProcess>, number: usize) -> Option<&'a ShownTable> {
    old?.page_tables.as_slice().get(number)
}

fn write_table<W: Write>(table: &ShownTable, out: &mut W) -> io::Result<()> {
    write!(out, "[")?;
    let mut comma = "";
    for word in table.words.as_slice() {
        write!(out, "{comma}[{},{}]", word.index, word.word)?;
        comma = ",";
    }
    write!(out, "]")
}
