//! What lines and records of traces say.

ghost use Rattle.std.specs.Prelude.{◌≡◌, [], Some, unwrap_or};
ghost use Rattle.std.specs.List.{list_all};
ghost use Rattle.std.specs.Option.{option_map};
ghost use Rattle.trace_lines.specs.Lines.{
  address_said,
  csv_behind,
  form_said,
  format_behind,
  ids_behind,
  is_text_byte,
  line_said,
  piece_said,
  record_said,
  row_flaw_at,
  said,
  shows_text,
  table_behind,
  to_page,
  to_reference,
  word_numbered,
  word_of,
};
ghost use Rattle.trace_lines.specs.Columns.{table_named, text_in};
ghost use Rattle.trace_lines.specs.declared.trace_line.TraceLine.TheVariants.{Names};

use crate::address_lines::{AddressLine, dynamorio_line, lackey_line};
use crate::columns::{table_named, text_in};
use crate::compression::compression_at;
use crate::format::{IdKind, Table, TraceFormat};
use crate::page_lines::{page_of_id, page_of_record, reference_of_line};
use crate::plain_lines::{is_left_out, plain_line};
use crate::rows::{RowFlaw, row_flaw, row_said};
use clock_policy::Key;
use guest_strings::Reference;

/// The references of a line: an access may end in another page than it begins in, and a block may have many.
#[derive(Clone, Copy, Debug, PartialEq, Eq)]
pub struct LineReferences {
    pub first: Reference,
    /// How many pages come after the first one, by their ids.
    pub more: u32,
}

/// What a line or record says.
#[derive(Clone, Copy, Debug, PartialEq, Eq)]
pub enum TraceLine<'a> {
    Refers(LineReferences),
    /// The id of a table's line is a word, which `word_of` finds; and whether the line writes.
    Word(bool),
    /// Nothing: it is blank, a remark, what a tool says of itself, or a request of no bytes.
    LeftOut,
    /// The names of a table's columns, all of which have their places now.
    Names(Table<'a>),
}

/// What the line or record of this number says, if anything.
#[inline(always)]
#[tactic(auto, unfolding(crate::specs::Lines::said))]
pub fn said<'a>(format: TraceFormat<'a>, number: u64, piece: &[u8]) -> Option<TraceLine<'a>>
    ensures { result ≡ said format.entry number piece.now }
{
    if compression_at(number, piece).is_some() {
        return None;
    }
    piece_said(format, number, piece)
}

#[inline(always)]
fn piece_said<'a>(format: TraceFormat<'a>, number: u64, piece: &[u8]) -> Option<TraceLine<'a>>
    ensures { result ≡ piece_said format.entry number piece.now }
{
    match format {
        TraceFormat::OracleGeneral => record_said(number, piece),
        _ => line_said(format, plain_line(number, piece)),
    }
}

#[inline(always)]
#[tactic(auto, unfolding(crate::specs::Lines::record_said))]
fn record_said<'a>(number: u64, bytes: &[u8]) -> Option<TraceLine<'a>>
    ensures { result ≡ record_said number bytes.now }
{
    if shows_text(number, bytes) {
        return None;
    }
    to_page(page_of_record(bytes))
}

/// Whether the first record shows that there are no records, but a text: all its bytes are characters. As a record it would give a next use
/// more than 2^56 references ahead.
#[tactic(auto, unfolding(crate::specs::Lines::shows_text))]
pub fn shows_text(number: u64, bytes: &[u8]) -> bool
    ensures { result ≡ shows_text number bytes.now }
{
    number == 1 && is_text(bytes)
}

#[inline(always)]
fn is_text(bytes: &[u8]) -> bool
    ensures { result ≡ list_all is_text_byte bytes.now }
{
    bytes.iter().all(|byte| is_text_byte(*byte))
}

/// A printable character of ASCII, or white space.
#[tactic(auto, unfolding(crate::specs::Lines::is_text_byte))]
fn is_text_byte(byte: u8) -> bool
    ensures { result ≡ is_text_byte byte }
{
    (byte >= 32 && byte < 127) || (byte >= 9 && byte < 14)
}

#[inline(always)]
#[tactic(auto, unfolding(crate::specs::Lines::line_said))]
fn line_said<'a>(format: TraceFormat<'a>, line: &[u8]) -> Option<TraceLine<'a>>
    ensures { result ≡ line_said format.entry line.now }
{
    if is_left_out(line) {
        return Some(TraceLine::LeftOut);
    }
    form_said(format, line)
}

/// What a line says that is not left out.
#[inline(always)]
fn form_said<'a>(format: TraceFormat<'a>, line: &[u8]) -> Option<TraceLine<'a>>
    ensures { result ≡ form_said format.entry line.now }
{
    match format {
        TraceFormat::Text | TraceFormat::OracleGeneral => to_reference(reference_of_line(line)),
        TraceFormat::Csv(table) => names(table_named(table, line)),
        TraceFormat::Columns(table) => row_said(table, line),
        TraceFormat::Lackey => address_said(lackey_line(line)),
        TraceFormat::DynamoRio => address_said(dynamorio_line(line)),
    }
}

/// Why the row of a table of this number says nothing.
pub fn row_flaw_at(table: Table<'_>, number: u64, piece: &[u8]) -> RowFlaw
    ensures { result ≡ row_flaw_at table.entry number piece.now }
{
    row_flaw(table, plain_line(number, piece))
}

/// The word of a line that has one.
pub fn word_of<'t>(format: TraceFormat<'_>, number: u64, piece: &'t [u8]) -> &'t [u8]
    ensures { result.now ≡ word_of format.entry number piece.now }
{
    match format {
        TraceFormat::Columns(table) => word_in(table, plain_line(number, piece)),
        _ => &piece[..0],
    }
}

fn word_in<'t>(table: Table<'_>, line: &'t [u8]) -> &'t [u8]
    ensures { result.now ≡ unwrap_or (text_in table.entry.separator table.entry.id line.now) [] }
{
    match text_in(table.separator, table.id, line) {
        Some(text) => text,
        None => &line[..0],
    }
}

/// What a line says whose word has this number: as one whose id is that number.
pub fn word_numbered<'a>(number: u64, is_written: bool) -> TraceLine<'a>
    ensures { result ≡ word_numbered number is_written }
{
    TraceLine::Refers(LineReferences {
        first: Reference {
            page: page_of_id(number),
            is_written,
        },
        more: 0,
    })
}

#[inline(always)]
fn to_page<'a>(page: Option<Key>) -> Option<TraceLine<'a>>
    ensures { result ≡ option_map to_page page }
{
    let page = page?;
    Some(TraceLine::Refers(LineReferences {
        first: Reference {
            page,
            is_written: false,
        },
        more: 0,
    }))
}

#[inline(always)]
fn to_reference<'a>(reference: Option<Reference>) -> Option<TraceLine<'a>>
    ensures { result ≡ option_map to_reference reference }
{
    let first = reference?;
    Some(TraceLine::Refers(LineReferences { first, more: 0 }))
}

fn names<'a>(table: Option<Table<'a>>) -> Option<TraceLine<'a>>
    ensures { result ≡ option_map Names table.entry }
{
    let table = table?;
    Some(TraceLine::Names(table))
}

fn address_said<'a>(line: Option<AddressLine>) -> Option<TraceLine<'a>>
    ensures { result ≡ option_map address_said line }
{
    match line? {
        AddressLine::Access(access) => Some(TraceLine::Refers(LineReferences {
            first: Reference {
                page: page_of_id(access.first),
                is_written: access.is_written,
            },
            more: access.more,
        })),
        AddressLine::Other => Some(TraceLine::LeftOut),
    }
}

/// How the lines after a line are read. After the names of its columns a table has lines of columns. After its first id it is known what
/// its ids are.
#[inline(always)]
pub fn format_behind<'a>(line: TraceLine<'a>, format: TraceFormat<'a>) -> TraceFormat<'a>
    ensures { result ≡ format_behind (Some line.entry) format.entry }
{
    match format {
        TraceFormat::Csv(table) => csv_behind(line, table),
        TraceFormat::Columns(table) => TraceFormat::Columns(table_behind(line, table)),
        _ => format,
    }
}

#[inline(always)]
fn csv_behind<'a>(line: TraceLine<'a>, table: Table<'a>) -> TraceFormat<'a>
    ensures { result ≡ csv_behind (Some line.entry) table.entry }
{
    match line {
        TraceLine::Names(found) => TraceFormat::Columns(found),
        TraceLine::Refers(_) | TraceLine::Word(_) | TraceLine::LeftOut => TraceFormat::Csv(table),
    }
}

#[inline(always)]
fn table_behind<'a>(line: TraceLine<'a>, table: Table<'a>) -> Table<'a>
    ensures { result ≡ table_behind (Some line.entry) table.entry }
{
    Table {
        id: table.id,
        volume: table.volume,
        size: table.size,
        op: table.op,
        page_size: table.page_size,
        writes: table.writes,
        separator: table.separator,
        ids: ids_behind(line, table.ids),
    }
}

/// What the ids are, once a line was read.
#[inline(always)]
fn ids_behind(line: TraceLine<'_>, ids: IdKind) -> IdKind
    ensures { result ≡ ids_behind (Some line.entry) ids }
{
    match ids {
        IdKind::Unknown => first_kind(line),
        IdKind::Numbers | IdKind::Words | IdKind::Texts => ids,
    }
}

/// The same where no id came before.
fn first_kind(line: TraceLine<'_>) -> IdKind
    ensures { result ≡ ids_behind (Some line.entry) IdKind.Unknown }
{
    match line {
        TraceLine::Refers(_) => IdKind::Numbers,
        TraceLine::Word(_) => IdKind::Words,
        TraceLine::LeftOut | TraceLine::Names(_) => IdKind::Unknown,
    }
}
