//! Lines of columns.

ghost use Rattle.std.specs.Prelude.{◌≡◌, ◌∷◌, ◌<◌, ◌≤◌, IfSome, false, length, option_copied, option_map, slice_get, unwrap_or};
ghost use Rattle.trace_lines.specs.Columns.{
  field_size,
  field_text,
  fields_behind,
  fields_of,
  is_column,
  is_id_name,
  is_listed,
  is_named,
  is_separator,
  number_in,
  place_named,
  placed,
  placed_where,
  quoted_after,
  separator_of,
  table_named,
  text_in,
  trimmed,
  unquoted,
};

use crate::format::{Column, Table};
use crate::number_text::id_in;

/// Text between two quotes separates nothing.
const QUOTE: u8 = b'"';

/// A comma, a semicolon or a tab.
fn is_separator(byte: u8) -> bool
    ensures { result ≡ is_separator byte }
{
    byte == b',' || byte == b';' || byte == b'\t'
}

/// Whether the text after a character is quoted.
fn quoted_after(is_quoted: bool, byte: u8) -> bool
    ensures { result ≡ quoted_after is_quoted byte }
{
    if byte == QUOTE { !is_quoted } else { is_quoted }
}

/// The first separator of a line that is not quoted, or a comma.
#[tactic(auto, unfolding(crate::specs::Columns::separator_from))]
fn separator_of(line: &[u8]) -> u8
    ensures { result ≡ separator_of line.now }
{
    let mut is_quoted = false;
    let mut rest = line;
    'bytes: while let Some((byte, others)) = rest.split_first() {
        if is_separator(*byte) && !is_quoted {
            return *byte;
        }
        is_quoted = quoted_after(is_quoted, *byte);
        rest = others;
    }
    b','
}

/// How many bytes the first field of a line has: those before a separator that is not quoted, or all.
#[tactic(auto, unfolding(crate::specs::Columns::field_size))]
fn field_size(line: &[u8], separator: u8) -> usize
    ensures size { result ≡ field_size separator false line.now }
    ensures bound { result ≤ length line.now }
{
    let mut is_quoted = false;
    let mut size = 0;
    let mut rest = line;
    'bytes: while let Some((byte, others)) = rest.split_first() {
        if *byte == separator && !is_quoted {
            return size;
        }
        is_quoted = quoted_after(is_quoted, *byte);
        rest = others;
        size += 1;
    }
    size
}

/// The first field of a line, and the text after its separator, if it has one.
#[tactic(auto, using(crate::proofs::ColumnLaws::whole_field))]
fn next_field(line: &[u8], separator: u8) -> (&[u8], Option<&[u8]>)
    ensures fields { fields_of separator line.now ≡ result.0.now ∷ fields_behind separator
        (option_copied result.1) }
    ensures shorter { IfSome result.1 (λ rest. length rest.now < length line.now) }
{
    let size = field_size(line, separator);
    if size == line.len() {
        return (line, None);
    }
    (&line[..size], Some(&line[size + 1..]))
}

/// The text in a column of a line.
#[tactic(auto, using(crate::proofs::ColumnLaws::get_behind, crate::proofs::ColumnLaws::get_first, crate::proofs::ColumnLaws::get_none))]
fn field(line: &[u8], separator: u8, place: usize) -> Option<&[u8]>
    ensures { option_copied result ≡ slice_get (fields_of separator line.now) place }
{
    let mut rest = line;
    let mut left = place;
    'columns: while left > 0 {
        let (_, Some(behind)) = next_field(rest, separator) else {
            return None;
        };
        rest = behind;
        left -= 1;
    }
    let (field, _) = next_field(rest, separator);
    Some(field)
}

/// A text without the white space at both its ends.
fn trimmed(text: &[u8]) -> &[u8]
    ensures { result.now ≡ trimmed text.now }
{
    text.trim_ascii()
}

/// A text without the quotes at both its ends.
#[tactic(auto, unfolding(crate::specs::Columns::unquoted))]
fn unquoted(text: &[u8]) -> &[u8]
    ensures { result.now ≡ unquoted text.now }
{
    let quote = b"\"".as_slice();
    if text.len() > 1 && text.starts_with(quote) && text.ends_with(quote) {
        &text[1..text.len() - 1]
    } else {
        text
    }
}

/// What a column of ids may be called.
#[tactic(auto, unfolding(crate::specs::Columns::is_id_name))]
pub(crate) fn is_id_name(text: &[u8]) -> bool
    ensures { result ≡ is_id_name text.now }
{
    is_named(text, b"id")
        || is_named(text, b"obj_id")
        || is_named(text, b"object_id")
        || is_named(text, b"key")
        || is_named(text, b"page")
}

/// Whether a text is a name, in capital or small letters.
pub(crate) fn is_named(text: &[u8], name: &[u8]) -> bool
    ensures { result ≡ is_named name.now text.now }
{
    text.eq_ignore_ascii_case(name)
}

/// Whether a list of words, separated by commas, has a text, in capital or small letters.
#[tactic(auto, unfolding(crate::specs::Columns::is_listed))]
pub(crate) fn is_listed(list: &[u8], text: &[u8]) -> bool
    ensures { result ≡ is_listed list.now text.now }
{
    let mut rest = list;
    'words: loop {
        let (word, behind) = next_field(rest, b',');
        if is_named(text, word) {
            return true;
        }
        let Some(others) = behind else {
            return false;
        };
        rest = others;
    }
}

/// Whether a name in the first line is that of a column.
fn is_column(column: Column<'_>, text: &[u8]) -> bool
    ensures { result ≡ is_column column.entry text.now }
{
    match column {
        Column::At(_) => false,
        Column::Named(name) => is_named(text, name.as_bytes()),
        Column::Usual => is_id_name(text),
    }
}

/// The place of the first column that has the name.
#[tactic(auto, unfolding(crate::specs::Columns::place_named))]
fn place_named(names: &[u8], separator: u8, column: Column<'_>) -> Option<usize>
    ensures { result ≡ place_named separator names.now column.entry }
{
    let mut place = 0;
    let mut rest = names;
    'columns: loop {
        let (name, behind) = next_field(rest, separator);
        if is_column(column, unquoted(trimmed(name))) {
            return Some(place);
        }
        rest = behind?;
        place += 1;
    }
}

/// A column by its place.
fn placed<'a>(names: &[u8], separator: u8, column: Column<'a>) -> Option<Column<'a>>
    ensures { result ≡ placed separator names.now column.entry }
{
    match column {
        Column::At(_) => Some(column),
        Column::Named(_) | Column::Usual => {
            let place = place_named(names, separator, column)?;
            Some(Column::At(place))
        }
    }
}

/// The same of one that may be there.
fn placed_where<'a>(
    names: &[u8],
    separator: u8,
    column: Option<Column<'a>>,
) -> Option<Option<Column<'a>>>
    ensures { result ≡ placed_where separator names.now column.entry }
{
    match column {
        None => Some(None),
        Some(column) => {
            let column = placed(names, separator, column)?;
            Some(Some(column))
        }
    }
}

/// A table with all its columns by their places, by the line that names its columns.
pub(crate) fn table_named<'a>(table: Table<'a>, names: &[u8]) -> Option<Table<'a>>
    ensures { result ≡ table_named table.entry names.now }
{
    let separator = separator_of(names);
    let id = placed(names, separator, table.id)?;
    let volume = placed_where(names, separator, table.volume)?;
    let size = placed_where(names, separator, table.size)?;
    let op = placed_where(names, separator, table.op)?;
    Some(Table {
        id,
        volume,
        size,
        op,
        page_size: table.page_size,
        writes: table.writes,
        separator: Some(separator),
        ids: table.ids,
    })
}

/// The first column that the line of names lacks, if it lacks one.
pub fn column_lacking<'a>(table: Table<'a>, names: &[u8]) -> Option<Column<'a>> {
    let separator = separator_of(names);
    for column in [Some(table.id), table.volume, table.size, table.op] {
        if let Some(column) = column {
            if placed(names, separator, column).is_none() {
                return Some(column);
            }
        }
    }
    None
}

/// The text in a column of a line. The rest of the line is not looked at.
pub(crate) fn text_in<'t>(
    separator: Option<u8>,
    column: Column<'_>,
    line: &'t [u8],
) -> Option<&'t [u8]>
    ensures { option_copied result ≡ text_in separator column.entry line.now }
{
    match column {
        Column::At(place) => field_text(separator, place, line),
        Column::Named(_) | Column::Usual => None,
    }
}

/// The text at a place of a line.
fn field_text(separator: Option<u8>, place: usize, line: &[u8]) -> Option<&[u8]>
    ensures { option_copied result ≡ option_map field_text (slice_get (fields_of (unwrap_or
        separator (separator_of line.now)) line.now) place) }
{
    let separator = column_separator(separator, line);
    let field = field(line, separator, place)?;
    Some(unquoted(trimmed(field)))
}

/// The number in a column of a line.
pub(crate) fn number_in(separator: Option<u8>, column: Column<'_>, line: &[u8]) -> Option<u64>
    ensures { result ≡ number_in separator column.entry line.now }
{
    let text = text_in(separator, column, line)?;
    id_in(text)
}

/// What separates the columns of a line.
fn column_separator(separator: Option<u8>, line: &[u8]) -> u8
    ensures { result ≡ unwrap_or separator (separator_of line.now) }
{
    match separator {
        Some(separator) => separator,
        None => separator_of(line),
    }
}
