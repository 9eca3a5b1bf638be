//! Rows of tables: which pages each refers to.

ghost use Rattle.std.specs.Prelude.{◌≡◌, ◌<◌, ◌^◌};
ghost use Rattle.trace_lines.specs.Ids.{id_in};
ghost use Rattle.trace_lines.specs.Rows.{
  block_said,
  id_of_kind,
  is_bad_id,
  is_bad_op,
  is_first_word,
  is_word,
  later_word,
  numbered_said,
  op_in,
  read_said,
  row_flaw,
  row_id,
  row_op,
  row_said,
  run_page,
  run_said,
  short,
  size_in,
  usual_op,
  volume_in,
  word_where,
};

use crate::columns::{is_id_name, is_listed, is_named, number_in, text_in};
use crate::format::{IdKind, Table};
use crate::number_text::id_in;
use crate::page_lines::page_of_id;
use crate::runs::more_pages;
use crate::trace_line::{LineReferences, TraceLine};
use clock_policy::Key;
use guest_strings::Reference;
use std::num::NonZeroU32;

/// An id of a row.
#[derive(Clone, Copy, Debug, PartialEq, Eq)]
pub enum RowId {
    Number(u64),
    Word,
}

/// What is wrong with a row that says nothing.
#[derive(Clone, Copy, Debug, PartialEq, Eq)]
pub enum RowFlaw {
    /// Its id is not of the kind that the ids are.
    Id,
    /// What should say whether it writes is unknown.
    Op,
    Other,
}

/// What a row says.
#[tactic(auto, unfolding(crate::specs::Rows::row_said))]
pub(crate) fn row_said<'a>(table: Table<'a>, line: &[u8]) -> Option<TraceLine<'a>>
    ensures { result ≡ row_said table.entry line.now }
{
    let id = row_id(table, line)?;
    let is_written = row_op(table, line)?;
    match id {
        RowId::Word => Some(TraceLine::Word(is_written)),
        RowId::Number(number) => numbered_said(table, line, number, is_written),
    }
}

/// Why a row says nothing.
#[tactic(auto, unfolding(crate::specs::Rows::row_flaw))]
pub(crate) fn row_flaw(table: Table<'_>, line: &[u8]) -> RowFlaw
    ensures { result ≡ row_flaw table.entry line.now }
{
    if is_bad_id(table, line) {
        RowFlaw::Id
    } else if is_bad_op(table, line) {
        RowFlaw::Op
    } else {
        RowFlaw::Other
    }
}

/// Whether an id is there, of another kind than the ids are.
fn is_bad_id(table: Table<'_>, line: &[u8]) -> bool
    ensures { result ≡ is_bad_id table.entry line.now }
{
    match text_in(table.separator, table.id, line) {
        None => false,
        Some(text) => is_word(text) && id_of_kind(table.ids, text).is_none(),
    }
}

/// Whether nothing but what says whether it writes is unknown.
fn is_bad_op(table: Table<'_>, line: &[u8]) -> bool
    ensures { result ≡ is_bad_op table.entry line.now }
{
    row_id(table, line).is_some() && row_op(table, line).is_none()
}

// ---- ids

fn row_id(table: Table<'_>, line: &[u8]) -> Option<RowId>
    ensures { result ≡ row_id table.entry line.now }
{
    let text = text_in(table.separator, table.id, line)?;
    id_of_kind(table.ids, text)
}

/// What a text is as an id of this kind.
fn id_of_kind(ids: IdKind, text: &[u8]) -> Option<RowId>
    ensures { result ≡ id_of_kind ids (id_in text.now) text.now }
{
    match ids {
        IdKind::Unknown => first_id(text),
        IdKind::Numbers => {
            let number = id_in(text)?;
            Some(RowId::Number(number))
        }
        IdKind::Words => later_word(text),
        IdKind::Texts => word_where(is_word(text)),
    }
}

/// The same of the first one.
fn first_id(text: &[u8]) -> Option<RowId>
    ensures { result ≡ id_of_kind IdKind.Unknown (id_in text.now) text.now }
{
    match id_in(text) {
        Some(number) => Some(RowId::Number(number)),
        None => word_where(is_first_word(text)),
    }
}

/// The same of one after a word.
fn later_word(text: &[u8]) -> Option<RowId>
    ensures { result ≡ later_word (id_in text.now) text.now }
{
    match id_in(text) {
        Some(_) => None,
        None => word_where(is_word(text)),
    }
}

fn word_where(is_so: bool) -> Option<RowId>
    ensures { result ≡ word_where is_so }
{
    if is_so { Some(RowId::Word) } else { None }
}

/// Whether a text is a word: it has a character.
fn is_word(text: &[u8]) -> bool
    ensures { result ≡ is_word text.now }
{
    !text.is_empty()
}

/// Whether it is one that a column may begin with: what a column of ids may be called is taken for a line of names.
fn is_first_word(text: &[u8]) -> bool
    ensures { result ≡ is_first_word text.now }
{
    is_word(text) && !is_id_name(text)
}

// ---- reads and writes

/// Whether a row writes.
fn row_op(table: Table<'_>, line: &[u8]) -> Option<bool>
    ensures { result ≡ row_op table.entry line.now }
{
    match table.op {
        None => Some(false),
        Some(column) => {
            let text = text_in(table.separator, column, line)?;
            op_in(table.writes, text)
        }
    }
}

/// Whether a text means a write: where the words for a write are not listed, it has to be known.
fn op_in(writes: Option<&str>, text: &[u8]) -> Option<bool>
    ensures { result ≡ op_in writes.entry text.now }
{
    match writes {
        None => usual_op(text),
        Some(list) => Some(is_listed(list.as_bytes(), text)),
    }
}

#[tactic(auto, unfolding(crate::specs::Rows::usual_op))]
fn usual_op(text: &[u8]) -> Option<bool>
    ensures { result ≡ usual_op text.now }
{
    if is_named(text, b"w") || is_named(text, b"write") {
        Some(true)
    } else if is_named(text, b"r") || is_named(text, b"read") {
        Some(false)
    } else {
        None
    }
}

// ---- pages

/// What a row says whose id is a number.
fn numbered_said<'a>(
    table: Table<'_>,
    line: &[u8],
    number: u64,
    is_written: bool,
) -> Option<TraceLine<'a>>
    ensures { result ≡ numbered_said table.entry line.now number is_written }
{
    let volume = volume_in(table, line)?;
    match table.page_size {
        None => run_said(volume, number, number, is_written),
        Some(page_size) => {
            let size = size_in(table, line)?;
            block_said(volume, number, size, page_size, is_written)
        }
    }
}

/// The number of a row's volume, where volumes are read.
fn volume_in(table: Table<'_>, line: &[u8]) -> Option<Option<u32>>
    ensures { result ≡ volume_in table.entry line.now }
{
    match table.volume {
        None => Some(None),
        Some(column) => {
            let number = number_in(table.separator, column, line)?;
            let volume = short(number)?;
            Some(Some(volume))
        }
    }
}

/// A number of 32 bits.
#[tactic(auto, unfolding(crate::specs::Rows::short))]
fn short(number: u64) -> Option<u32>
    ensures { result ≡ short number }
{
    if number > 4_294_967_295 {
        return None;
    }
    Some(number as u32)
}

/// The size of a row's block; 1 where sizes are not read.
fn size_in(table: Table<'_>, line: &[u8]) -> Option<u64>
    ensures { result ≡ size_in table.entry line.now }
{
    match table.size {
        None => Some(1),
        Some(column) => number_in(table.separator, column, line),
    }
}

/// What a row says of a block: each page that it touches is referred to.
#[tactic(auto, unfolding(crate::specs::Rows::block_said))]
fn block_said<'a>(
    volume: Option<u32>,
    offset: u64,
    size: u64,
    page_size: NonZeroU32,
    is_written: bool,
) -> Option<TraceLine<'a>>
    ensures { result ≡ block_said volume offset size page_size.value is_written }
{
    if size == 0 {
        return Some(TraceLine::LeftOut);
    }
    let last = offset.checked_add(size - 1)?;
    let unit = u64::from(page_size.get());
    run_said(volume, offset / unit, last / unit, is_written)
}

/// What a row says of the pages from the first to the last of a volume.
fn run_said<'a>(
    volume: Option<u32>,
    first: u64,
    last: u64,
    is_written: bool,
) -> Option<TraceLine<'a>>
    ensures { result ≡ run_said volume first last is_written }
{
    let more = more_pages(first, last)?;
    let page = run_page(volume, first, last)?;
    Some(TraceLine::Refers(LineReferences {
        first: Reference { page, is_written },
        more,
    }))
}

/// The page of the first: the pages of a volume have numbers of 32 bits.
#[tactic(auto, unfolding(crate::specs::Rows::short))]
fn run_page(volume: Option<u32>, first: u64, last: u64) -> Option<Key>
    ensures { result ≡ run_page volume first last }
{
    match volume {
        None => Some(page_of_id(first)),
        Some(process) => {
            let vpn = short(first)?;
            let _ = short(last)?;
            Some(Key { process, vpn })
        }
    }
}
