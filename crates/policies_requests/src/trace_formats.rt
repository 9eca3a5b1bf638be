//! Formats of traces, and the columns of tables.

ghost use Rattle.std.specs.Prelude.{◌≡◌, Some, codes, option_map, IfOk, IfSome};
ghost use Rattle.clap.specs.Matches.{found_of};
ghost use Rattle.clap.specs.Walk.{first_of, rows_of};
ghost use Rattle.policies_requests.specs.Formats.{
  AsksFormat,
  HasNoTable,
  IsKindAsked,
  IsNamed,
  IsPageSizeAsked,
  IsTableAsked,
};

use crate::columns::{TableColumns, are_placed, columns_in, usual_columns};
use crate::fault::RequestFault;
use crate::options::{found, number_from};
use clap::ArgMatches;
use std::num::NonZeroU32;
use trace_files::{IdKind, Table, TraceFormat};

/// What `--format` may be.
const FORMATS: &str = "text, csv, oraclegeneral, lackey or dynamorio";

/// What `--columns` may be.
const COLUMNS: &str =
    "id or offset, volume, size, op and time, each once, with the name of its column or its number from 1 on, as id=lba,time=ts or time=1,id=2; id or offset has to be there";

/// What `--ids` may be.
const IDS: &str = "words or numbers";

/// What `--page-size` may be.
const PAGE_SIZES: &str = "a number of the units that offsets have, from 1 to 4294967295";

/// Why these options go with one format only.
const TABLES: &str = "only csv has columns";

/// Why other options need a list of columns.
const OFFSETS: &str = "it needs a column offset=";

const OPS: &str = "it needs a column op=";

/// Why words go with neither offsets nor volumes.
const NUMBERS: &str = "offsets, and ids of volumes, are numbers";

/// The format that a trace is in: text where none is named.
pub(crate) fn format<'a>(matches: &ArgMatches<'a>) -> Result<TraceFormat<'a>, RequestFault<'a>>
    ensures { IfOk result (AsksFormat (rows_of (found_of matches.now))) }
{
    match format_name(matches)? {
        FormatName::Text => plain_format(matches, TraceFormat::Text),
        FormatName::Csv => table_format(matches),
        FormatName::OracleGeneral => plain_format(matches, TraceFormat::OracleGeneral),
        FormatName::Lackey => plain_format(matches, TraceFormat::Lackey),
        FormatName::DynamoRio => plain_format(matches, TraceFormat::DynamoRio),
    }
}

/// A name of a format.
#[derive(Clone, Copy, Debug, PartialEq, Eq)]
enum FormatName {
    Text,
    Csv,
    OracleGeneral,
    Lackey,
    DynamoRio,
}

fn format_name<'a>(matches: &ArgMatches<'a>) -> Result<FormatName, RequestFault<'a>>
    ensures { IfOk result (λ name. IsNamed name (first_of (codes "format")
        (rows_of (found_of matches.now)))) }
{
    let Some(name) = found(matches, "format") else {
        return Ok(FormatName::Text);
    };
    match name_in(name) {
        Some(format) => Ok(format),
        None => Err(RequestFault::Value("format", name, FORMATS)),
    }
}

fn name_in(name: &str) -> Option<FormatName>
    ensures { IfSome result (λ format. IsNamed format (Some name.now)) }
{
    match name {
        "text" => Some(FormatName::Text),
        "csv" => Some(FormatName::Csv),
        "oraclegeneral" => Some(FormatName::OracleGeneral),
        "lackey" => Some(FormatName::Lackey),
        "dynamorio" => Some(FormatName::DynamoRio),
        _ => None,
    }
}

/// A format without columns: nothing is said of columns.
fn plain_format<'a>(
    matches: &ArgMatches<'a>,
    format: TraceFormat<'a>,
) -> Result<TraceFormat<'a>, RequestFault<'a>>
    ensures same { IfOk result (λ told. told ≡ format.entry) }
    ensures none { IfOk result (λ _. HasNoTable (rows_of (found_of matches.now))) }
{
    if found(matches, "columns").is_some() {
        return Err(RequestFault::Together("columns", "format", TABLES));
    }
    if found(matches, "ids").is_some() {
        return Err(RequestFault::Together("ids", "format", TABLES));
    }
    if found(matches, "page-size").is_some() {
        return Err(RequestFault::Together("page-size", "format", TABLES));
    }
    if found(matches, "writes").is_some() {
        return Err(RequestFault::Together("writes", "format", TABLES));
    }
    Ok(format)
}

/// A table: its first line names its columns, unless all of them have numbers.
fn table_format<'a>(matches: &ArgMatches<'a>) -> Result<TraceFormat<'a>, RequestFault<'a>>
    ensures { IfOk result (IsTableAsked (rows_of (found_of matches.now))) }
{
    let columns = columns(matches)?;
    let page_size = page_size(matches, columns.is_offset)?;
    let writes = writes(matches, columns.op.is_some())?;
    let ids = id_kind(matches, page_size.is_some() || columns.volume.is_some())?;
    let table = Table {
        id: columns.id,
        volume: columns.volume,
        size: columns.size,
        op: columns.op,
        page_size,
        writes,
        separator: None,
        ids,
    };
    if are_placed(columns) {
        return Ok(TraceFormat::Columns(table));
    }
    Ok(TraceFormat::Csv(table))
}

/// The columns that are read: only the ids, by a usual name, where none are listed.
fn columns<'a>(matches: &ArgMatches<'a>) -> Result<TableColumns<'a>, RequestFault<'a>> {
    let Some(list) = found(matches, "columns") else {
        return Ok(usual_columns());
    };
    match columns_in(list) {
        Some(columns) => Ok(columns),
        None => Err(RequestFault::Value("columns", list, COLUMNS)),
    }
}

/// What the ids are: offsets and ids of volumes are numbers.
fn id_kind<'a>(matches: &ArgMatches<'a>, are_numbers: bool) -> Result<IdKind, RequestFault<'a>>
    ensures { IfOk result (λ kind. IsKindAsked are_numbers kind (first_of (codes "ids")
        (rows_of (found_of matches.now)))) }
{
    match found(matches, "ids") {
        None if are_numbers => Ok(IdKind::Numbers),
        None => Ok(IdKind::Unknown),
        Some("numbers") => Ok(IdKind::Numbers),
        Some("words") if are_numbers => Err(RequestFault::Together("ids", "columns", NUMBERS)),
        Some("words") => Ok(IdKind::Texts),
        Some(other) => Err(RequestFault::Value("ids", other, IDS)),
    }
}

/// How many units of an offset a page has.
fn page_size<'a>(
    matches: &ArgMatches<'a>,
    is_offset: bool,
) -> Result<Option<NonZeroU32>, RequestFault<'a>>
    ensures { IfOk result (λ size. IsPageSizeAsked (option_map (λ n. n.value) size)
        (first_of (codes "page-size") (rows_of (found_of matches.now)))) }
{
    if is_offset {
        let size = number_from(matches, "page-size", 4096, 1, u32::MAX, PAGE_SIZES)?;
        return Ok(NonZeroU32::new(size));
    }
    match found(matches, "page-size") {
        None => Ok(None),
        Some(_) => Err(RequestFault::Together("page-size", "columns", OFFSETS)),
    }
}

/// The words that mean a write.
fn writes<'a>(matches: &ArgMatches<'a>, has_op: bool) -> Result<Option<&'a str>, RequestFault<'a>>
    ensures { IfOk result (λ words. option_map (λ text. text.now) words ≡ first_of (codes "writes")
        (rows_of (found_of matches.now))) }
{
    match found(matches, "writes") {
        None => Ok(None),
        Some(_) if !has_op => Err(RequestFault::Together("writes", "columns", OPS)),
        Some(words) => Ok(Some(words)),
    }
}
