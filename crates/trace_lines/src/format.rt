//! How a string of references is written.

ghost use Rattle.std.specs.Prelude.{◌≡◌};
ghost use Rattle.trace_lines.specs.Lines.{marks_writes};

use std::fmt;
use std::num::NonZeroU32;

/// A column of a table.
#[derive(Clone, Copy, Debug, PartialEq, Eq)]
pub enum Column<'a> {
    /// By its place, counted from 0.
    At(usize),
    /// By its name in the first line, in capital or small letters.
    Named(&'a str),
    /// By a name that columns of ids usually have.
    Usual,
}

impl fmt::Display for Column<'_> {
    fn fmt<W: fmt::Write>(&self, f: &mut fmt::Formatter<W>) -> fmt::Result {
        match *self {
            Column::At(place) => write!(f, "{place}"),
            Column::Named(name) => write!(f, "`{name}`"),
            Column::Usual => f.write_str("`id`, `obj_id`, `object_id`, `key` or `page`"),
        }
    }
}

/// What the ids of a column are.
#[derive(Clone, Copy, Debug, PartialEq, Eq)]
pub enum IdKind {
    /// The first one shows it.
    Unknown,
    Numbers,
    /// Texts that are no numbers.
    Words,
    /// Texts of any kind.
    Texts,
}

/// Which columns of a table are read, and how.
#[derive(Clone, Copy, Debug, PartialEq, Eq)]
pub struct Table<'a> {
    /// The ids of objects, or the offsets of blocks.
    pub id: Column<'a>,
    /// Numbers of volumes, each of which has ids of its own.
    pub volume: Option<Column<'a>>,
    /// The sizes of blocks.
    pub size: Option<Column<'a>>,
    /// What says whether a reference writes.
    pub op: Option<Column<'a>>,
    /// How many units of an offset a page has, where the ids are offsets.
    pub page_size: Option<NonZeroU32>,
    /// The words that mean a write, separated by commas; all others mean a read.
    pub writes: Option<&'a str>,
    /// What separates the columns; where it is not known, the first separator of each line.
    pub separator: Option<u8>,
    pub ids: IdKind,
}

/// How a string of references is written.
#[derive(Clone, Copy, Debug, PartialEq, Eq)]
pub enum TraceFormat<'a> {
    /// A page a line: the numbers of a process and of a page.
    Text,
    /// A line with the names of columns, and then a reference a line.
    Csv(Table<'a>),
    /// The lines of such a table after that of the names; all columns are known by their places.
    Columns(Table<'a>),
    /// The binary format of libCacheSim whose records know the next use.
    OracleGeneral,
    /// What valgrind's lackey writes: an access a line.
    Lackey,
    /// What DynamoRIO's clients write as text.
    DynamoRio,
}

/// Whether traces of a format mark writes.
pub fn marks_writes(format: TraceFormat<'_>) -> bool
    ensures { result ≡ marks_writes format.entry }
{
    match format {
        TraceFormat::Text | TraceFormat::Lackey | TraceFormat::DynamoRio => true,
        TraceFormat::Csv(table) | TraceFormat::Columns(table) => table.op.is_some(),
        TraceFormat::OracleGeneral => false,
    }
}
