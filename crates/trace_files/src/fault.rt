//! Why a trace is not read to its end.

use std::alloc::AllocError;
use thiserror::Error;
use trace_lines::{Column, Compression};

/// Why a trace is not read to its end. Lines and records are counted from 1.
#[derive(Debug, Drop, Error)]
pub enum TraceFault<'a> {
    #[error("no memory")]
    NoMemory,
    #[error("{0}: cannot read")]
    CannotRead(&'a str),
    #[error("{0}: no references")]
    Empty(&'a str),
    /// The column that the first line does not name.
    #[error("{0}: its first line names no column {1}")]
    NoColumn(&'a str, Column<'a>),
    /// A bad line: its number, and its text.
    #[error("line {0}: bad line: {1}")]
    Line(u64, String),
    #[error("line {0}: bad id: {1}: ids are all numbers, or words and no numbers; if line 1 has names, use them, as --columns id=NAME; --ids words reads any text as a word")]
    Id(u64, String),
    #[error("line {0}: bad op: {1}: w and write are writes, r and read are reads; --writes lists other words that mean a write; if line 1 has names, use them, as --columns op=NAME")]
    Op(u64, String),
    /// A text where records were asked for.
    #[error("{0}: it is a text, and no records of 24 bytes; --format text or csv reads one")]
    Text(&'a str),
    #[error("record {0}: bad record: {1} bytes of 24")]
    Record(u64, usize),
    /// A file as a program makes it that compresses files.
    #[error("{0}: it is compressed by {1}; what `{1} -dc` makes of it can be read, by the name -")]
    Compressed(&'a str, Compression),
}

impl From<AllocError> for TraceFault<'_> {
    fn from(_: AllocError) -> Self {
        TraceFault::NoMemory
    }
}
