//! Lines and records of traces, as `policies` and other tools write them: which pages each refers to.
#![tactic(auto)]

mod address_lines;
mod columns;
mod compression;
mod format;
mod number_text;
mod page_lines;
mod plain_lines;
mod rows;
mod runs;
mod trace_line;

pub use columns::column_lacking;
pub use compression::{Compression, compression_at};
pub use format::{Column, IdKind, Table, TraceFormat, marks_writes};
pub use rows::{RowFlaw, RowId};
pub use runs::next_page;
pub use trace_line::{
    LineReferences, TraceLine, format_behind, row_flaw_at, said, shows_text, word_numbered, word_of,
};
