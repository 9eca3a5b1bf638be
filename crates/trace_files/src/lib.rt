//! Traces in files: strings of references as other tools and `policies trace` write them, read as they come; and what is written of a string.
#![tactic(auto)]

mod fault;
mod laws;
mod lines;
mod next_reference;
mod pieces;
mod reading;
mod trace_file;
mod whole_trace;
mod word_list;
mod writing;
mod written_pages;

pub use fault::TraceFault;
pub use laws::{
    ids_have_pages_of_their_own, written_lines_are_read, written_records_are_read,
    written_rows_are_read,
};
pub use trace_file::{BLOCK, TraceFile, open_trace};
pub use trace_lines::{Column, Compression, IdKind, Table, TraceFormat, marks_writes};
pub use whole_trace::{read_references, read_sample, read_whole};
pub use writing::{CSV_HEADER, write_csv, write_line, write_records};
