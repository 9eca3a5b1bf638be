//! The lines or records of a trace, one after another.

ghost use Rattle.std.specs.Prelude.{◌≡◌, IfErr, OnOk};
ghost use Rattle.trace_files.specs.References.{
  BadLine,
  Breaks,
  NoIds,
  counted,
  flaw_of,
  is_of_addresses,
  line_given,
  piece_flaw,
  record_flaw,
  referring,
  table_flaw,
};
ghost use Rattle.trace_files.specs.ReferenceAnswers.{BreaksBy, Names, Tells, lines_left};

use crate::fault::TraceFault;
use crate::pieces::Pieces;
use crate::word_list::resolve;
use std::alloc::{AllocError, Global};
use std::io::BufRead;
use trace_lines::{
    LineReferences, RowFlaw, Table, TraceFormat, TraceLine, column_lacking, compression_at,
    format_behind, row_flaw_at, said, shows_text,
};

/// How many characters of a bad line are printed.
const SHOWN: usize = 60;

impl<'a, B: BufRead + Drop> Pieces<'a, B> {
    /// What the next line that refers to pages refers to; others come before it.
    pub(crate) fn next_references(
        &mut self,
        format: &mut TraceFormat<'a>,
    ) -> Result<Option<LineReferences>, TraceFault<'a>>
        ensures told { Tells referring result (lines_left B.remaining format.old self.old)
            (lines_left B.remaining format.new self.new) }
        ensures form { is_of_addresses format.new ≡ is_of_addresses format.old }
        ensures named { IfErr result (Names self.old.name.now) }
        ensures kept { self.new.name ≡ self.old.name }
    {
        'lines: for _ in 0..u64::MAX {
            match self.next_line(format)? {
                None => return Ok(None),
                Some(TraceLine::Refers(references)) => return Ok(Some(references)),
                Some(TraceLine::Word(_) | TraceLine::LeftOut | TraceLine::Names(_)) => {}
            }
        }
        // nothing says that a reader ends: std gives up after as many turns
        Err(TraceFault::CannotRead(self.name))
    }

    /// What the next line or record says.
    fn next_line(
        &mut self,
        format: &mut TraceFormat<'a>,
    ) -> Result<Option<TraceLine<'a>>, TraceFault<'a>>
        ensures told { Tells line_given result (lines_left B.remaining format.old self.old)
            (lines_left B.remaining format.new self.new) }
        ensures form { is_of_addresses format.new ≡ is_of_addresses format.old }
        ensures named { IfErr result (Names self.old.name.now) }
        ensures kept { self.new.name ≡ self.old.name }
    {
        if !self.read(*format)? {
            return Ok(None);
        }
        match said(*format, self.count, self.last.as_slice()) {
            Some(line) => {
                let piece = self.last.as_slice();
                let Ok(told) = resolve(&mut self.words, line, *format, self.count, piece) else {
                    return Err(TraceFault::NoMemory);
                };
                *format = format_behind(line, *format);
                Ok(Some(told))
            }
            None => Err(self.bad_piece(*format)),
        }
    }

    /// The fault that is reported for a line or record that says nothing.
    #[tactic(auto, unfolding(crate::specs::References::flaw_of))]
    fn bad_piece(&self, format: TraceFormat<'a>) -> TraceFault<'a>
        ensures breaks { BreaksBy result (Breaks (flaw_of format.entry self.now.count
            self.now.last.items)) }
        ensures named { Names self.now.name.now result }
    {
        match compression_at(self.count, self.last.as_slice()) {
            Some(compression) => TraceFault::Compressed(self.name, compression),
            None => self.bad_plain(format),
        }
    }

    /// The same of a file that is not compressed.
    fn bad_plain(&self, format: TraceFormat<'a>) -> TraceFault<'a>
        ensures breaks { BreaksBy result (Breaks (piece_flaw format.entry self.now.count
            self.now.last.items)) }
        ensures named { Names self.now.name.now result }
    {
        match format {
            TraceFormat::OracleGeneral => self.bad_record(),
            TraceFormat::Csv(table) => self.no_column(table),
            TraceFormat::Columns(table) => self.bad_row(table),
            _ => self.bad_line(),
        }
    }

    /// Its number, and how many bytes it has.
    #[tactic(auto, unfolding(crate::specs::References::record_flaw))]
    fn bad_record(&self) -> TraceFault<'a>
        ensures breaks { BreaksBy result (Breaks (record_flaw self.now.count
            self.now.last.items)) }
        ensures named { Names self.now.name.now result }
    {
        if shows_text(self.count, self.last.as_slice()) {
            return TraceFault::Text(self.name);
        }
        TraceFault::Record(self.count, self.last.len())
    }

    /// The first column that a line of names lacks.
    fn no_column(&self, table: Table<'a>) -> TraceFault<'a>
        ensures breaks { BreaksBy result (Breaks NoIds) }
        ensures named { Names self.now.name.now result }
    {
        let column = match column_lacking(table, self.last.as_slice()) {
            Some(column) => column,
            None => table.id,
        };
        TraceFault::NoColumn(self.name, column)
    }

    /// What is wrong with a row of a table, its number, and its first characters.
    #[tactic(auto, unfolding(crate::specs::References::table_flaw))]
    fn bad_row(&self, table: Table<'a>) -> TraceFault<'a>
        ensures breaks { BreaksBy result (Breaks (table_flaw table.entry self.now.count
            self.now.last.items)) }
        ensures named { Names self.now.name.now result }
    {
        let Ok(text) = shown(self.alloc, self.last.as_slice()) else {
            return TraceFault::NoMemory;
        };
        match row_flaw_at(table, self.count, self.last.as_slice()) {
            RowFlaw::Id => TraceFault::Id(self.count, text),
            RowFlaw::Op => TraceFault::Op(self.count, text),
            RowFlaw::Other => TraceFault::Line(self.count, text),
        }
    }

    /// Its number, and its first characters.
    fn bad_line(&self) -> TraceFault<'a>
        ensures breaks { BreaksBy result (Breaks (BadLine self.now.count)) }
        ensures named { Names self.now.name.now result }
    {
        match shown(self.alloc, self.last.as_slice()) {
            Ok(text) => TraceFault::Line(self.count, text),
            Err(_) => TraceFault::NoMemory,
        }
    }
}

/// The first characters of a line; what can't be shown is a question mark.
fn shown(alloc: Global, line: &[u8]) -> Result<String, AllocError> {
    let mut text = String::new(alloc);
    for byte in line.iter().take(SHOWN) {
        let is_plain = (32..127).contains(byte);
        text.push(if is_plain { char::from(*byte) } else { '?' })?;
    }
    Ok(text)
}
