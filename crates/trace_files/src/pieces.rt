//! Traces cut into lines or records, one after another.

ghost use Rattle.std.specs.Prelude.{
  ◌≡◌,
  ◌+◌,
  ◌-◌,
  ◌^◌,
  ◌≤◌,
  [],
  length,
  min,
  Ok,
  IfErr,
  IfOk,
  OnOk,
};
ghost use Rattle.text_lines.specs.Text.{lines_of};
ghost use Rattle.trace_files.specs.References.{counted, pieces_of, records_of};
ghost use Rattle.trace_files.specs.ReferenceAnswers.{IsOutside, Names, TakesPiece};
ghost use Rattle.trace_files.specs.WrittenPages.{TakesPages};

use crate::fault::TraceFault;
use crate::reading::{read_line, read_record, take_pages};
use crate::word_list::WordList;
use guest_strings::Reference;
use std::alloc::Global;
use std::io;
use std::io::{BufRead, ErrorKind};
use trace_lines::TraceFormat;

/// A trace, line by line or record by record.
#[derive(Drop)]
pub(crate) struct Pieces<'a, B: BufRead> {
    pub(crate) alloc: Global,
    pub(crate) name: &'a str,
    pub(crate) file: B,
    /// the line or record that was read last
    pub(crate) last: Vec<u8>,
    /// how many lines or records were read
    pub(crate) count: u64,
    /// the words that came where ids are words
    pub(crate) words: WordList,
}

impl<'a, B: BufRead + Drop> Pieces<'a, B> {
    pub(crate) fn new(alloc: Global, name: &'a str, file: B) -> Self
        ensures file { result.file ≡ file }
        ensures named { result.name.now ≡ name.now }
        ensures count { result.count ≡ 0 }
        ensures words { result.words ≡ [] }
    {
        Pieces {
            alloc,
            name,
            file,
            last: Vec::new(alloc),
            count: 0,
            words: WordList::new(alloc),
        }
    }

    /// Reads the next line or record, if there is one.
    pub(crate) fn read(&mut self, format: TraceFormat<'a>) -> Result<bool, TraceFault<'a>>
        ensures taken { IfOk result (λ is_there. TakesPiece (pieces_of format.entry) is_there
            self.new.last.items (B.remaining self.old.file) (B.remaining self.new.file)) }
        ensures counted { OnOk result (self.new.count ≡ counted self.old.count) }
        ensures fault { IfErr result IsOutside }
        ensures named { IfErr result (Names self.old.name.now) }
        ensures kept { self.new.name ≡ self.old.name }
        ensures words { self.new.words ≡ self.old.words }
    {
        match format {
            TraceFormat::OracleGeneral => self.read_record(),
            _ => self.read_line(),
        }
    }

    /// Adds references to the pages of the lines at hand to a block, which then has so many at most, up to the first that is not as `write_line` writes
    /// a page.
    pub(crate) fn take_pages(
        &mut self,
        block: &mut Vec<Reference>,
        most: usize,
    ) -> Result<(), TraceFault<'a>>
        requires { length block.old.items ≤ most }
        ensures few { length block.new.items ≤ most }
        ensures taken { OnOk result (TakesPages (B.remaining self.old.file)
            (B.remaining self.new.file) block.old.items block.new.items) }
        ensures counted { OnOk result (self.new.count ≡ min (self.old.count + (length
            block.new.items - length block.old.items)) (2 ^ 64 - 1)) }
        ensures fault { IfErr result IsOutside }
        ensures named { IfErr result (Names self.old.name.now) }
        ensures kept { self.new.name ≡ self.old.name }
        ensures words { self.new.words ≡ self.old.words }
    {
        let had = block.len();
        match take_pages(&mut self.file, block, most) {
            Ok(()) => {
                let lines = block.len() - had;
                self.count = self.count.saturating_add(lines as u64);
                Ok(())
            }
            Err(error) => Err(fault_of(&error, self.name)),
        }
    }

    /// Reads the next line, if there is one.
    pub(crate) fn read_line(&mut self) -> Result<bool, TraceFault<'a>>
        ensures taken { IfOk result (λ is_there. TakesPiece lines_of is_there
            self.new.last.items (B.remaining self.old.file) (B.remaining self.new.file)) }
        ensures counted { OnOk result (self.new.count ≡ counted self.old.count) }
        ensures fault { IfErr result IsOutside }
        ensures named { IfErr result (Names self.old.name.now) }
        ensures kept { self.new.name ≡ self.old.name }
        ensures words { self.new.words ≡ self.old.words }
    {
        let read = read_line(&mut self.file, &mut self.last);
        one_more(read, &mut self.count, self.name)
    }

    /// Reads the next record, if there is one; at the end of the trace perhaps a part of one.
    fn read_record(&mut self) -> Result<bool, TraceFault<'a>>
        ensures taken { IfOk result (λ is_there. TakesPiece records_of is_there
            self.new.last.items (B.remaining self.old.file) (B.remaining self.new.file)) }
        ensures counted { OnOk result (self.new.count ≡ counted self.old.count) }
        ensures fault { IfErr result IsOutside }
        ensures named { IfErr result (Names self.old.name.now) }
        ensures kept { self.new.name ≡ self.old.name }
        ensures words { self.new.words ≡ self.old.words }
    {
        let read = read_record(&mut self.file, &mut self.last);
        one_more(read, &mut self.count, self.name)
    }
}

/// Counts what was read: one line or record more.
fn one_more<'a>(
    read: io::Result<bool>,
    count: &mut u64,
    name: &'a str,
) -> Result<bool, TraceFault<'a>>
    ensures same { IfOk result (λ is_there. read ≡ Ok is_there) }
    ensures counted { OnOk result (count.new ≡ counted count.old) }
    ensures fault { IfErr result IsOutside }
    ensures named { IfErr result (Names name.now) }
{
    match read {
        Ok(is_there) => {
            *count = count.saturating_add(1);
            Ok(is_there)
        }
        Err(error) => Err(fault_of(&error, name)),
    }
}

/// What an error of a file's reader is.
fn fault_of<'a>(error: &io::Error, name: &'a str) -> TraceFault<'a>
    ensures outside { IsOutside result }
    ensures named { Names name.now result }
{
    match error.kind() {
        ErrorKind::OutOfMemory => TraceFault::NoMemory,
        _ => TraceFault::CannotRead(name),
    }
}
