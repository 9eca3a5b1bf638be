//! Traces in files, read as they come.

ghost use Rattle.std.specs.Prelude.{
  ◌≡◌,
  ◌≤◌,
  ◌<◌,
  ◌⊎◌,
  IfErr,
  IfOk,
  IfSome,
  OnOk,
  Some,
  length,
};
ghost use Rattle.std.specs.Option.{option_map};
ghost use Rattle.trace_files.specs.References.{
  Ends,
  Gives,
  is_of_addresses,
  trace_of,
};
ghost use Rattle.trace_files.specs.ReferenceAnswers.{
  EndsBy,
  IsAtFront,
  IsUnread,
  Names,
  Opens,
  Tells,
  TellsReferences,
  name_of,
  to_come,
};
ghost use Rattle.trace_files.specs.WrittenPages.{TellsOn};

use crate::fault::TraceFault;
use crate::next_reference::{next_due, next_joined};
use crate::pieces::Pieces;
use guest_strings::Reference;
use std::alloc::Global;
use std::io::{BufRead, BufReader, Read};
use std::rt::Files;
use std::{fs, io};
use trace_lines::{LineReferences, TraceFormat};

/// How many bytes of a trace are read at a time.
const BYTES: usize = 1 << 16;

/// How many references are read at a time, and each policy plays before the next one does: so many that a policy's memory is at hand
/// while it plays.
pub const BLOCK: usize = 1 << 14;

/// A trace, reference by reference.
#[derive(Drop)]
pub struct TraceFile<'a, B: BufRead> {
    format: TraceFormat<'a>,
    pub(crate) pieces: Pieces<'a, B>,
    /// the references of the last line that are still due
    due: Option<LineReferences>,
    /// the last reference of a trace of addresses: the next one may be to the same page
    held: Option<Reference>,
}

impl<'a, B: BufRead + Drop> TraceFile<'a, B> {
    fn new(alloc: Global, name: &'a str, format: TraceFormat<'a>, file: B) -> Self
        ensures told { to_come B.remaining result ≡ option_map (trace_of format.entry)
            (B.remaining file) }
        ensures file { result.pieces.file ≡ file }
        ensures named { (name_of result).now ≡ name.now }
    {
        TraceFile {
            format,
            pieces: Pieces::new(alloc, name, file),
            due: None,
            held: None,
        }
    }

    /// Fills a block with the next references, so many at most. At the end of the trace it is empty.
    #[tactic(auto, using(crate::proofs::ManyTold::no_references, crate::proofs::AtHandTold::ends_at_hand, crate::proofs::AtHandTold::ends_behind, crate::proofs::AtHandTold::over_behind, crate::proofs::AtHandTold::one_behind))]
    pub fn fill(&mut self, block: &mut Vec<Reference>, most: usize) -> Result<(), TraceFault<'a>>
        ensures few { length block.new.items ≤ most }
        ensures told { OnOk result (TellsReferences block.new.items (to_come B.remaining self.old)
            (to_come B.remaining self.new)) }
        ensures full { OnOk result (length block.new.items < most → IfSome (to_come B.remaining
            self.old) (λ _. to_come B.remaining self.new ≡ Some Ends)) }
        ensures fault { IfErr result (λ fault. IfSome (to_come B.remaining self.old) (EndsBy
            fault)) }
        ensures named { IfErr result (Names (name_of self.old).now) }
        ensures kept { name_of self.new ≡ name_of self.old }
    {
        block.clear();
        'references: for _ in 0..most {
            self.fill_at_hand(block, most)?;
            if block.len() >= most {
                return Ok(());
            }
            let Some(reference) = self.next()? else {
                return Ok(());
            };
            if block.push(reference).is_err() {
                return Err(TraceFault::NoMemory);
            }
        }
        Ok(())
    }

    /// Adds the references of the lines at hand to a block, which then has so many at most, up to the first that is not as `write_line` writes a
    /// page. A first line is never among them.
    #[tactic(auto, using(crate::proofs::AtHandTold::same_told, crate::proofs::AtHandTold::outside_ends))]
    fn fill_at_hand(
        &mut self,
        block: &mut Vec<Reference>,
        most: usize,
    ) -> Result<(), TraceFault<'a>>
        requires { length block.old.items ≤ most }
        ensures few { length block.new.items ≤ most }
        ensures more { OnOk result (length block.old.items ≤ length block.new.items) }
        ensures told { OnOk result (TellsOn (to_come B.remaining self.old)
            (to_come B.remaining self.new) block.old.items block.new.items) }
        ensures fault { IfErr result (λ fault. IfSome (to_come B.remaining self.old) (EndsBy
            fault)) }
        ensures named { IfErr result (Names (name_of self.old).now) }
        ensures kept { name_of self.new ≡ name_of self.old }
    {
        if self.pieces.count == 0 {
            return Ok(());
        }
        if self.due.is_some() {
            return Ok(());
        }
        match self.format {
            TraceFormat::Text => self.pieces.take_pages(block, most),
            _ => Ok(()),
        }
    }

    /// The next reference, or `None` at the end. Those of records, and of tables without a column for it, never say that they write.
    pub fn next(&mut self) -> Result<Option<Reference>, TraceFault<'a>>
        ensures told { Tells Gives result (to_come B.remaining self.old)
            (to_come B.remaining self.new) }
        ensures named { IfErr result (Names (name_of self.old).now) }
        ensures kept { name_of self.new ≡ name_of self.old }
    {
        if is_of_addresses(self.format) {
            return next_joined(
                &mut self.pieces,
                &mut self.format,
                &mut self.held,
                &mut self.due,
            );
        }
        next_due(&mut self.pieces, &mut self.format, &mut self.due)
    }
}

/// Opens a trace, or the standard input by the name `-`. Which files there are and what they hold no contract can name: all that the reader of this one holds is still to come.
pub fn open_trace<'a, R: Files + AllocGlobal>(
    rt: &R,
    name: &'a str,
    format: TraceFormat<'a>,
) -> Result<TraceFile<'a, BufReader<R::File>>, TraceFault<'a>>
    ensures told { IfOk result (IsAtFront R.File.remaining format.entry) }
    ensures named { IfOk result (λ trace. (name_of trace).now ≡ name.now) }
    ensures fault { IfErr result (λ fault. (fault ≡ TraceFault.NoMemory) ⊎ IsUnread name.now
        fault) }
{
    trace_over(rt.alloc(), name, format, fs::open(rt, path_of(name)))
}

/// Where the trace of a name is: `-` is the standard input.
fn path_of(name: &str) -> &str {
    if name == "-" { "/dev/stdin" } else { name }
}

/// The trace in what was opened, from its front.
#[tactic(auto, using(crate::proofs::Opened::at_front))]
fn trace_over<'a, F: Read + Drop>(
    alloc: Global,
    name: &'a str,
    format: TraceFormat<'a>,
    opened: io::Result<F>,
) -> Result<TraceFile<'a, BufReader<F>>, TraceFault<'a>>
    ensures told { IfOk result (IsAtFront F.remaining format.entry) }
    ensures named { IfOk result (λ trace. (name_of trace).now ≡ name.now) }
    ensures answered { Opens name.now opened result }
{
    let Ok(file) = opened else {
        return Err(TraceFault::CannotRead(name));
    };
    match BufReader::with_capacity(alloc, BYTES, file) {
        Ok(file) => Ok(TraceFile::new(alloc, name, format, file)),
        Err(_) => Err(TraceFault::NoMemory),
    }
}

/// Whether a trace gives addresses; otherwise it gives pages.
fn is_of_addresses(format: TraceFormat<'_>) -> bool
    ensures { result ≡ is_of_addresses format.entry }
{
    match format {
        TraceFormat::Text
        | TraceFormat::Csv(_)
        | TraceFormat::Columns(_)
        | TraceFormat::OracleGeneral => false,
        TraceFormat::Lackey | TraceFormat::DynamoRio => true,
    }
}
