//! Whole traces.

ghost use Rattle.std.specs.Prelude.{
  ◌≡◌,
  ◌<◌,
  ◌++◌,
  [],
  ◌∷◌,
  true,
  length,
  filter,
  map,
  IfErr,
  IfOk,
  IfSome,
  OnOk,
};
ghost use Rattle.std.specs.List.{All};
ghost use Rattle.whole_strings.specs.Sampling.{is_sampled};
ghost use Rattle.trace_files.specs.ReferenceAnswers.{
  ArePages,
  IsSample,
  IsWhole,
  Names,
  StopsBy,
  name_of,
  page_of,
  to_come,
};

use crate::fault::TraceFault;
use crate::trace_file::{BLOCK, TraceFile};
use clock_policy::Key;
use guest_strings::Reference;
use miss_counts::{Stage, StageListener};
use std::alloc::{AllocError, Global};
use std::io::BufRead;
use std::num::NonZeroU32;
use whole_strings::is_sampled;

/// All pages of a trace. One with none is a fault.
#[tactic(auto, using(crate::proofs::ManyTold::no_pages, crate::proofs::ManyTold::pages_on, crate::proofs::ManyTold::all_of_pages, crate::proofs::ManyTold::none_of_pages, crate::proofs::ManyTold::pages_stop))]
pub fn read_whole<'a, B: BufRead + Drop, P: StageListener>(
    alloc: Global,
    trace: &mut TraceFile<'a, B>,
    progress: &mut P,
) -> Result<Vec<Key>, TraceFault<'a>>
    ensures some { IfOk result (λ string. 0 < length string.items) }
    ensures whole { IfOk result (λ string. IfSome (to_come B.remaining trace.old) (ArePages
        string.items)) }
    ensures fault { IfErr result (λ fault. IfSome (to_come B.remaining trace.old) (StopsBy
        fault)) }
    ensures named { IfErr result (Names (name_of trace.old).now) }
{
    let mut string = Vec::new(alloc);
    let mut block = Vec::new(alloc);
    'fills: for _ in 0..u64::MAX {
        trace.fill(&mut block, BLOCK)?;
        if block.is_empty() {
            if string.is_empty() {
                return Err(TraceFault::Empty(trace.pieces.name));
            }
            return Ok(string);
        }
        if add_pages_of(&mut string, block.as_slice()).is_err() {
            return Err(TraceFault::NoMemory);
        }
        progress.tell(Stage::References(string.len() as u64));
    }
    // nothing says that a reader ends: std gives up after as many turns
    Err(TraceFault::CannotRead(trace.pieces.name))
}

/// Adds the pages of references.
fn add_pages_of(string: &mut Vec<Key>, references: &[Reference]) -> Result<(), AllocError>
    ensures { OnOk result (string.new.items ≡ string.old.items ++ map page_of references.now) }
{
    string.reserve(references.len())?;
    'references: for reference in references {
        string.push(reference.page)?;
    }
    Ok(())
}

/// All references of a trace. One with none is a fault.
#[tactic(auto, using(crate::proofs::ManyTold::no_references, crate::proofs::ManyTold::references_joined, crate::proofs::ManyTold::all_blocks, crate::proofs::ManyTold::empty_references, crate::proofs::ManyTold::references_stop))]
pub fn read_references<'a, B: BufRead + Drop, P: StageListener>(
    alloc: Global,
    trace: &mut TraceFile<'a, B>,
    progress: &mut P,
) -> Result<Vec<Reference>, TraceFault<'a>>
    ensures some { IfOk result (λ string. 0 < length string.items) }
    ensures whole { IfOk result (λ string. IfSome (to_come B.remaining trace.old) (IsWhole
        string.items)) }
    ensures fault { IfErr result (λ fault. IfSome (to_come B.remaining trace.old) (StopsBy
        fault)) }
    ensures named { IfErr result (Names (name_of trace.old).now) }
{
    let mut string = Vec::new(alloc);
    let mut block = Vec::new(alloc);
    'fills: for _ in 0..u64::MAX {
        trace.fill(&mut block, BLOCK)?;
        if block.is_empty() {
            if string.is_empty() {
                return Err(TraceFault::Empty(trace.pieces.name));
            }
            return Ok(string);
        }
        if string.extend_from_slice(block.as_slice()).is_err() {
            return Err(TraceFault::NoMemory);
        }
        progress.tell(Stage::References(string.len() as u64));
    }
    // nothing says that a reader ends: std gives up after as many turns
    Err(TraceFault::CannotRead(trace.pieces.name))
}

/// The pages of a trace that are in a sample of one in so many, and how many references the whole trace has. One with none is a fault.
#[tactic(auto, using(crate::proofs::SampleTold::nothing_sampled, crate::proofs::SampleTold::sample_on, crate::proofs::SampleTold::all_sampled, crate::proofs::SampleTold::empty_sample, crate::proofs::SampleTold::sample_stops, crate::proofs::SampleTold::sample_passes))]
pub fn read_sample<'a, B: BufRead + Drop, P: StageListener>(
    alloc: Global,
    trace: &mut TraceFile<'a, B>,
    one_in: NonZeroU32,
    progress: &mut P,
) -> Result<(Vec<Key>, u64), TraceFault<'a>>
    ensures some { IfOk result (λ read. 0 < read.1) }
    ensures sampled { IfOk result (λ read. All (λ page. is_sampled one_in.value page ≡ true)
        read.0.items) }
    ensures whole { IfOk result (λ read. IfSome (to_come B.remaining trace.old) (IsSample
        (is_sampled one_in.value) read.0.items read.1)) }
    ensures fault { IfErr result (λ fault. IfSome (to_come B.remaining trace.old) (StopsBy
        fault)) }
    ensures named { IfErr result (Names (name_of trace.old).now) }
{
    let mut sample = Vec::new(alloc);
    'references: for references in 0..u64::MAX {
        let Some(reference) = trace.next()? else {
            if references == 0 {
                return Err(TraceFault::Empty(trace.pieces.name));
            }
            return Ok((sample, references));
        };
        if keep_sampled(&mut sample, reference.page, one_in).is_err() {
            return Err(TraceFault::NoMemory);
        }
        progress.tell(Stage::References(references + 1));
    }
    // nothing says that a reader ends: std gives up after as many turns
    Err(TraceFault::CannotRead(trace.pieces.name))
}

/// The page is one of the sample, where the sample has it.
fn keep_sampled(sample: &mut Vec<Key>, page: Key, one_in: NonZeroU32) -> Result<(), AllocError>
    ensures { OnOk result (sample.new.items ≡ sample.old.items ++ filter
        (is_sampled one_in.value) (page ∷ [])) }
{
    if is_sampled(page, one_in) {
        sample.push(page)?;
    }
    Ok(())
}
