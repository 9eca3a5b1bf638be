//! The next reference of a trace.

ghost use Rattle.std.specs.Prelude.{◌≡◌, IfErr};
ghost use Rattle.trace_files.specs.References.{
  Gives,
  Trace,
  before,
  is_of_addresses,
  joined,
  left_of,
};
ghost use Rattle.trace_files.specs.ReferenceAnswers.{Names, Tells, due_left, joined_left};

use crate::fault::TraceFault;
use crate::pieces::Pieces;
use guest_strings::Reference;
use std::io::BufRead;
use trace_lines::{LineReferences, TraceFormat, next_page};

/// The next reference, in which neighbours to one page are one: the last one is held, since the next may be to the same page.
pub(crate) fn next_joined<'a, B: BufRead + Drop>(
    pieces: &mut Pieces<'a, B>,
    format: &mut TraceFormat<'a>,
    held: &mut Option<Reference>,
    due: &mut Option<LineReferences>,
) -> Result<Option<Reference>, TraceFault<'a>>
    ensures told { Tells Gives result (joined_left B.remaining format.old held.old due.old
        pieces.old) (joined_left B.remaining format.new held.new due.new pieces.new) }
    ensures form { is_of_addresses format.new ≡ is_of_addresses format.old }
    ensures named { IfErr result (Names pieces.old.name.now) }
    ensures kept { pieces.new.name ≡ pieces.old.name }
{
    'references: for _ in 0..u64::MAX {
        let Some(next) = next_due(pieces, format, due)? else {
            return Ok(held.take());
        };
        let done = hold(held, next);
        if done.is_some() {
            return Ok(done);
        }
    }
    // nothing says that a reader ends: std gives up after as many turns
    Err(TraceFault::CannotRead(pieces.name))
}

/// Holds the next reference: with the one that is held, where both are to one page, and otherwise in its place. Answers the one that is
/// done then.
#[tactic(auto, unfolding(crate::specs::References::joined))]
fn hold(held: &mut Option<Reference>, next: Reference) -> Option<Reference>
    ensures { (rest : Trace) → joined held.old (Gives next rest) ≡ before result (joined held.new
        rest) }
{
    let Some(reference) = *held else {
        *held = Some(next);
        return None;
    };
    if reference.page == next.page {
        *held = Some(Reference {
            page: reference.page,
            is_written: reference.is_written || next.is_written,
        });
        return None;
    }
    *held = Some(next);
    Some(reference)
}

/// The first reference that is due, or else the first one of the next line, after which the others of that line are due.
pub(crate) fn next_due<'a, B: BufRead + Drop>(
    pieces: &mut Pieces<'a, B>,
    format: &mut TraceFormat<'a>,
    due: &mut Option<LineReferences>,
) -> Result<Option<Reference>, TraceFault<'a>>
    ensures told { Tells Gives result (due_left B.remaining format.old due.old pieces.old)
        (due_left B.remaining format.new due.new pieces.new) }
    ensures form { is_of_addresses format.new ≡ is_of_addresses format.old }
    ensures named { IfErr result (Names pieces.old.name.now) }
    ensures kept { pieces.new.name ≡ pieces.old.name }
{
    if let Some(line) = due.take() {
        *due = left_of(line);
        return Ok(Some(line.first));
    }
    let Some(line) = pieces.next_references(format)? else {
        return Ok(None);
    };
    *due = left_of(line);
    Ok(Some(line.first))
}

/// The references of a line after its first one.
#[inline(always)]
#[tactic(auto, using(crate::proofs::DueTold::none_left, crate::proofs::DueTold::some_left))]
fn left_of(line: LineReferences) -> Option<LineReferences>
    ensures { result ≡ left_of line.first line.more }
{
    if line.more == 0 {
        return None;
    }
    Some(LineReferences {
        first: Reference {
            page: next_page(line.first.page),
            is_written: line.first.is_written,
        },
        more: line.more - 1,
    })
}
