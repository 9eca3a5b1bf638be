//! How many references and pages a trace has.

ghost use Rattle.std.specs.Prelude.{◌≡◌, ◌≤◌, ◌<◌, ◌+◌, ◌-◌, ◌^◌, cond, true, false, IfOk, OnOk};
ghost use Rattle.std.specs.HashSet.{contains};
ghost use Rattle.page_policies.specs.Strings.{is_page};
ghost use Rattle.trace_files.specs.ReferenceAnswers.{to_come};
ghost use Rattle.policies_cli.specs.Totals.{TotalsOf};

use crate::wrong::Wrong;
use clock_policy::Key;
use guest_strings::Reference;
use image_files::Fault;
use miss_counts::{Stage, StageListener, see};
use std::alloc::{AllocError, Global};
use std::collections::HashSet;
use std::io::BufRead;
use trace_files::TraceFile;

/// Counts of a trace.
#[derive(Clone, Copy, Debug, PartialEq, Eq)]
pub struct Totals {
    pub references: u64,
    /// How many references say that they write.
    pub writes: u64,
    /// How many pages: each misses at its first use, whatever the policy.
    pub pages: u64,
}

/// No page was seen.
fn none_seen(alloc: Global) -> HashSet<Key>
    ensures { (q : Key) → contains is_page result q ≡ false }
{
    HashSet::new(alloc)
}

/// How many there are: 1 or none.
fn one_if(is_so: bool) -> u64
    ensures count { result ≡ cond is_so 1 0 }
    ensures few { result ≤ 1 }
{
    if is_so { 1 } else { 0 }
}

/// The counts with another reference, which is to so many pages that were not seen before.
fn with_one(totals: Totals, reference: Reference, new: usize) -> Totals
    requires references { totals.references < 2 ^ 64 - 1 }
    requires writes { totals.writes ≤ totals.references }
    requires pages { totals.pages ≤ totals.references }
    requires new { new ≤ 1 }
    ensures references { result.references ≡ totals.references + 1 }
    ensures writes { result.writes ≡ totals.writes + cond reference.is_written 1 0 }
    ensures pages { result.pages ≡ totals.pages + new }
    ensures few_writes { result.writes ≤ result.references }
    ensures few_pages { result.pages ≤ result.references }
{
    Totals {
        references: totals.references + 1,
        writes: totals.writes + one_if(reference.is_written),
        pages: totals.pages + new as u64,
    }
}

/// Counts a trace as it comes.
pub fn totals_of<'a, B: BufRead + Drop, P: StageListener>(
    alloc: Global,
    trace: &mut TraceFile<'a, B>,
    name: &'a str,
    progress: &mut P,
) -> Result<Totals, Wrong<'a>>
    ensures { IfOk result (λ totals. TotalsOf totals (to_come B.remaining trace.old)) }
{
    let mut seen = none_seen(alloc);
    let mut totals = Totals {
        references: 0,
        writes: 0,
        pages: 0,
    };
    'references: for _ in 0..u64::MAX {
        let Some(reference) = trace.next()? else {
            return Ok(totals);
        };
        let new = see(&mut seen, reference.page)?;
        totals = with_one(totals, reference, new);
        progress.tell(Stage::References(totals.references));
    }
    // nothing says that a reader ends: std gives up after as many turns
    Err(Wrong::Fault(Fault::CannotRead(name)))
}
