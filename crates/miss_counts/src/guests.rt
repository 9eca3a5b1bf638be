//! What guests miss.

ghost use Rattle.std.specs.Prelude.{◌≡◌, ◌≤◌, IfOk, OnOk, Err, true, false, length, map};
ghost use Rattle.std.specs.Prelude.{option_map};
ghost use Rattle.guest_strings.specs.Slices.{guest_string};
ghost use Rattle.guest_strings.specs.ToCome.{to_come};
ghost use Rattle.miss_counts.specs.Counted.{is_counted};
ghost use Rattle.miss_counts.specs.Guests.{IsTable};
ghost use Rattle.miss_counts.specs.StringPages.{pages_of};
ghost use Rattle.miss_counts.specs.FrameNumbers.{numbers_asked};
ghost use Rattle.whole_strings.specs.PageCounts.{page_count};

use crate::counts::{PolicyCounts, rows_of};
use crate::frame_numbers::usual_frames;
use crate::page_counts::count_pages;
use crate::policy_set::PolicySet;
use crate::stages::{Stage, StageListener};
use crate::table_size::{TableSize, frames_for_string};
use flat_machine::FlatProcess;
use guest_strings::{AccessKinds, GuestString, Reference};
use machine_limits::MOST_PROCESSES;
use page_policies::{Frames, PolicyRefusal};
use std::alloc::{AllocError, Global};

/// The references of a string, to its end.
pub fn references_of<P: StageListener>(
    alloc: Global,
    mut guests: GuestString,
    progress: &mut P,
) -> Result<Vec<Reference>, AllocError>
    ensures { IfOk result (λ string. string.items ≡ to_come guests) }
{
    let mut string = Vec::new(alloc);
    'references: while let Some(reference) = guests.next()? {
        string.push(reference)?;
        progress.tell(Stage::References(string.len() as u64));
    }
    Ok(string)
}

/// What the string of guests misses, of the references that are kept, by slices of so many instructions, of up to so many
/// instructions in all: a row for each of these numbers of frames, or for the usual ones up to the guests' pages.
pub fn guest_rows<P: StageListener>(
    alloc: Global,
    processes: Vec<FlatProcess>,
    accesses: AccessKinds,
    slice: u32,
    limit: u64,
    sizes: Option<Vec<TableSize>>,
    wanted: &PolicySet,
    progress: &mut P,
) -> Result<Vec<PolicyCounts>, PolicyRefusal>
    requires { length processes.items ≤ MOST_PROCESSES }
    ensures rows { IfOk result (λ rows. IsTable wanted.now (guest_string accesses slice limit
        processes.items) (option_map (λ s. s.items) sizes) rows.items) }
    ensures some { OnOk result (is_counted wanted.now (numbers_asked (page_count (pages_of
        (guest_string accesses slice limit processes.items))) (option_map (λ s. s.items) sizes)) ≡ true) }
    ensures bad_size { result ≡ Err PolicyRefusal.BadSize → is_counted wanted.now (numbers_asked
        (page_count (pages_of (guest_string accesses slice limit
        processes.items))) (option_map (λ s. s.items)
        sizes)) ≡ false }
{
    let string = references_of(
        alloc,
        GuestString::new(processes, accesses, slice, limit),
        progress,
    )?;
    let frames = asked_frames(alloc, &sizes, string.as_slice())?;
    rows_of(
        alloc,
        frames.as_slice(),
        string.as_slice(),
        wanted,
        progress,
    )
}

/// The numbers of frames that are asked for, or the usual ones.
fn asked_frames(
    alloc: Global,
    sizes: &Option<Vec<TableSize>>,
    string: &[Reference],
) -> Result<Vec<Frames>, AllocError>
    ensures { IfOk result (λ all. map (λ f. f.number) all.items ≡ numbers_asked (page_count
        (pages_of string.now)) (option_map (λ s. s.items) sizes.now)) }
{
    match sizes {
        Some(sizes) => frames_for_string(alloc, sizes.as_slice(), string),
        None => usual_frames(alloc, count_pages(alloc, string)?),
    }
}
