//! Numbers of frames as they are asked for.

ghost use Rattle.std.specs.Prelude.{◌≡◌, IfOk, map};
ghost use Rattle.miss_counts.specs.FrameNumbers.{frames_for, has_part, part_of};
ghost use Rattle.miss_counts.specs.StringPages.{pages_of};
ghost use Rattle.whole_strings.specs.PageCounts.{page_count};

use crate::page_counts::count_pages;
use guest_strings::Reference;
use page_policies::{Frames, MOST_POLICY_FRAMES};
use std::alloc::{AllocError, Global};

/// A part of the pages of a string, in millionths.
#[derive(Clone, Copy, Debug, PartialEq, Eq)]
pub struct FootprintPart {
    pub millionths: u32,
}

/// A number of frames, or how it follows from a string's pages.
#[derive(Clone, Copy, Debug, PartialEq, Eq)]
pub enum TableSize {
    Frames(Frames),
    Part(FootprintPart),
}

impl FootprintPart {
    /// So many frames of so many pages, rounded down: one at least, and at most as many as a policy may have.
    #[tactic(auto, unfolding(crate::specs::FrameNumbers::part_of))]
    fn frames(self, pages: usize) -> Frames
        ensures { result.number ≡ part_of pages self }
    {
        let part = pages as u128 * u128::from(self.millionths) / 1_000_000;
        Frames::of(part.max(1).min(MOST_POLICY_FRAMES as u128) as usize)
    }
}

impl TableSize {
    /// The number of frames for a string of so many pages.
    pub fn frames(self, pages: usize) -> Frames
        ensures { result.number ≡ frames_for pages self }
    {
        match self {
            TableSize::Frames(frames) => frames,
            TableSize::Part(part) => part.frames(pages),
        }
    }
}

/// Whether one of the numbers follows from a string's pages.
#[tactic(auto, using(crate::proofs::Sizes::parts_on, crate::proofs::Sizes::part_found))]
pub fn has_part(sizes: &[TableSize]) -> bool
    ensures { result ≡ has_part sizes.now }
{
    'sizes: for size in sizes {
        if let TableSize::Part(_) = *size {
            return true;
        }
    }
    false
}

/// The numbers of frames for a string of so many pages.
pub fn frames_for(
    alloc: Global,
    sizes: &[TableSize],
    pages: usize,
) -> Result<Vec<Frames>, AllocError>
    ensures { IfOk result (λ all. map (λ f. f.number) all.items ≡ map (frames_for pages) sizes.now) }
{
    let mut all = Vec::new(alloc);
    'sizes: for size in sizes {
        all.push(size.frames(pages))?;
    }
    Ok(all)
}

/// The numbers of frames for a string. Its pages are counted where that matters.
pub fn frames_for_string(
    alloc: Global,
    sizes: &[TableSize],
    string: &[Reference],
) -> Result<Vec<Frames>, AllocError>
    ensures { IfOk result (λ all. map (λ f. f.number) all.items ≡ map (frames_for (page_count
        (pages_of string.now))) sizes.now) }
{
    if !has_part(sizes) {
        return frames_for(alloc, sizes, 0);
    }
    let pages = count_pages(alloc, string)?;
    frames_for(alloc, sizes, pages)
}
