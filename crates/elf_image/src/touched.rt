//! Which pages the segments of a file touch, and which segments touch a page.

ghost use Rattle.std.specs.Prelude.{◌≡◌, ◌+◌, ◌-◌, ◌/◌, ◌*◌, ◌<◌, ◌≤◌, ◌++◌, length, IfOk, IfErr, OnOk};
ghost use Rattle.std.specs.List.{All, AllPairs, range_with_len, filter};
ghost use Rattle.std.specs.List.Sorted.{IsNonDecreasingBy, IsPartitionPoint};
ghost use Rattle.page_memory.specs.MemoryMap.{image_end, image_end_page, most_image_pages};
ghost use Rattle.elf_image.specs.ElfFiles.{end_of, touches, touched_pages};
ghost use Rattle.elf_image.specs.Segments.{TouchTooMany};

use crate::bounds::MOST_PAGES;
use crate::fault::ElfFault;
use crate::program_header::ProgramHeader;
use page_memory::PAGE_SIZE;
use std::alloc::{AllocError, Global};

/// The numbers of the pages that segments touch, by rising number, where these are at most 4032.
pub(crate) fn touched_pages(alloc: Global, loaded: &[ProgramHeader]) -> Result<Vec<u32>, ElfFault>
    requires full { All (λ segment. 0 < segment.memory_size) loaded.now }
    requires low { All (λ segment. end_of segment ≤ image_end) loaded.now }
    requires apart { AllPairs (λ one other. end_of one ≤ other.address) loaded.now }
    ensures pages { IfOk result (λ touched. touched.items ≡ touched_pages loaded.now) }
    ensures few { IfOk result (λ touched. length touched.items ≤ most_image_pages) }
    ensures refused { IfErr result (TouchTooMany loaded.now) }
{
    let mut touched = Vec::new(alloc);
    let mut next = 0;
    for segment in loaded {
        let first = segment.first_page().max(next);
        let end = segment.end_page();
        if touched.len() + (end - first) as usize > MOST_PAGES {
            return Err(ElfFault::TooLarge);
        }
        push_range(&mut touched, first, end)?;
        next = end;
    }
    Ok(touched)
}

/// Appends the numbers from one up to another.
fn push_range(numbers: &mut Vec<u32>, first: u32, end: u32) -> Result<(), AllocError>
    requires { first ≤ end }
    ensures { OnOk result (numbers.new.items ≡ numbers.old.items ++ range_with_len first
        (end - first)) }
{
    for number in first..end {
        numbers.push(number)?;
    }
    Ok(())
}

/// The segments of a list by address that touch a page: they are next to each other.
pub(crate) fn touching(loaded: &[ProgramHeader], page: u32) -> &[ProgramHeader]
    requires low { page < image_end_page }
    requires full { All (λ segment. 0 < segment.memory_size) loaded.now }
    requires apart { AllPairs (λ one other. end_of one ≤ other.address) loaded.now }
    ensures { result.now ≡ filter (touches page) loaded.now }
{
    let start = u64::from(page) * PAGE_SIZE as u64;
    let rest = &loaded[count_ending_by(loaded, start)..];
    &rest[..count_starting_below(rest, start + PAGE_SIZE as u64)]
}

/// How many segments end at an address or below it, where their ends rise.
fn count_ending_by(loaded: &[ProgramHeader], address: u64) -> usize
    requires rising { IsNonDecreasingBy end_of loaded.now }
    ensures bound { result ≤ length loaded.now }
    ensures those { IsPartitionPoint (λ segment. end_of segment ≤ address) (λ segment.
        address < end_of segment) loaded.now result }
{
    loaded.partition_point(|segment| segment.end() <= address)
}

/// How many segments begin below an address, where their addresses rise.
fn count_starting_below(loaded: &[ProgramHeader], address: u64) -> usize
    requires rising { IsNonDecreasingBy (λ segment. segment.address) loaded.now }
    ensures bound { result ≤ length loaded.now }
    ensures those { IsPartitionPoint (λ segment. segment.address < address) (λ segment.
        address ≤ segment.address) loaded.now result }
{
    loaded.partition_point(|segment| (segment.address as u64) < address)
}
