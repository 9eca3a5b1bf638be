//! The pages of an ELF file's segments: bytes of the file, zeros elsewhere, and the segments' rights.

ghost use Rattle.std.specs.Prelude.{◌≡◌, ℕ, ◌+◌, ◌*◌, ◌<◌, ◌≤◌, ◌≢◌, cond, length, map, replicate, IfOk};
ghost use Rattle.std.specs.List.{All, AllPairs, list_any};
ghost use Rattle.page_memory.specs.MemoryMap.{image_end_page};
ghost use Rattle.elf_image.specs.ElfFiles.{end_of, touches, fills, filled_byte, loaded_byte, bytes_between, loaded_page};
ghost use Rattle.elf_image.specs.Segments.{IsSoundSegment, has_flag, given_rights};

use crate::format::{EXECUTABLE, READABLE, WRITABLE};
use crate::image::ImagePage;
use crate::program_header::ProgramHeader;
use crate::touched::touching;
use bitflags::Flags;
use page_memory::{PAGE_SIZE, Page, Rights};
use shared_origins::SharedPage;
use std::alloc::{AllocError, Global};

/// The pages of these numbers, as segments load them.
pub(crate) fn load_pages(
    alloc: Global,
    file: &[u8],
    loaded: &[ProgramHeader],
    numbers: &[u32],
) -> Result<Vec<ImagePage>, AllocError>
    requires sound { All (IsSoundSegment (length file.now)) loaded.now }
    requires apart { AllPairs (λ one other. end_of one ≤ other.address) loaded.now }
    requires low { All (λ number. number < image_end_page) numbers.now }
    ensures { IfOk result (λ pages. pages.items ≡
        map (loaded_page file.now loaded.now) numbers.now) }
{
    let mut pages = Vec::new(alloc);
    for number in numbers {
        pages.push(load_page(alloc, file, loaded, *number)?)?;
    }
    Ok(pages)
}

/// One of these pages.
fn load_page(
    alloc: Global,
    file: &[u8],
    loaded: &[ProgramHeader],
    number: u32,
) -> Result<ImagePage, AllocError>
    requires sound { All (IsSoundSegment (length file.now)) loaded.now }
    requires apart { AllPairs (λ one other. end_of one ≤ other.address) loaded.now }
    requires low { number < image_end_page }
    ensures { IfOk result (λ page. page ≡ loaded_page file.now loaded.now number) }
{
    let run = touching(loaded, number);
    let mut filled = Page::zeroed(alloc, given_rights(run))?;
    fill(file, run, number, &mut filled);
    let page = SharedPage::new(alloc, filled)?;
    Ok(ImagePage { number, page })
}

/// The rights that segments give a page that each of them touches.
#[tactic(auto, unfolding(crate::specs::Segments::given_rights))]
fn given_rights(run: &[ProgramHeader]) -> Rights
    ensures { result ≡ given_rights run.now }
{
    let read = if any_has(run, READABLE) { 1 } else { 0 };
    let write = if any_has(run, WRITABLE) { 2 } else { 0 };
    let execute = if any_has(run, EXECUTABLE) { 4 } else { 0 };
    Rights::from_bits_retain(read + (write + execute))
}

/// Whether a segment has a bit of `p_flags`.
fn any_has(run: &[ProgramHeader], flag: u32) -> bool
    ensures { result ≡ list_any (has_flag flag) run.now }
{
    run.iter().any(|segment| segment.flags & flag != 0)
}

/// Writes the bytes of segments to a page of zeros.
fn fill(file: &[u8], run: &[ProgramHeader], number: u32, page: &mut Page)
    requires sound { All (IsSoundSegment (length file.now)) run.now }
    requires low { number < image_end_page }
    requires blank { page.old.bytes ≡ replicate 4096 0 }
    ensures rights { page.new.rights ≡ page.old.rights }
    ensures bytes { page.new.bytes ≡ bytes_between (loaded_byte file.now run.now)
        (4096 * number) 4096 }
{
    let mut left = run.len();
    while left > 0 {
        left -= 1;
        copy(file, &run[left], number, page);
    }
}

/// Writes what a segment takes from the file and what lies in a page to that page.
fn copy(file: &[u8], segment: &ProgramHeader, number: u32, page: &mut Page)
    requires sound { IsSoundSegment (length file.now) segment.now }
    requires low { number < image_end_page }
    ensures rights { page.new.rights ≡ page.old.rights }
    ensures bytes { (f : ℕ → ℕ) → page.old.bytes ≡ bytes_between f (4096 * number) 4096 →
        page.new.bytes ≡ bytes_between (λ address. cond (fills address segment.now)
        (filled_byte file.now address segment.now) (f address)) (4096 * number) 4096 }
{
    let page_start = PAGE_SIZE as u64 * u64::from(number);
    let address = u64::from(segment.address);
    let start = address.max(page_start);
    let end = (address + u64::from(segment.file_size)).min(page_start + PAGE_SIZE as u64);
    if start < end {
        let from = segment.offset as usize + (start - address) as usize;
        let count = (end - start) as usize;
        page.put_bytes((start - page_start) as usize, &file[from..from + count]);
    }
}
