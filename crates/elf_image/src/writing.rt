//! From an image to an ELF file: one segment for each run of neighbouring pages with equal rights.

ghost use Rattle.std.specs.Prelude.{◌≡◌, ℕ, ◌+◌, ◌*◌, ◌<◌, ◌≤◌, ◌^◌, ◌++◌, [], cond, length, flat_map, slice_index_or, IfOk, OnOk, List};
ghost use Rattle.page_memory.specs.MemoryMap.{most_image_pages};
ghost use Rattle.byteorder.specs.Endian.{little_bytes};
ghost use Rattle.elf_image.specs.Image.{bytes_of};
ghost use Rattle.elf_image.specs.WrittenFiles.{halves, file_header, flags_of, segment_header, page_bytes, elf_file, file_front, pages_offset, HasRoom};
ghost use Rattle.elf_image.specs.declared.runs.Run.{Run};

use crate::format::{
    EXECUTABLE, EXECUTABLE_FILE, HEADER_SIZE, LOAD, PROGRAM_HEADER_SIZE, READABLE, RISC_V, VERSION,
    WRITABLE,
};
use crate::image::{Image, ImagePage};
use crate::runs::{Run, runs_of};
use byteorder::{ByteOrder, LittleEndian};
use page_memory::{Access, PAGE_SIZE, Rights};
use std::alloc::{AllocError, Global};

/// The image as an ELF file: a segment for each run of neighbouring pages of equal rights, of whole
/// pages, whose bytes are in the file from the next multiple of 4096 after the headers on.
pub fn write_elf(alloc: Global, image: &Image) -> Result<Vec<u8>, AllocError>
    ensures { IfOk result (λ file. file.items ≡ elf_file image.now) }
{
    let pages = image.pages();
    let segments = runs_of(alloc, pages)?;
    let size = offset_of_pages(segments.len()) + PAGE_SIZE * pages.len();
    let mut file = Vec::with_capacity(alloc, size)?;
    put_front(&mut file, image.entry(), &segments)?;
    put_pages(&mut file, pages)?;
    Ok(file)
}

/// `e_ident`: the magic number, 32 bits, little-endian, version 1.
const IDENTIFICATION: [u8; 16] = [0x7F, 0x45, 0x4C, 0x46, 1, 1, 1, 0, 0, 0, 0, 0, 0, 0, 0, 0];

/// The bytes of a page, and so `p_align`.
const PAGE: u32 = PAGE_SIZE as u32;

/// Appends a 16-bit number.
fn put_half(file: &mut Vec<u8>, half: u16) -> Result<(), AllocError>
    ensures { OnOk result (file.new.items ≡ file.old.items ++ little_bytes 2 half) }
{
    let mut bytes = [0; 2];
    LittleEndian::write_u16(&mut bytes, half);
    file.extend_from_slice(&bytes)
}

/// Appends a 32-bit number.
fn put_word(file: &mut Vec<u8>, word: u32) -> Result<(), AllocError>
    ensures { OnOk result (file.new.items ≡ file.old.items ++ little_bytes 4 word) }
{
    let mut bytes = [0; 4];
    LittleEndian::write_u32(&mut bytes, word);
    file.extend_from_slice(&bytes)
}

/// Appends 16-bit numbers.
fn put_halves(file: &mut Vec<u8>, numbers: &[u16]) -> Result<(), AllocError>
    ensures { OnOk result (file.new.items ≡ file.old.items ++ halves numbers.now) }
{
    for number in numbers {
        put_half(file, *number)?;
    }
    Ok(())
}

/// Appends 32-bit numbers.
fn put_words(file: &mut Vec<u8>, numbers: &[u32]) -> Result<(), AllocError>
    ensures { OnOk result (file.new.items ≡ file.old.items ++ bytes_of numbers.now) }
{
    for number in numbers {
        put_word(file, *number)?;
    }
    Ok(())
}

/// Appends the ELF header of a file with so many program headers after it.
fn put_header(file: &mut Vec<u8>, entry: u32, count: u16) -> Result<(), AllocError>
    ensures { OnOk result (file.new.items ≡ file.old.items ++ file_header entry count) }
{
    file.extend_from_slice(&IDENTIFICATION)?;
    put_halves(file, &[EXECUTABLE_FILE, RISC_V])?;
    put_words(file, &[VERSION, entry, HEADER_SIZE as u32, 0, 0])?;
    put_halves(
        file,
        &[
            HEADER_SIZE as u16,
            PROGRAM_HEADER_SIZE as u16,
            count,
            0,
            0,
            0,
        ],
    )
}

/// `p_flags`.
#[tactic(auto, unfolding(crate::specs::WrittenFiles::flags_of))]
fn flags_of(rights: Rights) -> u32
    ensures { result ≡ flags_of rights }
{
    let read = flag_where(rights.allow(Access::Load), READABLE);
    let write = flag_where(rights.allow(Access::Store), WRITABLE);
    let execute = flag_where(rights.allow(Access::Fetch), EXECUTABLE);
    read + (write + execute)
}

/// A bit of `p_flags`, where it is to be set.
fn flag_where(is_set: bool, flag: u32) -> u32
    ensures { result ≡ cond is_set flag 0 }
{
    if is_set { flag } else { 0 }
}

/// Appends the program header of a run, where the pages' bytes begin at an offset.
fn put_segment_header(file: &mut Vec<u8>, start: u32, run: &Run) -> Result<(), AllocError>
    requires { HasRoom start run.now }
    ensures { OnOk result (file.new.items ≡ file.old.items ++ segment_header start run.now) }
{
    let offset = start + PAGE * run.place;
    let address = PAGE * run.number;
    let size = PAGE * run.count;
    let flags = flags_of(run.rights);
    put_words(
        file,
        &[LOAD, offset, address, address, size, size, flags, PAGE],
    )
}

/// Appends the program headers of runs.
fn put_segment_headers(file: &mut Vec<u8>, start: u32, segments: &[Run]) -> Result<(), AllocError>
    requires { (k : ℕ) (d : Run) → k < length segments.now →
        HasRoom start (slice_index_or segments.now k d) }
    ensures { OnOk result (file.new.items ≡ file.old.items ++
        flat_map (segment_header start) segments.now) }
{
    for run in segments {
        put_segment_header(file, start, run)?;
    }
    Ok(())
}

/// Where the pages' bytes begin in a file of so many program headers.
#[tactic(auto, unfolding(crate::specs::WrittenFiles::pages_offset))]
fn offset_of_pages(count: usize) -> usize
    requires { count ≤ most_image_pages }
    ensures offset { result ≡ pages_offset count }
    ensures small { result < 2 ^ 24 }
{
    (HEADER_SIZE + PROGRAM_HEADER_SIZE * count + PAGE_SIZE - 1) / PAGE_SIZE * PAGE_SIZE
}

/// Writes what is before the pages' bytes into an empty file.
fn put_front(file: &mut Vec<u8>, entry: u32, segments: &[Run]) -> Result<(), AllocError>
    requires empty { file.old.items ≡ [] }
    requires few { length segments.now ≤ most_image_pages }
    requires room { (k : ℕ) (d : Run) → k < length segments.now →
        HasRoom (pages_offset (length segments.now)) (slice_index_or segments.now k d) }
    ensures { OnOk result (file.new.items ≡ file_front entry segments.now) }
{
    let start = offset_of_pages(segments.len());
    put_header(file, entry, segments.len() as u16)?;
    put_segment_headers(file, start as u32, segments)?;
    file.resize(start, 0)?;
    Ok(())
}

/// Appends the bytes of pages.
fn put_pages(file: &mut Vec<u8>, pages: &[ImagePage]) -> Result<(), AllocError>
    ensures { OnOk result (file.new.items ≡ file.old.items ++ page_bytes pages.now) }
{
    for listed in pages {
        file.extend_from_slice(listed.page.bytes())?;
    }
    Ok(())
}
