//! The segments of a file that take memory, sorted by address, and whether two of them overlap.

ghost use Rattle.std.specs.Prelude.{◌≡◌, ◌+◌, ◌*◌, ◌<◌, ◌≤◌, length, IfOk};
ghost use Rattle.std.specs.List.{All};
ghost use Rattle.std.specs.List.Sorted.{IsPermutation, IsNonDecreasingBy};
ghost use Rattle.elf_image.specs.ElfFiles.{headers_offset, headers_count, segments, overlap};
ghost use Rattle.elf_image.specs.Segments.{is_segment};

use crate::file_header::{headers_count, headers_offset};
use crate::format::PROGRAM_HEADER_SIZE;
use crate::program_header::ProgramHeader;
use std::alloc::{AllocError, Global};

/// The segments of a file, by address.
pub(crate) fn sorted_segments(alloc: Global, file: &[u8]) -> Result<Vec<ProgramHeader>, AllocError>
    requires long { 52 ≤ length file.now }
    requires within { 0 < headers_count file.now →
        headers_offset file.now + 32 * headers_count file.now ≤ length file.now }
    ensures permutation { IfOk result (λ loaded. IsPermutation (segments file.now) loaded.items) }
    ensures sorted { IfOk result (λ loaded. IsNonDecreasingBy (λ segment.
        segment.address) loaded.items) }
{
    let mut loaded = segments(alloc, file)?;
    loaded.sort_unstable_by_key(|segment| segment.address);
    Ok(loaded)
}

/// The segments of a file.
fn segments(alloc: Global, file: &[u8]) -> Result<Vec<ProgramHeader>, AllocError>
    requires long { 52 ≤ length file.now }
    requires within { 0 < headers_count file.now →
        headers_offset file.now + 32 * headers_count file.now ≤ length file.now }
    ensures { IfOk result (λ loaded. loaded.items ≡ segments file.now) }
{
    let mut loaded = Vec::new(alloc);
    let start = headers_offset(file) as usize;
    for place in 0..headers_count(file) as usize {
        let header = ProgramHeader::read(file, start + PROGRAM_HEADER_SIZE * place);
        if is_segment(&header) {
            loaded.push(header)?;
        }
    }
    Ok(loaded)
}

/// Whether a header's segment is loaded and takes memory.
fn is_segment(header: &ProgramHeader) -> bool
    ensures { result ≡ is_segment header.now }
{
    header.is_load() && header.memory_size > 0
}

/// Whether two segments share an address.
pub(crate) fn do_overlap(loaded: &[ProgramHeader]) -> bool
    requires sorted { IsNonDecreasingBy (λ segment. segment.address) loaded.now }
    requires full { All (λ segment. 0 < segment.memory_size) loaded.now }
    ensures { result ≡ overlap loaded.now }
{
    for place in 1..loaded.len() {
        if loaded[place - 1].end() > loaded[place].address as u64 {
            return true;
        }
    }
    false
}
