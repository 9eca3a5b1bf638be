//! One program header of an ELF file: its fields, the tests of its segment, and the pages that it touches.

ghost use Rattle.std.specs.Prelude.{◌≡◌, ◌+◌, ◌/◌, ◌≤◌, length};
ghost use Rattle.page_memory.specs.MemoryMap.{image_end};
ghost use Rattle.elf_image.specs.ElfFiles.{header_at, is_load, is_dynamic, is_out_of_file, is_larger_in_file, is_out_of_range, end_of};

use crate::bounds::END_OF_RANGE;
use crate::file_header::word_at;
use crate::format::{DYNAMIC, INTERPRETER, LOAD};
use page_memory::PAGE_SIZE;

/// What a program header of an ELF file says of a segment.
#[derive(Clone, Copy, PartialEq, Eq, Debug)]
pub struct ProgramHeader {
    /// `p_type`.
    pub kind: u32,
    /// `p_offset`: where the segment's bytes are in the file.
    pub offset: u32,
    /// `p_vaddr`: its first address.
    pub address: u32,
    /// `p_filesz`: how many bytes it takes from the file.
    pub file_size: u32,
    /// `p_memsz`: how many it has in memory.
    pub memory_size: u32,
    /// `p_flags`.
    pub flags: u32,
}

impl ProgramHeader {
    ghost use Rattle.elf_image.specs.ElfFiles.{header_at, is_load, is_dynamic, is_out_of_file, is_larger_in_file, is_out_of_range, end_of};

    /// The program header at an offset of a file.
    #[tactic(auto, unfolding(crate::specs::ElfFiles::header_at))]
    pub(crate) fn read(file: &[u8], offset: usize) -> Self
        requires { offset + 32 ≤ length file.now }
        ensures { result ≡ header_at file.now offset }
    {
        ProgramHeader {
            kind: word_at(file, offset),
            offset: word_at(file, offset + 4),
            address: word_at(file, offset + 8),
            file_size: word_at(file, offset + 16),
            memory_size: word_at(file, offset + 20),
            flags: word_at(file, offset + 24),
        }
    }

    /// Whether its segment is loaded.
    pub(crate) fn is_load(&self) -> bool
        ensures { result ≡ is_load self.now }
    {
        self.kind == LOAD
    }

    /// Whether it is for a dynamic linker.
    pub(crate) fn is_dynamic(&self) -> bool
        ensures { result ≡ is_dynamic self.now }
    {
        self.kind == DYNAMIC || self.kind == INTERPRETER
    }

    /// Whether it takes bytes from past the end of a file of this size.
    pub(crate) fn is_out_of_file(&self, size: usize) -> bool
        ensures { result ≡ is_out_of_file size self.now }
    {
        self.file_size > 0 && self.offset as u64 + self.file_size as u64 > size as u64
    }

    /// Whether it takes more bytes from the file than it has in memory.
    pub(crate) fn is_larger_in_file(&self) -> bool
        ensures { result ≡ is_larger_in_file self.now }
    {
        self.file_size > self.memory_size
    }

    /// Whether it has an address at or above 0x70000000.
    pub(crate) fn is_out_of_range(&self) -> bool
        ensures { result ≡ is_out_of_range self.now }
    {
        self.memory_size > 0 && self.end() > END_OF_RANGE
    }

    /// The first address after the segment.
    pub(crate) fn end(&self) -> u64
        ensures { result ≡ end_of self.now }
    {
        self.address as u64 + self.memory_size as u64
    }

    /// The number of the first page that a segment of some bytes touches.
    pub(crate) fn first_page(&self) -> u32
        ensures { result ≡ self.now.address / 4096 }
    {
        self.address / PAGE_SIZE as u32
    }

    /// The number of the first page after it.
    pub(crate) fn end_page(&self) -> u32
        requires { end_of self.now ≤ image_end }
        ensures { result ≡ (end_of self.now + 4095) / 4096 }
    {
        self.end().div_ceil(PAGE_SIZE as u64) as u32
    }
}
