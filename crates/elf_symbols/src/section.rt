//! Sections of a file.

ghost use Rattle.std.specs.Prelude.{◌≡◌, ◌+◌, ◌*◌, ◌<◌, ◌≤◌, find, slice_get, option_copied, option_map, length};
ghost use Rattle.elf_symbols.specs.Sections.{headers_offset, is_symbol_table, numbered, section_bytes, section_count, sections, symbol_tables};

use crate::reading::{bytes_at, half_at, word_at};

/// How many bytes the file header has.
const FILE_HEADER_SIZE: usize = 52;

/// Where the file header says where the section headers begin, how large each is and how many there are.
const HEADERS_AT: usize = 32;

const HEADER_SIZE_AT: usize = 46;

const HEADER_COUNT_AT: usize = 48;

/// How many bytes a section header has.
const HEADER_SIZE: usize = 40;

/// What kind of section a table of symbols is.
const SYMBOL_TABLE: u32 = 2;

/// A section header, as far as it is needed.
#[derive(Clone, Copy, Debug)]
pub(crate) struct Section {
    pub(crate) kind: u32,
    /// Where it is in memory.
    pub(crate) address: u32,
    /// Where it is in the file, and how many bytes it has.
    pub(crate) offset: u32,
    pub(crate) size: u32,
    /// For a table of symbols, the number of the section with its names.
    link: u32,
}

impl Section {
    /// The bytes of the section, if they are there.
    fn bytes(self, file: &[u8]) -> Option<&[u8]>
        ensures { option_copied result ≡ section_bytes file.now self }
    {
        bytes_at(file, self.offset as usize, self.size as usize)
    }
}

/// The first table of symbols and that of its names, if the file has both.
pub(crate) fn symbol_tables(file: &[u8]) -> Option<(&[u8], &[u8])>
    ensures { option_map (λ tables. (tables.0.now, tables.1.now)) result ≡
        symbol_tables file.now }
{
    let table = symbol_section(file)?;
    let names = section_of(file, table.link as usize)?;
    Some((table.bytes(file)?, names.bytes(file)?))
}

/// The first section that is a table of symbols.
#[tactic(auto, using(crate::proofs::SectionHeaders::section_found, crate::proofs::SectionHeaders::section_passed, crate::proofs::SectionHeaders::none_left))]
fn symbol_section(file: &[u8]) -> Option<Section>
    ensures { result ≡ find is_symbol_table (sections file.now) }
{
    'sections: for number in 0..section_count(file) {
        let section = read_section(file, number);
        if section.kind == SYMBOL_TABLE {
            return Some(section);
        }
    }
    None
}

/// The section of a number, if the file has so many.
#[tactic(auto, using(crate::proofs::SectionHeaders::section_there, crate::proofs::SectionHeaders::section_past))]
pub(crate) fn section_of(file: &[u8], number: usize) -> Option<Section>
    ensures { result ≡ slice_get (sections file.now) number }
{
    if number >= section_count(file) {
        return None;
    }
    Some(read_section(file, number))
}

/// The section of a number.
#[tactic(auto, unfolding(crate::specs::Sections::section_at))]
fn read_section(file: &[u8], number: usize) -> Section
    requires { number < section_count file.now }
    ensures { result ≡ numbered file.now number }
{
    let header = header_place(file, number);
    Section {
        kind: word_at(file, header + 4),
        address: word_at(file, header + 12),
        offset: word_at(file, header + 16),
        size: word_at(file, header + 20),
        link: word_at(file, header + 24),
    }
}

/// Where the header of a section is.
fn header_place(file: &[u8], number: usize) -> usize
    requires { number < section_count file.now }
    ensures place { result ≡ headers_offset file.now + 40 * number }
    ensures within { result + 40 ≤ length file.now }
{
    word_at(file, HEADERS_AT) as usize + HEADER_SIZE * number
}

/// How many sections the file has: none where their headers do not all lie in it.
#[tactic(auto, unfolding(crate::specs::Sections::section_count))]
fn section_count(file: &[u8]) -> usize
    ensures { result ≡ section_count file.now }
{
    if file.len() < FILE_HEADER_SIZE {
        return 0;
    }
    if half_at(file, HEADER_SIZE_AT) as usize != HEADER_SIZE {
        return 0;
    }
    let count = half_at(file, HEADER_COUNT_AT);
    let end = u64::from(word_at(file, HEADERS_AT)) + HEADER_SIZE as u64 * u64::from(count);
    if end > file.len() as u64 {
        0
    } else {
        count as usize
    }
}
