//! Sources, words and ELF files.

use elf_image::{ElfFault, Image, read_elf, write_elf};
use rv_asm::{AsmError, assemble};
use std::alloc::{AllocError, Global};
use test_guests::WRITES_A_LINE;

/// Numbers that one word loads, and such as take two.
const LOADED: &str = "li t0,2047
li t0,-2048
li t0,2048
li t0,0x80000000
";

const LOADED_WORDS: [u32; 6] = [
    0x7FF0_0293,
    0x8000_0293,
    0x0000_12B7,
    0x8002_8293,
    0x8000_02B7,
    0x0002_8293,
];

/// Sources of one line, each with its fault.
const FAULTS: [(&str, u8); 6] = [
    ("nop $", 1),
    ("foo t0", 2),
    ("addi t0, t0", 3),
    ("addi t0, t0, 2048", 4),
    ("a: a: nop", 5),
    ("j away", 6),
];

/// An image of words.
pub(crate) fn image_of_words(alloc: Global) -> Result<Image, AllocError> {
    match Image::from_words(alloc, &WRITES_A_LINE) {
        Ok(image) => Ok(image),
        Err(_) => Err(AllocError),
    }
}

/// The image of a source that has no fault.
pub(crate) fn image_of(alloc: Global, source: &str) -> Result<Image, AllocError> {
    match assemble(alloc, source) {
        Ok(listing) => Ok(listing.into_image()),
        Err(_) => Err(AllocError),
    }
}

/// Whether a source is its words.
pub(crate) fn assembles(alloc: Global) -> Result<bool, AllocError> {
    match assemble(alloc, LOADED) {
        Ok(listing) => Ok(listing.words() == LOADED_WORDS.as_slice()),
        Err(AsmError::NoMemory) => Err(AllocError),
        Err(AsmError::Fault { .. }) => Ok(false),
    }
}

/// Whether each source has its fault.
pub(crate) fn finds_faults(alloc: Global) -> Result<bool, AllocError> {
    for (source, number) in FAULTS {
        match assemble(alloc, source) {
            Err(AsmError::NoMemory) => return Err(AllocError),
            Err(AsmError::Fault { line: 1, kind }) => {
                if kind.number() != number {
                    return Ok(false);
                }
            }
            _ => return Ok(false),
        }
    }
    Ok(true)
}

/// Whether a file of an image is as long as it is to be, and is read as that image.
pub(crate) fn writes_a_file(alloc: Global) -> Result<bool, AllocError> {
    let image = image_of_words(alloc)?;
    let file = write_elf(alloc, &image)?;
    if file.len() != 8192 {
        return Ok(false);
    }
    match read_elf(alloc, file.as_slice()) {
        Ok(read) => Ok(is_same(&read, &image)),
        Err(ElfFault::NoMemory) => Err(AllocError),
        Err(_) => Ok(false),
    }
}

/// Whether two images of one page are the same.
fn is_same(one: &Image, other: &Image) -> bool {
    let (Some(first), Some(second)) = (one.pages().first(), other.pages().first()) else {
        return false;
    };
    let same_place = first.number == second.number && one.entry() == other.entry();
    same_place && first.page.bytes() == second.page.bytes()
}
