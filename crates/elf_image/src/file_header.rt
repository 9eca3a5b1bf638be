//! The ELF header of a file: its fields, and its first fault.

ghost use Rattle.std.specs.Prelude.{◌≡◌, ◌+◌, ◌≤◌, length, slice_index};
ghost use Rattle.elf_image.specs.ElfFiles.{half_at, word_at, is_short, begins_as_elf, is_not_elf, is_wrong_class, is_wrong_type, is_wrong_machine, has_flags, has_no_headers, headers_count, headers_offset, header_fault};

use crate::fault::ElfFault;
use crate::format::{EXECUTABLE_FILE, HEADER_SIZE, PROGRAM_HEADER_SIZE, RISC_V, VERSION};
use byteorder::{ByteOrder, LittleEndian};

/// The first four bytes of an ELF file.
const MAGIC: u32 = 0x464C_457F;

/// Bits of `e_flags` that ask for what this machine does not have: compressed instructions, a
/// floating-point ABI, RVE.
const UNSUPPORTED_FLAGS: u32 = 0xF;

/// The 16-bit number at an offset of a file.
#[tactic(auto, unfolding(crate::specs::ElfFiles::half_at))]
pub(crate) fn half_at(file: &[u8], offset: usize) -> u16
    requires { offset + 2 ≤ length file.now }
    ensures { result ≡ half_at offset file.now }
{
    LittleEndian::read_u16(&file[offset..])
}

/// The 32-bit number at an offset of a file.
#[tactic(auto, unfolding(crate::specs::ElfFiles::word_at))]
pub(crate) fn word_at(file: &[u8], offset: usize) -> u32
    requires { offset + 4 ≤ length file.now }
    ensures { result ≡ word_at offset file.now }
{
    LittleEndian::read_u32(&file[offset..])
}

/// `e_entry`: where the program begins.
pub(crate) fn entry(file: &[u8]) -> u32
    requires { 52 ≤ length file.now }
    ensures { result ≡ word_at 24 file.now }
{
    word_at(file, 24)
}

/// `e_phoff`: where the program headers are in the file.
pub(crate) fn headers_offset(file: &[u8]) -> u32
    requires { 52 ≤ length file.now }
    ensures { result ≡ headers_offset file.now }
{
    word_at(file, 28)
}

/// `e_phnum`: how many they are.
pub(crate) fn headers_count(file: &[u8]) -> u16
    requires { 52 ≤ length file.now }
    ensures { result ≡ headers_count file.now }
{
    half_at(file, 44)
}

/// The first fault of the ELF header.
#[tactic(auto, unfolding(crate::specs::ElfFiles::header_fault))]
pub(crate) fn header_fault(file: &[u8]) -> Option<ElfFault>
    ensures { result ≡ header_fault file.now }
{
    if file.len() < HEADER_SIZE {
        Some(ElfFault::Short)
    } else if is_not_elf(file) {
        Some(ElfFault::NotElf)
    } else if is_wrong_class(file) {
        Some(ElfFault::WrongClass)
    } else if is_wrong_type(file) {
        Some(ElfFault::WrongType)
    } else if is_wrong_machine(file) {
        Some(ElfFault::WrongMachine)
    } else if has_flags(file) {
        Some(ElfFault::Flags)
    } else if has_no_headers(file) {
        Some(ElfFault::Headers)
    } else {
        None
    }
}

/// Whether a file begins as an ELF file does, with the four bytes of `EI_MAG0` to `EI_MAG3`. What follows may still be wrong.
pub fn begins_as_elf(file: &[u8]) -> bool
    ensures { result ≡ begins_as_elf file.now }
{
    if file.len() < 4 {
        return false;
    }
    word_at(file, 0) == MAGIC
}

/// Whether the file begins otherwise than an ELF file does.
fn is_not_elf(file: &[u8]) -> bool
    requires { 52 ≤ length file.now }
    ensures { result ≡ is_not_elf file.now }
{
    word_at(file, 0) != MAGIC
}

/// Whether it is not of 32 bits, little-endian and of version 1.
fn is_wrong_class(file: &[u8]) -> bool
    requires { 52 ≤ length file.now }
    ensures { result ≡ is_wrong_class file.now }
{
    !(file[4] == 1 && file[5] == 1 && file[6] == 1)
}

/// Whether it is no executable of version 1.
fn is_wrong_type(file: &[u8]) -> bool
    requires { 52 ≤ length file.now }
    ensures { result ≡ is_wrong_type file.now }
{
    !(half_at(file, 16) == EXECUTABLE_FILE && word_at(file, 20) == VERSION)
}

/// Whether it is for another machine than RISC-V.
fn is_wrong_machine(file: &[u8]) -> bool
    requires { 52 ≤ length file.now }
    ensures { result ≡ is_wrong_machine file.now }
{
    half_at(file, 18) != RISC_V
}

/// Whether it needs what this machine does not have.
fn has_flags(file: &[u8]) -> bool
    requires { 52 ≤ length file.now }
    ensures { result ≡ has_flags file.now }
{
    word_at(file, 36) & UNSUPPORTED_FLAGS != 0
}

/// Whether it has program headers of another size, or past its end.
fn has_no_headers(file: &[u8]) -> bool
    requires { 52 ≤ length file.now }
    ensures { result ≡ has_no_headers file.now }
{
    let count = headers_count(file);
    let end = u64::from(headers_offset(file)) + PROGRAM_HEADER_SIZE as u64 * u64::from(count);
    count > 0 && (half_at(file, 42) as usize != PROGRAM_HEADER_SIZE || end > file.len() as u64)
}
