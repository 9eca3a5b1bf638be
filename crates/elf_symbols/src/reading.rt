//! Numbers in the bytes of a file.

ghost use Rattle.std.specs.Prelude.{◌≡◌, ◌+◌, ◌≤◌, ◌<◌, ◌^◌, length, option_copied};
ghost use Rattle.elf_symbols.specs.Sections.{bytes_at, half_at, word_at};

use byteorder::{ByteOrder, LittleEndian};

/// So many bytes from an offset on, if all of them are there.
#[tactic(auto, unfolding(crate::specs::Sections::bytes_at))]
pub(crate) fn bytes_at(bytes: &[u8], offset: usize, count: usize) -> Option<&[u8]>
    ensures { option_copied result ≡ bytes_at offset count bytes.now }
{
    if offset > bytes.len() || count > bytes.len() - offset {
        return None;
    }
    Some(&bytes[offset..offset + count])
}

/// The 32-bit number at an offset.
#[tactic(auto, unfolding(crate::specs::Sections::word_at))]
pub(crate) fn word_at(bytes: &[u8], offset: usize) -> u32
    requires { offset + 4 ≤ length bytes.now }
    ensures { result ≡ word_at offset bytes.now }
{
    LittleEndian::read_u32(&bytes[offset..])
}

/// The 16-bit number at an offset.
#[tactic(auto, unfolding(crate::specs::Sections::half_at))]
pub(crate) fn half_at(bytes: &[u8], offset: usize) -> u16
    requires { offset + 2 ≤ length bytes.now }
    ensures { result ≡ half_at offset bytes.now }
{
    LittleEndian::read_u16(&bytes[offset..])
}
