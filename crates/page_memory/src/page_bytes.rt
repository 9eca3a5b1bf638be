//! Little-endian numbers of 1, 2 or 4 bytes in a page, at aligned offsets, and plain bytes at any.

ghost use Rattle.std.specs.Prelude.{◌≡◌, ◌+◌, ◌%◌, ◌<◌, ◌≤◌, length, drop};
ghost use Rattle.byteorder.specs.Endian.{little_bytes, little_number};
ghost use Rattle.page_memory.specs.Pages.{overwritten};
ghost use Rattle.page_memory.specs.Words.{bytes_in, page_offset};

use crate::words::{Width, offset_in_page};
use byteorder::{ByteOrder, LittleEndian};

/// The little-endian number in a page's 4096 bytes at an address that is aligned to its width.
#[inline]
pub fn number(page: &[u8], width: Width, address: u32) -> u32
    requires whole { length page.now ≡ 4096 }
    requires aligned { address % bytes_in width ≡ 0 }
    ensures { result ≡ little_number (bytes_in width) (drop (page_offset address) page.now) }
{
    number_from(page, width, offset_in_page(address))
}

/// The little-endian number in a page's 4096 bytes at an offset that is aligned to its width.
#[inline]
pub fn number_from(page: &[u8], width: Width, offset: usize) -> u32
    requires whole { length page.now ≡ 4096 }
    requires aligned { offset % bytes_in width ≡ 0 }
    requires within { offset < 4096 }
    ensures { result ≡ little_number (bytes_in width) (drop offset page.now) }
{
    let from = &page[offset..];
    match width {
        Width::Byte => u32::from(from[0]),
        Width::Half => u32::from(LittleEndian::read_u16(from)),
        Width::Word => LittleEndian::read_u32(from),
    }
}

/// Writes the low bytes of a word into a page's 4096 bytes at an address that is aligned to their width.
#[inline]
pub(crate) fn put_number(page: &mut [u8], width: Width, address: u32, word: u32)
    requires whole { length page.old ≡ 4096 }
    requires aligned { address % bytes_in width ≡ 0 }
    ensures { page.new ≡ overwritten page.old (page_offset address)
        (little_bytes (bytes_in width) word) }
{
    put_number_from(page, width, offset_in_page(address), word);
}

/// Writes the low bytes of a word into a page's 4096 bytes at an offset that is aligned to their width.
#[inline]
#[tactic(auto, using(crate::proofs::Overwriting::one_byte))]
pub fn put_number_from(page: &mut [u8], width: Width, offset: usize, word: u32)
    requires whole { length page.old ≡ 4096 }
    requires aligned { offset % bytes_in width ≡ 0 }
    requires within { offset < 4096 }
    ensures { page.new ≡ overwritten page.old offset (little_bytes (bytes_in width) word) }
{
    match width {
        Width::Byte => page[offset] = (word % 0x100) as u8,
        Width::Half => {
            LittleEndian::write_u16(&mut page[offset..offset + 2], (word % 0x1_0000) as u16);
        }
        Width::Word => LittleEndian::write_u32(&mut page[offset..offset + 4], word),
    }
}

/// Writes bytes into a page's 4096 bytes, from an offset on.
#[inline]
pub fn put_bytes(page: &mut [u8], offset: usize, bytes: &[u8])
    requires whole { length page.old ≡ 4096 }
    requires within { offset + length bytes.now ≤ 4096 }
    ensures { page.new ≡ overwritten page.old offset bytes.now }
{
    page[offset..offset + bytes.len()].copy_from_slice(bytes);
}
