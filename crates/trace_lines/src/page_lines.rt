//! Lines and records of traces of pages.

ghost use Rattle.std.specs.Prelude.{◌≡◌, position};
ghost use Rattle.std.specs.Option.{option_map};
ghost use Rattle.trace_lines.specs.Ids.{id_in, written_below};
ghost use Rattle.trace_lines.specs.PageIds.{page_of_id};
ghost use Rattle.trace_lines.specs.PageLines.{is_bar, line_reference, page_in, record_page};

use crate::number_text::id_in;
use byteorder::{ByteOrder, LittleEndian};
use clock_policy::Key;
use guest_strings::Reference;
use text_lines::{next_word, number};

/// A page that represents an object: each id has its own.
#[inline(always)]
#[tactic(auto, unfolding(crate::specs::PageIds::page_of_id))]
pub(crate) fn page_of_id(id: u64) -> Key
    ensures { result ≡ page_of_id id }
{
    Key {
        process: (id / (1 << 32)) as u32,
        vpn: (id % (1 << 32)) as u32,
    }
}

/// The page that an id represents.
#[inline(always)]
pub(crate) fn page_of_number(number: &[u8]) -> Option<Key>
    ensures { result ≡ option_map page_of_id (id_in number.now) }
{
    let id = id_in(number)?;
    Some(page_of_id(id))
}

/// The page of a record of 24 bytes.
#[inline(always)]
#[tactic(auto, unfolding(crate::specs::PageLines::record_page))]
pub(crate) fn page_of_record(bytes: &[u8]) -> Option<Key>
    ensures { result ≡ record_page bytes.now }
{
    if bytes.len() != 24 {
        return None;
    }
    Some(page_of_id(LittleEndian::read_u64(&bytes[4..12])))
}

/// What a line refers to: its page, `P/V`, the numbers of a process and of a page, or only an id; and after it a `w` where the page was
/// written.
#[inline(always)]
pub(crate) fn reference_of_line(line: &[u8]) -> Option<Reference>
    ensures { result ≡ line_reference line.now }
{
    let (word, rest) = next_word(line)?;
    let is_written = match next_word(rest) {
        None => false,
        Some((mark, others)) => {
            if mark != b"w".as_slice() || next_word(others).is_some() {
                return None;
            }
            true
        }
    };
    let page = page_in(word)?;
    Some(Reference { page, is_written })
}

/// The page that a word names.
#[inline(always)]
#[tactic(auto, unfolding(crate::specs::PageLines::page_in))]
fn page_in(word: &[u8]) -> Option<Key>
    ensures { result ≡ page_in word.now }
{
    let Some(bar) = bar(word) else {
        return page_of_number(word);
    };
    let process = short_number(&word[..bar])?;
    let vpn = short_number(&word[bar + 1..])?;
    Some(Key { process, vpn })
}

/// Where the first bar is.
fn bar(word: &[u8]) -> Option<usize>
    ensures { result ≡ position is_bar word.now }
{
    word.iter().position(|byte| *byte == b'/')
}

/// The number of 32 bits that a text writes.
#[tactic(auto, using(crate::proofs::IdLaws::short_told))]
fn short_number(text: &[u8]) -> Option<u32>
    ensures { result ≡ written_below 4294967296 text.now }
{
    number(text, u32::MAX)
}
