//! Lines of traces of addresses, as other tools write them. A page has 4096 bytes there.

ghost use Rattle.std.specs.Prelude.{◌≡◌, ◌-◌, Some, None, codes, nat_eq, position, take, length};
ghost use Rattle.std.specs.List.{starts_with};
ghost use Rattle.text_lines.specs.Text.{words_of};
ghost use Rattle.trace_lines.specs.AddressLines.{
  access_to,
  is_comma,
  hexadecimal_in,
  is_of_valgrind,
  lackey_kind,
  lackey_place,
  lackey_line,
  is_title,
  is_place,
  size_in,
  memtrace_words,
  view_kind,
  kind_after,
  size_after,
  view_place,
  view_words,
  dynamorio_words,
  dynamorio_line,
};

use crate::number_text::id_to;
use crate::runs::more_pages;
use text_lines::next_word;

/// How many bytes a page has.
const PAGE: u64 = 4096;

/// What a line of such a trace is.
#[derive(Clone, Copy, Debug, PartialEq, Eq)]
pub(crate) enum AddressLine {
    Access(Access),
    /// A title, a mark, or what the tool says of itself.
    Other,
}

/// The page of an access's first byte, and how many come after it up to that of its last.
#[derive(Clone, Copy, Debug, PartialEq, Eq)]
pub(crate) struct Access {
    pub(crate) first: u64,
    pub(crate) more: u32,
    pub(crate) is_written: bool,
}

/// An access to so many bytes at an address.
#[tactic(auto, unfolding(crate::specs::AddressLines::access_to))]
fn access_to(address: u64, size: u64, is_written: bool) -> Option<AddressLine>
    ensures { result ≡ access_to address size is_written }
{
    let last = address.checked_add(size.checked_sub(1)?)?;
    let first = address / PAGE;
    let more = more_pages(first, last / PAGE)?;
    Some(AddressLine::Access(Access {
        first,
        more,
        is_written,
    }))
}

/// The number that the hexadecimal digits after `0x` represent.
#[tactic(auto, unfolding(crate::specs::AddressLines::hexadecimal_in))]
fn hexadecimal_in(word: &[u8]) -> Option<u64>
    ensures { result ≡ hexadecimal_in word.now }
{
    if word.starts_with(b"0x".as_slice()) {
        id_to(&word[2..], 16)
    } else {
        None
    }
}

/// A line of `valgrind --tool=lackey --trace-mem=yes`: a kind of access, `I`, `L`, `S` or `M`, and `ADDRESS,SIZE`. What valgrind says
/// itself begins with `==` or `--`.
#[tactic(auto, unfolding(crate::specs::AddressLines::lackey_line))]
pub(crate) fn lackey_line(line: &[u8]) -> Option<AddressLine>
    ensures { result ≡ lackey_line line.now }
{
    if is_of_valgrind(line) {
        return Some(AddressLine::Other);
    }
    let (kind, rest) = next_word(line)?;
    let (place, others) = next_word(rest)?;
    if next_word(others).is_some() {
        return None;
    }
    lackey_place(lackey_kind(kind), place)
}

/// Whether valgrind says a line itself, or it is empty.
#[tactic(auto, unfolding(crate::specs::AddressLines::is_of_valgrind))]
fn is_of_valgrind(line: &[u8]) -> bool
    ensures { result ≡ is_of_valgrind line.now }
{
    line.is_empty() || line.starts_with(b"==".as_slice()) || line.starts_with(b"--".as_slice())
}

/// Whether an access of a kind writes.
#[tactic(auto, unfolding(crate::specs::AddressLines::lackey_kind))]
fn lackey_kind(word: &[u8]) -> Option<bool>
    ensures { result ≡ lackey_kind word.now }
{
    if word == b"I".as_slice() || word == b"L".as_slice() {
        Some(false)
    } else if word == b"S".as_slice() || word == b"M".as_slice() {
        Some(true)
    } else {
        None
    }
}

/// An access of a kind to `ADDRESS,SIZE`.
#[tactic(auto, unfolding(crate::specs::AddressLines::lackey_place))]
fn lackey_place(is_written: Option<bool>, place: &[u8]) -> Option<AddressLine>
    ensures { result ≡ lackey_place is_written place.now }
{
    let comma = comma(place)?;
    let address = id_to(&place[..comma], 16)?;
    let size = id_to(&place[comma + 1..], 10)?;
    access_to(address, size, is_written?)
}

/// Where the first comma is.
fn comma(text: &[u8]) -> Option<usize>
    ensures { result ≡ position is_comma text.now }
{
    text.iter().position(|byte| *byte == b',')
}

/// A line of DynamoRIO's clients: of `memtrace`, `ADDRESS: SIZE, WORD`, where the word is `r`, `w` or an instruction's name; or of
/// `drmemtrace`'s view, with `ifetch`, `read` or `write`, `SIZE byte(s) @ ADDRESS`. Titles and marks have a `<`, or begin with `--`.
#[tactic(auto, unfolding(crate::specs::AddressLines::dynamorio_line))]
pub(crate) fn dynamorio_line(line: &[u8]) -> Option<AddressLine>
    ensures { result ≡ dynamorio_line line.now }
{
    if is_title(line) {
        return Some(AddressLine::Other);
    }
    dynamorio_words(line)
}

/// Whether a line is a title, a mark or empty.
#[tactic(auto, unfolding(crate::specs::AddressLines::is_title))]
fn is_title(line: &[u8]) -> bool
    ensures { result ≡ is_title line.now }
{
    line.is_empty() || line.contains(&b'<') || line.starts_with(b"--".as_slice())
}

/// What a line says that is no title.
fn dynamorio_words(line: &[u8]) -> Option<AddressLine>
    ensures { result ≡ dynamorio_words (starts_with nat_eq line.now (codes "Output format")) (words_of
        line.now) }
{
    let (first, rest) = next_word(line)?;
    if is_place(first) {
        return memtrace_line(first, rest);
    }
    if line.starts_with(b"Output format".as_slice()) {
        return Some(AddressLine::Other);
    }
    view_line(line)
}

/// Whether a word is an address of `memtrace`, with a colon after it.
#[tactic(auto, unfolding(crate::specs::AddressLines::is_place))]
fn is_place(word: &[u8]) -> bool
    ensures { result ≡ is_place word.now }
{
    word.starts_with(b"0x".as_slice()) && word.ends_with(b":".as_slice())
}

/// What follows an address of `memtrace`.
fn memtrace_line(place: &[u8], rest: &[u8]) -> Option<AddressLine>
    ensures { result ≡ memtrace_words place.now (words_of rest.now) }
{
    let (size, rest) = next_word(rest)?;
    let (word, _) = next_word(rest)?;
    let address = address_of(place)?;
    let size = size_in(size)?;
    access_to(address, size, word == b"w".as_slice())
}

/// The address before a colon.
fn address_of(place: &[u8]) -> Option<u64>
    ensures { result ≡ hexadecimal_in (take (length place.now - 1) place.now) }
{
    hexadecimal_in(without_last(place))
}

/// All bytes but the last.
fn without_last(text: &[u8]) -> &[u8]
    ensures { result.now ≡ take (length text.now - 1) text.now }
{
    &text[..text.len().saturating_sub(1)]
}

/// The size before a comma.
#[tactic(auto, unfolding(crate::specs::AddressLines::size_in))]
fn size_in(word: &[u8]) -> Option<u64>
    ensures { result ≡ size_in word.now }
{
    if word.ends_with(b",".as_slice()) {
        id_to(without_last(word), 10)
    } else {
        None
    }
}

/// The kind of access is before the size, and the address is after an `@`.
#[tactic(auto, using(crate::proofs::AddressLineLaws::view_end, crate::proofs::AddressLineLaws::view_at, crate::proofs::AddressLineLaws::view_on))]
fn view_line(line: &[u8]) -> Option<AddressLine>
    ensures { result ≡ view_words None None (words_of line.now) }
{
    let mut rest = line;
    let mut kind = None;
    let mut size = None;
    'words: while let Some((word, others)) = next_word(rest) {
        if word == b"@".as_slice() {
            return view_place(kind, size, others);
        }
        size = size_after(kind, size, word);
        kind = kind_after(kind, word);
        rest = others;
    }
    None
}

/// The address after the `@`, and what was before it.
fn view_place(kind: Option<bool>, size: Option<Option<u64>>, rest: &[u8]) -> Option<AddressLine>
    ensures { result ≡ view_place kind size (words_of rest.now) }
{
    let (address, _) = next_word(rest)?;
    let address = hexadecimal_in(address)?;
    let size = size.flatten()?;
    access_to(address, size, kind?)
}

/// Whether an access of a kind writes, once its word was read.
#[tactic(auto, unfolding(crate::specs::AddressLines::kind_after))]
fn kind_after(kind: Option<bool>, word: &[u8]) -> Option<bool>
    ensures { result ≡ kind_after kind word.now }
{
    view_kind(word).or(kind)
}

/// The number that the word after the kind represents, once it was read.
#[tactic(auto, unfolding(crate::specs::AddressLines::size_after))]
fn size_after(kind: Option<bool>, size: Option<Option<u64>>, word: &[u8]) -> Option<Option<u64>>
    ensures { result ≡ size_after kind size word.now }
{
    if kind.is_some() && size.is_none() && view_kind(word).is_none() {
        Some(id_to(word, 10))
    } else {
        size
    }
}

/// Whether an access of a kind writes, if the word is a kind.
#[tactic(auto, unfolding(crate::specs::AddressLines::view_kind))]
fn view_kind(word: &[u8]) -> Option<bool>
    ensures { result ≡ view_kind word.now }
{
    if word == b"ifetch".as_slice() || word == b"read".as_slice() {
        Some(false)
    } else if word == b"write".as_slice() {
        Some(true)
    } else {
        None
    }
}
