//! Parts of JSON.

use std::fmt;

/// Bytes as a string of JSON. Each byte is one character, of that code. The string is in ASCII, and a script of a page may contain it:
/// characters that could end the script are escaped.
#[derive(Clone, Copy)]
pub(crate) struct ByteText<'a>(pub &'a [u8]);

impl fmt::Display for ByteText<'_> {
    fn fmt<W: fmt::Write>(&self, f: &mut fmt::Formatter<W>) -> fmt::Result {
        f.write_str("\"")?;
        for byte in self.0 {
            write_byte(*byte, f)?;
        }
        f.write_str("\"")
    }
}

fn write_byte<W: fmt::Write>(byte: u8, f: &mut fmt::Formatter<W>) -> fmt::Result {
    match byte {
        b'"' | b'\\' | b'<' | b'>' | b'&' => write!(f, "\\u{byte:04x}"),
        b' '..=b'~' => f.write_char(char::from(byte)),
        _ => write!(f, "\\u{byte:04x}"),
    }
}

/// A value of JSON, or `null`.
#[derive(Clone, Copy)]
pub(crate) struct OrNull<T>(pub Option<T>);

impl<T: fmt::Display> fmt::Display for OrNull<T> {
    fn fmt<W: fmt::Write>(&self, f: &mut fmt::Formatter<W>) -> fmt::Result {
        match &self.0 {
            Some(value) => write!(f, "{value}"),
            None => f.write_str("null"),
        }
    }
}

/// What parts an item at a place of a list from the one before it.
pub(crate) fn comma_before(place: usize) -> &'static str {
    if place == 0 { "" } else { "," }
}
