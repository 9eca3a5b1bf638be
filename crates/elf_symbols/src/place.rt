//! Addresses by names.

use std::fmt;

/// A place of a program: so many bytes after a symbol.
#[derive(Clone, Copy, Debug)]
pub struct Place<'f> {
    pub name: &'f [u8],
    /// Where the symbol is.
    pub address: u32,
    pub offset: u32,
}

impl fmt::Display for Place<'_> {
    fn fmt<W: fmt::Write>(&self, f: &mut fmt::Formatter<W>) -> fmt::Result {
        for byte in self.name {
            f.write_char(shown(*byte))?;
        }
        let offset = self.offset;
        if offset > 0 {
            write!(f, " + {offset}")?;
        }
        Ok(())
    }
}

/// A character of a name that any terminal shows.
fn shown(byte: u8) -> char {
    if byte.is_ascii_graphic() {
        char::from(byte)
    } else {
        '?'
    }
}
