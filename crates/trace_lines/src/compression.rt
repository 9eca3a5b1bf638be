//! Files that are compressed.

ghost use Rattle.std.specs.Prelude.{◌≡◌};
ghost use Rattle.trace_lines.specs.PlainLines.{compression_at, compression_in};

use std::fmt;

/// What compressed a file.
#[derive(Clone, Copy, Debug, PartialEq, Eq)]
pub enum Compression {
    Gzip,
    Zstd,
    Xz,
}

impl fmt::Display for Compression {
    fn fmt<W: fmt::Write>(&self, f: &mut fmt::Formatter<W>) -> fmt::Result {
        f.write_str(match self {
            Compression::Gzip => "gzip",
            Compression::Zstd => "zstd",
            Compression::Xz => "xz",
        })
    }
}

/// What a line or record of this number shows that its file was compressed by: the first one begins with what names the format.
#[inline(always)]
#[tactic(auto, unfolding(crate::specs::PlainLines::compression_at))]
pub fn compression_at(number: u64, piece: &[u8]) -> Option<Compression>
    ensures { result ≡ compression_at number piece.now }
{
    if number != 1 {
        return None;
    }
    compression_in(piece)
}

#[tactic(auto, unfolding(crate::specs::PlainLines::compression_in))]
fn compression_in(bytes: &[u8]) -> Option<Compression>
    ensures { result ≡ compression_in bytes.now }
{
    if bytes.starts_with(b"\x1F\x8B\x08".as_slice()) {
        Some(Compression::Gzip)
    } else if bytes.starts_with(b"\x28\xB5\x2F\xFD".as_slice()) {
        Some(Compression::Zstd)
    } else if bytes.starts_with(b"\xFD7zXZ\x00".as_slice()) {
        Some(Compression::Xz)
    } else {
        None
    }
}
