//! The fingerprint of bytes: their SHA-256 digest and their number.

ghost use Rattle.std.specs.Prelude.{◌≡◌, ◌↔◌, IsTrue};
ghost use Rattle.std.specs.Str.{bytes_eq};
ghost use Rattle.hex.specs.Hex.{encode_lower};
ghost use Rattle.run_records.specs.Words.{digest_of};
ghost use Rattle.run_records.specs.Prints.{print_of};
ghost use Rattle.run_records.specs.RecordLines.{fingerprint_of};

use crate::numbers::{after_word, cut, number_in};
use hex::{decode_to_slice, encode_to_slice};
use sha2::{Digest, Sha256};

/// Identifies bytes by their digest and their number.
#[derive(Clone, Copy, Debug, PartialEq, Eq)]
pub struct Fingerprint {
    /// SHA-256
    pub digest: [u8; 32],
    pub length: u64,
}

/// The fingerprint of these bytes.
pub fn take_fingerprint(bytes: &[u8]) -> Fingerprint
    ensures { result ≡ print_of bytes.now }
{
    Fingerprint {
        digest: Sha256::digest(bytes),
        length: bytes.len() as u64,
    }
}

/// Whether bytes have this fingerprint.
pub fn is_print_of(print: &Fingerprint, bytes: &[u8]) -> bool
    ensures { IsTrue result ↔ (print_of bytes.now ≡ print.now) }
{
    take_fingerprint(bytes) == *print
}

/// What the line of this name says.
#[tactic(auto, unfolding(crate::specs::RecordLines::fingerprint_of))]
pub(crate) fn fingerprint_in(name: &[u8], line: &[u8]) -> Option<Fingerprint>
    ensures { result ≡ fingerprint_of name.now line.now }
{
    let words = after_word(name, line)?;
    let (digest, length) = cut(words)?;
    let digest = digest_in(digest)?;
    let length = number_in(length, u64::MAX)?;
    Some(Fingerprint { digest, length })
}

/// The digest of 32 bytes that hexadecimal digits write, in lower case.
#[tactic(auto, unfolding(crate::specs::Words::digest_of))]
fn digest_in(text: &[u8]) -> Option<[u8; 32]>
    ensures { result ≡ digest_of text.now }
{
    let mut digest = [0u8; 32];
    if decode_to_slice(text, &mut digest).is_err() {
        return None;
    }
    if is_written(&digest, text) {
        Some(digest)
    } else {
        None
    }
}

/// Whether a text is what is written of a digest.
fn is_written(digest: &[u8; 32], text: &[u8]) -> bool
    ensures { result ≡ bytes_eq (encode_lower digest.now) text.now }
{
    let mut written = [0u8; 64];
    encode_to_slice(digest.as_slice(), &mut written).is_ok() && written.as_slice() == text
}
