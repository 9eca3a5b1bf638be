//! Files whose object holds words.

ghost use Rattle.std.specs.Prelude.{◌≡◌, ◌+◌, ◌≤◌, IfErr, IfOk, length, map};
ghost use Rattle.guest_words.specs.Given.{RefusesWords};
ghost use Rattle.guest_words.specs.Words.{HasWords, with_bytes};

use crate::fault::WordsFault;
use crate::layout::{object_bytes, size_of};
use elf_symbols::find_object;
use std::alloc::{AllocError, Global};

/// The name of the object.
const OBJECT: &[u8] = b"__guest_words";

/// The bytes of an image's file with words in its object; with no words the same bytes. A fault has the image's name.
#[tactic(auto, using(crate::proofs::FilledFiles::has_none, crate::proofs::FilledFiles::has_some, crate::proofs::FilledFiles::refuses_some))]
pub fn with_words<'a>(
    alloc: Global,
    file: Vec<u8>,
    image: &'a str,
    words: &[&str],
) -> Result<Vec<u8>, WordsFault<'a>>
    ensures has { IfOk result (λ new. HasWords (map (λ s. s.now) words.now) file.items new.items) }
    ensures refused { IfErr result (RefusesWords image.now (map (λ s.
        s.now) words.now) file.items) }
{
    if words.is_empty() {
        return Ok(file);
    }
    let Some(place) = find_object(file.as_slice(), OBJECT) else {
        return Err(WordsFault::NoObject(image));
    };
    let need = size_of(words);
    if need > u64::from(place.size) {
        return Err(WordsFault::TooLong {
            image,
            need,
            room: place.size,
        });
    }
    let bytes = object_bytes(alloc, place.address, place.size, words)?;
    Ok(with_bytes(alloc, file.as_slice(), place.offset, bytes.as_slice())?)
}

/// The bytes of a file, with others from an offset on.
fn with_bytes(
    alloc: Global,
    file: &[u8],
    offset: usize,
    bytes: &[u8],
) -> Result<Vec<u8>, AllocError>
    requires { offset + length bytes.now ≤ length file.now }
    ensures { IfOk result (λ new. new.items ≡ with_bytes offset bytes.now file.now) }
{
    let mut new = Vec::from_slice(alloc, &file[..offset])?;
    new.extend_from_slice(bytes)?;
    new.extend_from_slice(&file[offset + bytes.len()..])?;
    Ok(new)
}
