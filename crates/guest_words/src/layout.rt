//! The bytes of an object that holds words.

ghost use Rattle.std.specs.Prelude.{◌≡◌, ◌+◌, ◌-◌, ◌^◌, ◌<◌, ◌≤◌, ◌++◌, IfOk, OnOk, length, map, min};
ghost use Rattle.guest_words.specs.Words.{numbers_of, object_bytes, size_of, texts_of};

use elf_image::bytes_of_words;
use std::alloc::{AllocError, Global};

/// How many bytes come before the first word: four for each word, and these.
const HEAD: u32 = 8;

/// How many bytes words take; at most the greatest number.
pub(crate) fn size_of(words: &[&str]) -> u64
    ensures { result ≡ min (size_of (map (λ s. s.now) words.now)) (2 ^ 64 - 1) }
{
    let mut size = u64::from(HEAD);
    for word in words {
        size = size.saturating_add(5).saturating_add(word.len() as u64);
    }
    size
}

/// The bytes of an object at an address, of so many bytes.
pub(crate) fn object_bytes(
    alloc: Global,
    address: u32,
    size: u32,
    words: &[&str],
) -> Result<Vec<u8>, AllocError>
    requires fits { size_of (map (λ s. s.now) words.now) ≤ size }
    requires low { address + size < 2 ^ 32 }
    ensures bytes { IfOk result (λ bytes. bytes.items ≡ object_bytes address size (map (λ s.
        s.now) words.now)) }
    ensures many { IfOk result (λ bytes. length bytes.items ≡ size) }
{
    let numbers = numbers_of(alloc, address, words)?;
    let mut bytes = bytes_of_words(alloc, numbers.as_slice())?;
    add_texts(&mut bytes, words)?;
    bytes.resize(size as usize, 0)?;
    Ok(bytes)
}

/// The numbers before the words.
fn numbers_of(alloc: Global, address: u32, words: &[&str]) -> Result<Vec<u32>, AllocError>
    requires low { address + size_of (map (λ s. s.now) words.now) < 2 ^ 32 }
    ensures { IfOk result (λ numbers. numbers.items ≡ numbers_of address (map (λ s.
        s.now) words.now)) }
{
    let count = words.len() as u32;
    let mut numbers = Vec::new(alloc);
    numbers.push(count)?;
    let mut place = address + HEAD + 4 * count;
    for word in words {
        numbers.push(place)?;
        place += word.len() as u32 + 1;
    }
    numbers.push(0)?;
    Ok(numbers)
}

/// Appends words to bytes, each with a zero byte after it.
fn add_texts(bytes: &mut Vec<u8>, words: &[&str]) -> Result<(), AllocError>
    ensures { OnOk result (bytes.new.items ≡ bytes.old.items ++ texts_of (map (λ s.
        s.now) words.now)) }
{
    for word in words {
        bytes.extend_from_slice(word.as_bytes())?;
        bytes.push(0)?;
    }
    Ok(())
}
