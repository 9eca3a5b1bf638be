//! Whole pages from bytes.

ghost use Rattle.std.specs.Prelude.{◌≡◌, ◌<◌, ◌≤◌, ◌+◌, ◌*◌, ◌++◌, ◌^◌, IfOk, length, flat_map};
ghost use Rattle.elf_image.specs.Image.{bytes_of, padded};
ghost use Rattle.elf_image.specs.BytePages.{nth_page, page_count, byte_pages};

use crate::image::ImagePage;
use page_memory::{PAGE_SIZE, Page, Rights};
use shared_origins::SharedPage;
use std::alloc::{AllocError, Global};

/// The bytes of words, the lowest of each first.
pub fn bytes_of_words(alloc: Global, words: &[u32]) -> Result<Vec<u8>, AllocError>
    ensures { IfOk result (λ bytes. bytes.items ≡ bytes_of words.now) }
{
    let mut bytes = Vec::new(alloc);
    for word in words {
        bytes.extend_from_slice(&word.to_le_bytes())?;
    }
    Ok(bytes)
}

/// The given pages, then the pages of more bytes, which begin at this page number. Zeros follow the last byte.
#[tactic(auto, unfolding(crate::specs::BytePages::byte_pages))]
pub fn with_pages(
    alloc: Global,
    mut pages: Vec<ImagePage>,
    first: u32,
    rights: Rights,
    bytes: &[u8],
) -> Result<Vec<ImagePage>, AllocError>
    requires few { length bytes.now ≤ 1048576 }
    requires low { first < 2 ^ 16 }
    ensures { IfOk result (λ all. all.items ≡ pages.items ++ byte_pages first rights bytes.now) }
{
    for place in 0..bytes.len().div_ceil(PAGE_SIZE) {
        pages.push(page_of_bytes(alloc, first, rights, bytes, place)?)?;
    }
    Ok(pages)
}

/// One of these pages.
fn page_of_bytes(
    alloc: Global,
    first: u32,
    rights: Rights,
    bytes: &[u8],
    place: usize,
) -> Result<ImagePage, AllocError>
    requires there { 4096 * place < length bytes.now }
    requires few { length bytes.now ≤ 1048576 }
    requires low { first < 2 ^ 16 }
    ensures { IfOk result (λ page. page ≡ nth_page first rights bytes.now place) }
{
    let start = place * PAGE_SIZE;
    let end = (start + PAGE_SIZE).min(bytes.len());
    let page = page_with_bytes(alloc, rights, &bytes[start..end])?;
    Ok(ImagePage {
        number: first + place as u32,
        page,
    })
}

/// A page that begins with these bytes.
fn page_with_bytes(alloc: Global, rights: Rights, bytes: &[u8]) -> Result<SharedPage, AllocError>
    requires { length bytes.now ≤ 4096 }
    ensures { IfOk result (λ page. page ≡ record { rights = rights; bytes = padded bytes.now }) }
{
    let mut page = Page::zeroed(alloc, rights)?;
    page.put_bytes(0, bytes);
    Ok(SharedPage::new(alloc, page)?)
}
