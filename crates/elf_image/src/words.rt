//! From a list of words to an image: code from 0x00010000 on, with the first word as its entry.

ghost use Rattle.std.specs.Prelude.{◌≡◌, ◌≢◌, ◌≤◌, ◌<◌, ◌*◌, ◌↔◌, [], length, map, IfOk, IfErr};
ghost use Rattle.std.specs.List.{range_with_len};
ghost use Rattle.elf_image.specs.Image.{image_of_words, word_page, word_pages, padded, bytes_of, most_words, readable_code};
ghost use Rattle.elf_image.specs.declared.fault.ElfFault.{ElfFault};

use crate::bounds::MOST_PAGES;
use crate::fault::ElfFault;
use crate::image::{Image, ImagePage};
use page_memory::{Page, Rights, Width};
use shared_origins::SharedPage;
use std::alloc::{AllocError, Global};

/// The address at which the words of a program begin that names none.
pub const TEXT_START: u32 = 0x1_0000;

/// The number of its page.
const FIRST_PAGE: u32 = 0x10;

/// How many words a page holds.
const PAGE_WORDS: usize = 1024;

impl Image {
    /// The image of a list of words: they are from 0x00010000 on, in pages that may be read and
    /// executed, and the first is the entry.
    pub fn from_words(alloc: Global, words: &[u32]) -> Result<Image, ElfFault>
        ensures image { IfOk result (λ image. image ≡ image_of_words words.now) }
        ensures large { (result ≡ Err ElfFault.TooLarge) ↔ (most_words < length words.now) }
        ensures empty { (result ≡ Err ElfFault.EntryNotExecutable) ↔ (words.now ≡ []) }
        ensures other { IfErr result (λ fault. fault ≢ ElfFault.TooLarge →
            fault ≢ ElfFault.NoMemory → fault ≡ ElfFault.EntryNotExecutable) }
    {
        if words.len() > MOST_PAGES * PAGE_WORDS {
            return Err(ElfFault::TooLarge);
        }
        if words.is_empty() {
            return Err(ElfFault::EntryNotExecutable);
        }
        let pages = pages_of_words(alloc, words)?;
        Ok(Image::new(TEXT_START, pages))
    }
}

/// The pages that a list of words fills.
fn pages_of_words(alloc: Global, words: &[u32]) -> Result<Vec<ImagePage>, AllocError>
    requires { length words.now ≤ most_words }
    ensures { IfOk result (λ pages. pages.items ≡ map (word_page words.now) (range_with_len 0
        (word_pages words.now))) }
{
    let mut pages = Vec::new(alloc);
    for place in 0..words.len().div_ceil(PAGE_WORDS) {
        pages.push(page_of_words(alloc, words, place)?)?;
    }
    Ok(pages)
}

/// One of these pages.
fn page_of_words(alloc: Global, words: &[u32], place: usize) -> Result<ImagePage, AllocError>
    requires there { 1024 * place < length words.now }
    requires few { length words.now ≤ most_words }
    ensures { IfOk result (λ page. page ≡ word_page words.now place) }
{
    let start = place * PAGE_WORDS;
    let end = (start + PAGE_WORDS).min(words.len());
    let page = page_with_words(alloc, &words[start..end])?;
    Ok(ImagePage {
        number: FIRST_PAGE + place as u32,
        page,
    })
}

/// A page that begins with these words.
fn page_with_words(alloc: Global, words: &[u32]) -> Result<SharedPage, AllocError>
    requires { length words.now ≤ 1024 }
    ensures { IfOk result (λ page. page ≡ record {
      rights = readable_code;
      bytes = padded
          (bytes_of words.now);
    }) }
{
    let mut page = Page::zeroed(alloc, Rights::READ_EXECUTE)?;
    let mut address = 0;
    for word in words {
        page.put_number(Width::Word, address, *word);
        address += 4;
    }
    Ok(SharedPage::new(alloc, page)?)
}
