//! From an entry and pages to an image, or the first fault of range, order, size, regions and entry.

ghost use Rattle.std.specs.Prelude.{◌≡◌, length, map, IfOk, IsTrue, IsFalse};
ghost use Rattle.std.specs.Result.{result_err};
ghost use Rattle.elf_image.specs.Parts.{image_of_parts, parts_fault, too_high, rising, entered, readable_page};
ghost use Rattle.elf_image.specs.Regions.{regions};

use crate::bounds::{END_PAGE, MOST_PAGES, MOST_REGIONS, REGION_PAGES};
use crate::fault::ElfFault;
use crate::image::{Image, ImagePage};
use page_memory::{Access, page_of};

impl Image {
    /// The image of an entry and pages by rising number, where a page that may be written may be
    /// read too.
    ///
    /// Refused with the first of `Range`, `Overlap`, `TooLarge`, `TooSparse` and
    /// `EntryNotExecutable` that holds.
    pub fn from_parts(entry: u32, mut pages: Vec<ImagePage>) -> Result<Image, ElfFault>
        ensures image { IfOk result (λ image. image ≡ image_of_parts entry pages.items) }
        ensures refusal { result_err result ≡ parts_fault entry pages.items }
    {
        if let Some(fault) = fault_of(entry, &pages) {
            return Err(fault);
        }
        make_readable(&mut pages);
        Ok(Image::new(entry, pages))
    }
}

/// The first reason for which parts make no image.
#[tactic(auto, using(std::proofs::lemmas::Bool::Decides::nat_tests), unfolding(crate::specs::Parts::parts_fault))]
fn fault_of(entry: u32, pages: &[ImagePage]) -> Option<ElfFault>
    ensures { result ≡ parts_fault entry pages.now }
{
    if are_too_high(pages) {
        Some(ElfFault::Range)
    } else if !do_rise(pages) {
        Some(ElfFault::Overlap)
    } else if pages.len() > MOST_PAGES {
        Some(ElfFault::TooLarge)
    } else if count_regions(pages) > MOST_REGIONS {
        Some(ElfFault::TooSparse)
    } else if !are_entered(entry, pages) {
        Some(ElfFault::EntryNotExecutable)
    } else {
        None
    }
}

/// Whether a page lies at or above 0x70000000.
#[tactic(auto, unfolding(crate::specs::Parts::too_high))]
fn are_too_high(pages: &[ImagePage]) -> bool
    ensures { result ≡ too_high pages.now }
{
    pages.iter().any(|listed| listed.number >= END_PAGE)
}

/// Whether each page's number is below the next page's.
fn do_rise(pages: &[ImagePage]) -> bool
    ensures { result ≡ rising pages.now }
{
    for place in 1..pages.len() {
        if pages[place - 1].number >= pages[place].number {
            return false;
        }
    }
    true
}

/// In how many regions pages lie that come by rising number.
fn count_regions(pages: &[ImagePage]) -> usize
    requires { IsTrue (rising pages.now) }
    ensures { result ≡ length (regions pages.now) }
{
    let mut count = 0;
    let mut last = None;
    for listed in pages {
        let region = listed.number / REGION_PAGES;
        if last != Some(region) {
            count += 1;
            last = Some(region);
        }
    }
    count
}

/// Whether the entry lies in a page that may be executed.
#[tactic(auto, unfolding(crate::specs::Parts::entered))]
fn are_entered(entry: u32, pages: &[ImagePage]) -> bool
    ensures { result ≡ entered entry pages.now }
{
    let number = page_of(entry);
    pages.iter().any(|listed| listed.number == number && listed.page.rights().allow(Access::Fetch))
}

/// Lets every page be read that may be written.
fn make_readable(pages: &mut [ImagePage])
    ensures { pages.new ≡ map readable_page pages.old }
{
    for listed in pages.iter_mut() {
        let_read(listed);
    }
}

/// Lets a page be read where it may be written.
#[tactic(auto, unfolding(crate::specs::Parts::readable_page))]
fn let_read(listed: &mut ImagePage)
    ensures { listed.new ≡ readable_page listed.old }
{
    let rights = listed.page.rights();
    listed.page.set_rights(rights.readable());
}
