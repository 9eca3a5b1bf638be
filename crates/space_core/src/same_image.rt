//! Whether images are the same.
ghost use Rattle.std.specs.Prelude.{◌≡◌, ◌≢◌};
ghost use Rattle.std.specs.Bool.{OnTrue, OnFalse};

use elf_image::{Image, ImagePage};

/// Whether two images have the same entry and the same pages.
pub(crate) fn is_same_image(image: &Image, other: &Image) -> bool
    ensures same { OnTrue result (image.now ≡ other.now) }
    ensures different { OnFalse result (image.now ≢ other.now) }
{
    if image.entry() != other.entry() {
        return false;
    }
    are_same_pages(image.pages(), other.pages())
}

fn are_same_pages(pages: &[ImagePage], others: &[ImagePage]) -> bool
    ensures same { OnTrue result (pages.now ≡ others.now) }
    ensures different { OnFalse result (pages.now ≢ others.now) }
{
    if pages.len() != others.len() {
        return false;
    }
    for (place, page) in pages.iter().enumerate() {
        if !is_same_page(page, &others[place]) {
            return false;
        }
    }
    true
}

/// Whether two pages have the same number, rights and bytes.
fn is_same_page(page: &ImagePage, other: &ImagePage) -> bool
    ensures same { OnTrue result (page.now ≡ other.now) }
    ensures different { OnFalse result (page.now ≢ other.now) }
{
    if page.number != other.number {
        return false;
    }
    if page.page.rights() != other.page.rights() {
        return false;
    }
    page.page.bytes() == other.page.bytes()
}
