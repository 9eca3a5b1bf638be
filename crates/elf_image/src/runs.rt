//! The longest runs of neighbouring pages with equal rights: each is one segment of a written file.

ghost use Rattle.std.specs.Prelude.{◌≡◌, ℕ, ◌+◌, ◌*◌, ◌<◌, ◌≤◌, ◌^◌, length, slice_index_or, IfOk};
ghost use Rattle.elf_image.specs.Image.{ArePages};
ghost use Rattle.elf_image.specs.WrittenFiles.{run_of, goes_on, runs};

use crate::image::ImagePage;
use page_memory::Rights;
use std::alloc::{AllocError, Global};

/// Neighbouring pages of equal rights, which are one segment of a file.
#[derive(Clone, Copy)]
pub struct Run {
    /// The number of the first page.
    pub number: u32,
    /// How many of the image's pages are before it.
    pub place: u32,
    /// How many pages these are.
    pub count: u32,
    pub rights: Rights,
}

impl Run {
    ghost use Rattle.elf_image.specs.WrittenFiles.{run_of, goes_on};

    /// The run of one page, before which there are so many pages.
    pub(crate) fn of(place: u32, listed: &ImagePage) -> Self
        ensures { result ≡ run_of place listed.now }
    {
        Run {
            number: listed.number,
            place,
            count: 1,
            rights: listed.page.rights(),
        }
    }

    /// Whether this run goes on with another.
    pub(crate) fn goes_on(self, next: Run) -> bool
        requires { self.number + self.count < 2 ^ 32 }
        ensures { result ≡ goes_on self next }
    {
        self.number + self.count == next.number && self.rights == next.rights
    }
}

/// The longest runs of an image's pages.
pub(crate) fn runs_of(alloc: Global, pages: &[ImagePage]) -> Result<Vec<Run>, AllocError>
    requires { ArePages pages.now }
    ensures { IfOk result (λ found. found.items ≡ runs pages.now) }
{
    let mut found = Vec::new(alloc);
    let Some(first) = pages.first() else {
        return Ok(found);
    };
    let mut run = Run::of(0, first);
    for place in 1..pages.len() {
        let next = Run::of(place as u32, &pages[place]);
        if run.goes_on(next) {
            run.count += 1;
        } else {
            found.push(run)?;
            run = next;
        }
    }
    found.push(run)?;
    Ok(found)
}
