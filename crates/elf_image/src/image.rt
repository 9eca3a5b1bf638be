//! A program image: its entry, and its pages by rising number, which several holders can share.

ghost use Rattle.std.specs.Prelude.{◌≡◌, IfOk};
ghost use Rattle.elf_image.specs.Image.{ArePages, IsLawful};

use shared_origins::SharedPage;
use std::alloc::{AllocError, Global};
use std::marker::Model;

/// A page of an image: its number, and its rights and bytes.
#[derive(Drop)]
pub struct ImagePage {
    pub number: u32,
    pub page: SharedPage,
}

impl ImagePage {
    /// The same page for one more holder.
    pub(crate) fn share(&self) -> Result<Self, AllocError>
        ensures { IfOk result (λ listed. listed ≡ self.now) }
    {
        Ok(ImagePage {
            number: self.number,
            page: self.page.share()?,
        })
    }
}

/// What a process begins with: an entry, and pages by rising number. Those who share it hold the same pages.
#[derive(Drop)]
pub struct Image {
    entry: u32,
    pages: Vec<ImagePage>,
}

impl Model for Image {
    ghost use Rattle.elf_image.specs.Image.{ImageContent, IsLawful};

    ghost Value = { ImageContent };

    ghost view = { λ image. record { entry = image.entry; pages = image.pages.items } };

    ghost invariant = { λ image. IsLawful (record { entry = image.entry; pages = image.pages.items }) };
}

impl Image {
    /// An image of pages that are lawful together.
    pub(crate) fn new(entry: u32, pages: Vec<ImagePage>) -> Self
        requires { IsLawful (record { entry = entry; pages = pages.items }) }
        ensures { result ≡ record { entry = entry; pages = pages.items } }
    {
        Image { entry, pages }
    }

    /// The same image for one more holder, by the same pages.
    pub fn share(&self, alloc: Global) -> Result<Self, AllocError>
        ensures { IfOk result (λ image. image ≡ self.now) }
    {
        let pages = share_pages(alloc, self.pages.as_slice())?;
        Ok(Image {
            entry: self.entry,
            pages,
        })
    }

    /// The address of the first instruction.
    pub fn entry(&self) -> u32
        ensures { result ≡ self.now.entry }
    {
        self.entry
    }

    /// The pages, by rising number.
    pub fn pages(&self) -> &[ImagePage]
        ensures pages { result.now ≡ self.now.pages }
        ensures lawful { IsLawful self.now }
        ensures ordered { ArePages self.now.pages }
    {
        self.pages.as_slice()
    }
}

/// The same pages for one more holder.
fn share_pages(alloc: Global, pages: &[ImagePage]) -> Result<Vec<ImagePage>, AllocError>
    ensures { IfOk result (λ shared. shared.items ≡ pages.now) }
{
    let mut shared = Vec::with_capacity(alloc, pages.len())?;
    for listed in pages {
        shared.push(listed.share()?)?;
    }
    Ok(shared)
}
