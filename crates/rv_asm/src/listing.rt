//! An assembled program: its image, the words of its text with their instructions, and the size of its data.

ghost use Rattle.std.specs.Prelude.{◌≡◌};

use elf_image::Image;
use rv_isa::Insn;
use std::marker::Model;

/// An assembled program: its image, the words of its text and the instruction of each, and how much data it has.
#[derive(Drop)]
pub struct Listing {
    image: Image,
    words: Vec<u32>,
    instructions: Vec<Option<Insn>>,
    data_bytes: u32,
}

impl Model for Listing {
    ghost use Rattle.rv_asm.specs.Listing.{ListingContent};

    ghost Value = { ListingContent };

    ghost view = { λ listing. record { image = listing.image; words = listing.words.items; instructions = listing.instructions.items; data_bytes = listing.data_bytes } };
}

impl Listing {
    pub(crate) fn new(
        image: Image,
        words: Vec<u32>,
        instructions: Vec<Option<Insn>>,
        data_bytes: u32,
    ) -> Self
        ensures { result ≡ record {
          image = image;
          words = words.items;
          instructions =
              instructions.items;
          data_bytes = data_bytes;
        } }
    {
        Listing {
            image,
            words,
            instructions,
            data_bytes,
        }
    }

    /// The image that a process begins with.
    pub fn image(&self) -> &Image
        ensures { result.now ≡ self.now.image }
    {
        &self.image
    }

    /// The image that a process begins with, and nothing else.
    pub fn into_image(self) -> Image
        ensures { result ≡ self.image }
    {
        self.image
    }

    /// The words of the text, from its beginning.
    pub fn words(&self) -> &[u32]
        ensures { result.now ≡ self.now.words }
    {
        self.words.as_slice()
    }

    /// For each word of the text its instruction, or nothing where it is a number.
    pub fn instructions(&self) -> &[Option<Insn>]
        ensures { result.now ≡ self.now.instructions }
    {
        self.instructions.as_slice()
    }

    /// How many bytes the data has, before it is filled to whole pages.
    pub fn data_bytes(&self) -> u32
        ensures { result ≡ self.now.data_bytes }
    {
        self.data_bytes
    }
}
