//! A process on paged memory before its first step, with no page in a frame.

ghost use Rattle.std.specs.Prelude.{◌≡◌, ◌≢◌, [], false, IfOk};
ghost use Rattle.std.specs.Bool.{OnTrue, OnFalse};
ghost use Rattle.page_memory.specs.Reservations.{none_reserved};
ghost use Rattle.elf_image.specs.Image.{ArePages};
ghost use Rattle.flat_machine.specs.Process.{opening, opening_pages};
ghost use Rattle.paged_memory.specs.Fresh.{HasFresh, HasNoTable, HasOneCache};
ghost use Rattle.space_core.specs.RunningValue.{beside};

use crate::recorded::Recorded;
use crate::same_image::is_same_image;
use crate::space::Space;
use elf_image::{Image, ImagePage};
use flat_machine::{STACK_PAGES, STACK_START, decoded_pages_of};
use paged_memory::PagedMemory;
use shared_origins::SharedBytes;
use std::alloc::{AllocError, Global};
use std::sync::ledger::Ledger;
use swap_slots::SwapSlot;

impl<L: Ledger, S: SwapSlot> Space<L, S> {
    /// The process of this number that is to run an image on an input: none of its pages is brought in yet.
    pub fn new(
        alloc: Global,
        process: u32,
        image: Image,
        input: Vec<u8>,
    ) -> Result<Self, AllocError>
        ensures image { IfOk result (λ space. space.image ≡ image) }
        ensures input { IfOk result (λ space. space.input ≡ input.items) }
        ensures running { IfOk result (λ space.
            space.running ≡ beside (opening image input.items)) }
        ensures schedule { IfOk result (λ space. space.schedule ≡ []) }
        ensures process { IfOk result (λ space. space.memory.process ≡ process) }
        ensures pages { IfOk result (λ space. HasFresh (opening_pages image.pages) space.memory) }
        ensures tables { IfOk result (λ space. HasNoTable space.memory) }
        ensures caches { IfOk result (λ space. HasOneCache space.memory) }
        ensures reserved { IfOk result (λ space. space.memory.reserved ≡ none_reserved) }
        ensures purged { IfOk result (λ space. space.purged ≡ false) }
    {
        let pages = image.pages();
        let memory = opening_memory(alloc, process, pages)?;
        let decoded = decoded_pages_of(alloc, pages)?;
        let input = SharedBytes::new(alloc, input)?;
        let recorded = Recorded::new(alloc, &image, input.share()?)?;
        Ok(Space {
            image,
            input,
            recorded,
            memory,
            decoded,
            purged: false,
        })
    }

    /// Whether it was started from this image and this input.
    pub fn started_from(&self, image: &Image, input: &[u8]) -> bool
        ensures same { OnTrue result ((image.now ≡ self.now.image) × (input.now ≡ self.now.input)) }
        ensures different { OnFalse result (image.now ≡ self.now.image →
            input.now ≢ self.now.input) }
    {
        if !is_same_image(image, &self.image) {
            return false;
        }
        input == self.input.as_slice()
    }
}

/// The memory of an image's pages and the stack, with the cache of the first hart.
fn opening_memory<L: Ledger, S: SwapSlot>(
    alloc: Global,
    process: u32,
    pages: &[ImagePage],
) -> Result<PagedMemory<L, S>, AllocError>
    requires { ArePages pages.now }
    ensures process { IfOk result (λ memory. memory.process ≡ process) }
    ensures pages { IfOk result (λ memory. HasFresh (opening_pages pages.now) memory) }
    ensures tables { IfOk result (λ memory. HasNoTable memory) }
    ensures caches { IfOk result (λ memory. HasOneCache memory) }
    ensures reserved { IfOk result (λ memory. memory.reserved ≡ none_reserved) }
{
    let mut memory = PagedMemory::new(alloc, process)?;
    for listed in pages {
        let page = listed.page.share()?;
        memory.map_page(listed.number, page)?;
    }
    memory.map_zeroed(STACK_START, STACK_PAGES)?;
    memory.add_hart();
    Ok(memory)
}
