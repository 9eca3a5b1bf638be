//! A process begins.

ghost use Rattle.std.specs.Prelude.{IfOk};
ghost use Rattle.elf_image.specs.Start.{start_of};
ghost use Rattle.machine_sides.specs.Starting.{Begins};

use elf_image::Image;
use space_core::Space;
use std::alloc::{AllocError, Global};
use std::sync::ledger::Ledger;
use swap_slots::SwapSlot;

/// The process of this number that is to run an image on an input: none of its pages is brought in yet.
pub fn start<L: Ledger, S: SwapSlot>(
    alloc: Global,
    process: u32,
    image: Image,
    input: Vec<u8>,
) -> Result<Space<L, S>, AllocError>
    ensures { IfOk result (λ side. Begins process (start_of image input.items) side) }
{
    Space::new(alloc, process, image, input)
}
