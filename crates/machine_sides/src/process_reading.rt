//! What a process shows beside its pages' places.

ghost use Rattle.std.specs.Prelude.{◌≡◌, ◌+◌, ◌≤◌, ◌^◌, true, length};
ghost use Rattle.page_memory.specs.Words.{page_offset};
ghost use Rattle.machine_sides.specs.Showing.{Peeks};
ghost use Rattle.machine_sides.specs.Together.{residents_in, frames_in};

use paged_memory::{HeldPages, PeekFault};
use space_core::Space;
use std::sync::ledger::Ledger;
use swap_slots::SwapSlot;

/// Counts the pages that are in frames.
#[tactic(auto, unfolding(crate::specs::Together::residents_in, crate::specs::Together::frames_in))]
pub fn held_pages<L: Ledger, S: SwapSlot>(space: &Space<L, S>) -> HeldPages
    ensures resident { result.resident ≡ residents_in space.now (λ _. true) }
    ensures framed { result.framed ≡ frames_in space.now (λ _. true) }
    ensures few_resident { result.resident ≤ 2 ^ 20 }
    ensures few_framed { result.framed ≤ 2 ^ 20 }
{
    space.held_pages()
}

/// Reads the bytes that the memory shows from an address on, as many as there is room for, all in one page, wherever it
/// is: the flat process's, if slots are honest. No page is brought in, and no hart's use of it is marked. A refusal
/// leaves the room as it was.
pub fn peek<L: Ledger, S: SwapSlot>(
    space: &mut Space<L, S>,
    address: u32,
    bytes: &mut [Option<u8>],
) -> Result<(), PeekFault>
    requires { page_offset address + length bytes.old ≤ 4096 }
    ensures { Peeks S.content S.honest S.failures address bytes.old bytes.new result space.old
        space.new }
{
    space.peek(address, bytes)
}
