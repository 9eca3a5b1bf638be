//! Slots in memory.

ghost use Rattle.std.specs.Prelude.{◌≡◌, IfOk, replicate};
ghost use Rattle.swap_slots.specs.Slot.{zero_content};

use std::alloc::{AllocError, Global};
use swap_slots::MemorySlot;

/// So many slots in memory.
#[tactic(auto, using(crate::proofs::ZeroSlots::one_more, crate::proofs::ZeroSlots::as_many))]
pub fn memory_slots(alloc: Global, count: u32) -> Result<Vec<MemorySlot>, AllocError>
    ensures { IfOk result (λ slots. slots.items ≡ replicate count zero_content) }
{
    let wanted = count as usize;
    let mut slots = Vec::new(alloc);
    'slots: while slots.len() < wanted {
        slots.push(MemorySlot::new(alloc)?)?;
    }
    Ok(slots)
}
