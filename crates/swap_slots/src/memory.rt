//! A slot in memory, which never fails.

ghost use Rattle.std.specs.Prelude.{◌≡◌, ◌≤◌, ⊤, IfOk, IsOk, OnOk, OnErr, true};
ghost use Rattle.swap_slots.specs.Slot.{Rose, zero_content};

use crate::slot::{SlotFault, SwapSlot};
use std::alloc::{AllocError, Global};
use std::marker::Model;

/// A slot in memory. Its calls succeed and take no memory.
#[derive(Drop)]
pub struct MemorySlot {
    bytes: Box<[u8; 4096]>,
}

impl Model for MemorySlot {
    ghost use Rattle.std.specs.Prelude.{ℕ, List};

    ghost Value = { List ℕ };

    ghost view = { λ s. s.bytes.value };
}

impl MemorySlot {
    /// A slot that holds a page of zeros.
    #[tactic(auto, unfolding(crate::specs::Slot::zero_content))]
    pub fn new(alloc: Global) -> Result<MemorySlot, AllocError>
        ensures { IfOk result (λ slot. slot ≡ zero_content) }
    {
        Ok(MemorySlot {
            bytes: Box::new(alloc, [0; 4096])?,
        })
    }
}

impl SwapSlot for MemorySlot {
    ghost content = { λ slot. slot };

    ghost failures = { λ _. 0 };

    ghost called = { λ _ _. Unit {0} };

    ghost honest = { ⊤ };

    fn is_known_honest() -> bool
        ensures known { result ≡ true }
    {
        true
    }

    fn save(&mut self, page: &[u8; 4096]) -> Result<(), SlotFault>
        ensures succeeds { IsOk result }
        ensures saved { self.new ≡ page.now }
    {
        *self.bytes = *page;
        Ok(())
    }

    fn load(&mut self, page: &mut [u8; 4096]) -> Result<(), SlotFault>
        ensures succeeds { IsOk result }
        ensures loaded { page.new ≡ self.old }
        ensures kept { self.new ≡ self.old }
    {
        *page = *self.bytes;
        Ok(())
    }

    fn failures(&self) -> u64
        ensures { result ≡ 0 }
    {
        0
    }
}
