//! A slot in memory that lies in one load: it flips one bit of the page and reports no failure.

ghost use Rattle.std.specs.Prelude.{◌≡◌, ◌-◌, ◌≤◌, ◌==◌, if◌then◌else◌, IfOk, IsOk, OnOk, OnErr, false};
ghost use Rattle.test_slots.specs.Flipped.{flipped};
ghost use Rattle.swap_slots.specs.Slot.{Rose, zero_content};

use std::alloc::{AllocError, Global};
use std::marker::Model;
use swap_slots::{MemorySlot, SlotFault, SwapSlot};

/// A slot in memory that lies once: one of its loads answers another page than was saved, and says nothing of it.
#[derive(Drop)]
pub struct FlipSlot {
    slot: MemorySlot,
    flipping: u64,
}

impl Model for FlipSlot {
    ghost use Rattle.test_slots.specs.FlipValue.{FlipValue};

    ghost Value = { FlipValue };

    ghost view = { λ s. record { content = s.slot; flipping = s.flipping } };
}

impl FlipSlot {
    /// A slot that holds a page of zeros. Of its loads, counted from 1, the one of this number turns bit 0 of the first byte of what
    /// it answers; with 0 none does.
    pub fn new(alloc: Global, flipping: u64) -> Result<FlipSlot, AllocError>
        ensures { IfOk result (λ slot. slot ≡
            record { content = zero_content; flipping = flipping }) }
    {
        Ok(FlipSlot {
            slot: MemorySlot::new(alloc)?,
            flipping,
        })
    }
}

impl SwapSlot for FlipSlot {
    ghost content = { λ slot. slot.content };

    ghost failures = { λ _. 0 };

    ghost called = { λ _ _. Unit {0} };

    ghost honest = { ⊥ };

    fn is_known_honest() -> bool
        ensures known { result ≡ false }
    {
        false
    }

    fn save(&mut self, page: &[u8; 4096]) -> Result<(), SlotFault>
        ensures succeeds { IsOk result }
        ensures saved { self.new.content ≡ page.now }
        ensures flipping { self.new.flipping ≡ self.old.flipping }
    {
        self.slot.save(page)
    }

    fn load(&mut self, page: &mut [u8; 4096]) -> Result<(), SlotFault>
        ensures succeeds { IsOk result }
        ensures loaded { page.new ≡ (if self.old.flipping == 1 then flipped self.old.content else
            self.old.content) }
        ensures kept { self.new.content ≡ self.old.content }
        ensures flipping { self.new.flipping ≡ self.old.flipping - 1 }
    {
        self.slot.load(page)?;
        if self.flipping == 1 {
            turn(page);
        }
        self.flipping = self.flipping.saturating_sub(1);
        Ok(())
    }

    fn failures(&self) -> u64
        ensures { result ≡ 0 }
    {
        0
    }
}

/// Turns bit 0 of a page's first byte.
#[tactic(auto, unfolding(crate::specs::Flipped::flipped))]
fn turn(page: &mut [u8; 4096])
    ensures { page.new ≡ flipped page.old }
{
    page[0] ^= 1;
}
