//! A slot in memory that works for a number of calls, and then fails in each one.

ghost use Rattle.std.specs.Prelude.{◌≡◌, ◌-◌, ◌+◌, ◌^◌, ◌<◌, ◌≤◌, ◌↔◌, ⊤, min, IfOk, IsOk, OnOk, OnErr, true};
ghost use Rattle.swap_slots.specs.Slot.{Rose, zero_content};

use crate::memory::MemorySlot;
use crate::slot::{SlotFault, SwapSlot};
use std::alloc::{AllocError, Global};
use std::marker::Model;

/// A slot in memory that passes a number of calls and then fails each, to try what a failing device does.
#[derive(Drop)]
pub struct FuseSlot {
    slot: MemorySlot,
    left: u64,
    failures: u64,
}

impl Model for FuseSlot {
    ghost use Rattle.swap_slots.specs.FuseValue.{FuseValue};

    ghost Value = { FuseValue };

    ghost view = { λ s. record { content = s.slot; left = s.left; failures = s.failures } };
}

impl FuseSlot {
    /// A slot that holds a page of zeros, and of whose saves and loads the first `passes` succeed.
    pub fn new(alloc: Global, passes: u64) -> Result<FuseSlot, AllocError>
        ensures { IfOk result (λ slot. slot ≡
            record { content = zero_content; left = passes; failures = 0 }) }
    {
        Ok(FuseSlot {
            slot: MemorySlot::new(alloc)?,
            left: passes,
            failures: 0,
        })
    }

    /// Whether the next call passes. One that does not is counted.
    fn passes(&mut self) -> Result<(), SlotFault>
        ensures succeeds { IsOk result ↔ (0 < self.old.left) }
        ensures content { self.new.content ≡ self.old.content }
        ensures left { self.new.left ≡ self.old.left - 1 }
        ensures passed { OnOk result (self.new.failures ≡ self.old.failures) }
        ensures failed { OnErr result (self.new.failures ≡ min (self.old.failures + 1)
            (2 ^ 64 - 1)) }
        ensures fault { OnErr result (Rose self.old.failures self.new.failures) }
        ensures counted { self.old.failures ≤ self.new.failures }
    {
        if self.left == 0 {
            self.failures = self.failures.saturating_add(1);
            return Err(SlotFault);
        }
        self.left -= 1;
        Ok(())
    }
}

impl SwapSlot for FuseSlot {
    ghost content = { λ slot. slot.content };

    ghost failures = { λ slot. slot.failures };

    ghost called = { λ _ _. Unit {0} };

    ghost honest = { ⊤ };

    fn is_known_honest() -> bool
        ensures known { result ≡ true }
    {
        true
    }

    fn save(&mut self, page: &[u8; 4096]) -> Result<(), SlotFault>
        ensures succeeds { IsOk result ↔ (0 < self.old.left) }
        ensures left { self.new.left ≡ self.old.left - 1 }
        ensures saved { OnOk result (self.new.content ≡ page.now) }
        ensures unsaved { OnErr result (self.new.content ≡ self.old.content) }
        ensures passed { OnOk result (self.new.failures ≡ self.old.failures) }
        ensures failed { OnErr result (self.new.failures ≡ min (self.old.failures + 1)
            (2 ^ 64 - 1)) }
        ensures fault { OnErr result (Rose self.old.failures self.new.failures) }
        ensures counted { self.old.failures ≤ self.new.failures }
    {
        self.passes()?;
        self.slot.save(page)
    }

    fn load(&mut self, page: &mut [u8; 4096]) -> Result<(), SlotFault>
        ensures succeeds { IsOk result ↔ (0 < self.old.left) }
        ensures left { self.new.left ≡ self.old.left - 1 }
        ensures loaded { OnOk result (page.new ≡ self.old.content) }
        ensures unloaded { OnErr result (page.new ≡ page.old) }
        ensures kept { self.new.content ≡ self.old.content }
        ensures passed { OnOk result (self.new.failures ≡ self.old.failures) }
        ensures failed { OnErr result (self.new.failures ≡ min (self.old.failures + 1)
            (2 ^ 64 - 1)) }
        ensures fault { OnErr result (Rose self.old.failures self.new.failures) }
        ensures counted { self.old.failures ≤ self.new.failures }
    {
        self.passes()?;
        self.slot.load(page)
    }

    fn failures(&self) -> u64 {
        self.failures
    }
}
