//! A slot in memory that fails in one call, by its number, and works before and after it.

ghost use Rattle.std.specs.Prelude.{◌≡◌, ◌-◌, ◌+◌, ◌^◌, ◌≤◌, ◌↔◌, ⊤, min, IfOk, IsErr, OnOk, OnErr, false};
ghost use Rattle.swap_slots.specs.Slot.{Rose, zero_content};

use std::alloc::{AllocError, Global};
use std::marker::Model;
use swap_slots::{MemorySlot, SlotFault, SwapSlot};

/// A slot in memory of whose calls only one fails, to try what is above a device that fails and then goes on.
#[derive(Drop)]
pub struct BlinkSlot {
    slot: MemorySlot,
    failing: u64,
    failures: u64,
}

impl Model for BlinkSlot {
    ghost use Rattle.test_slots.specs.BlinkValue.{BlinkValue};

    ghost Value = { BlinkValue };

    ghost view = { λ s. record { content = s.slot; failing = s.failing; failures = s.failures } };
}

impl BlinkSlot {
    /// A slot that holds a page of zeros. Of its saves and loads, counted together from 1, the one of this number fails; with 0
    /// none does.
    pub fn new(alloc: Global, failing: u64) -> Result<BlinkSlot, AllocError>
        ensures { IfOk result (λ slot. slot ≡
            record { content = zero_content; failing = failing; failures = 0 }) }
    {
        Ok(BlinkSlot {
            slot: MemorySlot::new(alloc)?,
            failing,
            failures: 0,
        })
    }

    /// Whether the next call passes. One that does not is counted.
    fn passes(&mut self) -> Result<(), SlotFault>
        ensures fails { IsErr result ↔ (self.old.failing ≡ 1) }
        ensures content { self.new.content ≡ self.old.content }
        ensures failing { self.new.failing ≡ self.old.failing - 1 }
        ensures passed { OnOk result (self.new.failures ≡ self.old.failures) }
        ensures failed { OnErr result (self.new.failures ≡ min (self.old.failures + 1)
            (2 ^ 64 - 1)) }
        ensures fault { OnErr result (Rose self.old.failures self.new.failures) }
        ensures counted { self.old.failures ≤ self.new.failures }
    {
        let fails = self.failing == 1;
        self.failing = self.failing.saturating_sub(1);
        if fails {
            self.failures = self.failures.saturating_add(1);
            return Err(SlotFault);
        }
        Ok(())
    }
}

impl SwapSlot for BlinkSlot {
    ghost content = { λ slot. slot.content };

    ghost failures = { λ slot. slot.failures };

    ghost called = { λ _ _. Unit {0} };

    ghost honest = { ⊤ };

    fn is_known_honest() -> bool
        ensures known { result ≡ false }
    {
        false
    }

    fn save(&mut self, page: &[u8; 4096]) -> Result<(), SlotFault>
        ensures fails { IsErr result ↔ (self.old.failing ≡ 1) }
        ensures failing { self.new.failing ≡ self.old.failing - 1 }
        ensures saved { OnOk result (self.new.content ≡ page.now) }
        ensures unsaved { OnErr result (self.new.content ≡ self.old.content) }
        ensures passed { OnOk result (self.new.failures ≡ self.old.failures) }
        ensures failed { OnErr result (self.new.failures ≡ min (self.old.failures + 1)
            (2 ^ 64 - 1)) }
        ensures fault { OnErr result (Rose self.old.failures self.new.failures) }
        ensures counted { self.old.failures ≤ self.new.failures }
    {
        self.passes()?;
        self.slot.save(page)
    }

    fn load(&mut self, page: &mut [u8; 4096]) -> Result<(), SlotFault>
        ensures fails { IsErr result ↔ (self.old.failing ≡ 1) }
        ensures failing { self.new.failing ≡ self.old.failing - 1 }
        ensures loaded { OnOk result (page.new ≡ self.old.content) }
        ensures unloaded { OnErr result (page.new ≡ page.old) }
        ensures kept { self.new.content ≡ self.old.content }
        ensures passed { OnOk result (self.new.failures ≡ self.old.failures) }
        ensures failed { OnErr result (self.new.failures ≡ min (self.old.failures + 1)
            (2 ^ 64 - 1)) }
        ensures fault { OnErr result (Rose self.old.failures self.new.failures) }
        ensures counted { self.old.failures ≤ self.new.failures }
    {
        self.passes()?;
        self.slot.load(page)
    }

    fn failures(&self) -> u64 {
        self.failures
    }
}
