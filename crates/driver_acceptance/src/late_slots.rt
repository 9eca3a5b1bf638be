//! Slots in memory whose first calls fail, a given number for each slot, and whose later calls work.

ghost use Rattle.std.specs.Prelude.{◌≡◌, ◌+◌, ◌^◌, ◌<◌, ◌≤◌, ⊤, true, false, min, IfOk, IsErr};
ghost use Rattle.std.specs.Prelude.{OnOk, OnErr};
ghost use Rattle.swap_slots.specs.Slot.{Rose};

use std::alloc::{AllocError, Global};
use std::process::Abort;
use swap_slots::{MemorySlot, SlotFault, SwapSlot};

/// A slot in memory whose first calls fail, so many of them.
#[derive(Drop)]
pub(crate) struct LateSlot {
    slot: MemorySlot,
    failing: u64,
    failures: u64,
}

impl LateSlot {
    fn new(alloc: Global, failing: u64) -> Result<LateSlot, AllocError> {
        Ok(LateSlot {
            slot: MemorySlot::new(alloc)?,
            failing,
            failures: 0,
        })
    }

    /// Whether the next call fails. One that does is counted.
    fn fails(&mut self) -> bool
        ensures content { self.new.slot ≡ self.old.slot }
        ensures fault { result ≡ true → Rose self.old.failures self.new.failures }
        ensures passed { result ≡ false → self.new.failures ≡ self.old.failures }
        ensures counted { self.old.failures ≤ self.new.failures }
    {
        if self.failing == 0 {
            return false;
        }
        self.failing -= 1;
        self.failures = self.failures.saturating_add(1);
        true
    }
}

impl SwapSlot for LateSlot {
    ghost content = { λ slot. slot.slot };

    ghost failures = { λ slot. slot.failures };

    ghost called = { λ _ _. Unit {0} };

    ghost honest = { ⊤ };

    fn is_known_honest() -> bool
        ensures known { result ≡ false }
    {
        false
    }

    fn save(&mut self, page: &[u8; 4096]) -> Result<(), SlotFault> {
        if self.fails() {
            return Err(SlotFault);
        }
        self.slot.save(page)
    }

    fn load(&mut self, page: &mut [u8; 4096]) -> Result<(), SlotFault> {
        if self.fails() {
            return Err(SlotFault);
        }
        self.slot.load(page)
    }

    fn failures(&self) -> u64 {
        self.failures
    }
}

/// So many slots, of each of which so many calls fail first.
pub(crate) fn late_slots(
    rt: &impl Abort,
    alloc: Global,
    count: u32,
    failing: u64,
) -> Vec<LateSlot> {
    let mut slots = Vec::new(alloc);
    for _ in 0..count {
        let slot = LateSlot::new(alloc, failing).expect(rt, "no slot");
        slots.push(slot).expect(rt, "no slots");
    }
    slots
}
