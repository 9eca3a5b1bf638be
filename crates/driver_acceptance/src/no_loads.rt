//! Slots in memory that save each page and fail in every load.

ghost use Rattle.std.specs.Prelude.{◌≡◌, ◌-◌, ◌+◌, ◌^◌, ◌<◌, ◌≤◌, ⊤, min, IfOk, IsOk, IsErr, OnOk};
ghost use Rattle.std.specs.Prelude.{OnErr, false};
ghost use Rattle.swap_slots.specs.Slot.{Rose};

use std::alloc::{AllocError, Global};
use std::process::Abort;
use swap_slots::{MemorySlot, SlotFault, SwapSlot};

/// A slot in memory whose saves succeed, and whose loads fail.
#[derive(Drop)]
pub(crate) struct NoLoads {
    slot: MemorySlot,
    failures: u64,
}

impl NoLoads {
    fn new(alloc: Global) -> Result<NoLoads, AllocError> {
        Ok(NoLoads {
            slot: MemorySlot::new(alloc)?,
            failures: 0,
        })
    }
}

impl SwapSlot for NoLoads {
    ghost content = { λ slot. slot.slot };

    ghost failures = { λ slot. slot.failures };

    ghost called = { λ _ _. Unit {0} };

    ghost honest = { ⊤ };

    fn is_known_honest() -> bool
        ensures known { result ≡ false }
    {
        false
    }

    fn save(&mut self, page: &[u8; 4096]) -> Result<(), SlotFault> {
        self.slot.save(page)
    }

    fn load(&mut self, _page: &mut [u8; 4096]) -> Result<(), SlotFault> {
        self.failures = self.failures.saturating_add(1);
        Err(SlotFault)
    }

    fn failures(&self) -> u64 {
        self.failures
    }
}

/// So many such slots.
pub(crate) fn slots_without_loads(rt: &impl Abort, alloc: Global, count: u32) -> Vec<NoLoads> {
    let mut slots = Vec::new(alloc);
    for _ in 0..count {
        let slot = NoLoads::new(alloc).expect(rt, "no slot");
        slots.push(slot).expect(rt, "no slots");
    }
    slots
}
