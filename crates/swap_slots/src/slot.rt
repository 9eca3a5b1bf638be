//! What a kind of slot has to do: save a page, load it, and count failures; and when it is honest.

ghost use Rattle.std.specs.Prelude.{◌≡◌, ◌≤◌, ℕ, List, IsTrue, OnOk, OnErr};
ghost use Rattle.swap_slots.specs.Slot.{Rose};

use thiserror::Error;

/// The device that a slot lies on failed in a call.
#[derive(Clone, Copy, PartialEq, Eq, Debug, Error)]
#[error("the device failed")]
pub struct SlotFault;

/// Where the 4096 bytes of one page are kept while it has no frame.
pub trait SwapSlot: Drop {
    /// The page that the slot holds.
    ghost content: { Self → List ℕ };

    /// How often the device failed.
    ghost failures: { Self → ℕ };

    /// What one call of `save` or `load` makes of a slot. Nothing else is known of it: where it holds of a slot before and after,
    /// one call was made between them, and no more.
    ghost called: { Self → Self → Type 0 };

    /// Whether slots of this kind keep what was saved. A kind that can't know, as one over a file, takes `⊥`.
    ghost honest: { Type 0 };

    /// Whether slots of this kind are known to be honest: what is above then takes no digest of what it saves and loads.
    /// A kind that answers `false` may be honest all the same.
    fn is_known_honest() -> bool
        ensures known { IsTrue result → honest };

    /// Saves a page. A save that fails leaves open what the slot holds.
    fn save(&mut self, page: &[u8; 4096]) -> Result<(), SlotFault>
        ensures saved { honest → OnOk result (content self.new ≡ page.now) }
        ensures passed { OnOk result (failures self.new ≡ failures self.old) }
        ensures fault { OnErr result (Rose (failures self.old) (failures self.new)) }
        ensures counted { failures self.old ≤ failures self.new }
        ensures called { called self.old self.new };

    /// Loads the page that was saved. A load that fails leaves open what `page` holds, but not what the slot holds.
    fn load(&mut self, page: &mut [u8; 4096]) -> Result<(), SlotFault>
        ensures loaded { honest → OnOk result (page.new ≡ content self.old) }
        ensures kept { honest → content self.new ≡ content self.old }
        ensures passed { OnOk result (failures self.new ≡ failures self.old) }
        ensures fault { OnErr result (Rose (failures self.old) (failures self.new)) }
        ensures counted { failures self.old ≤ failures self.new }
        ensures called { called self.old self.new };

    /// How often the device failed. The count stays at its type's largest number.
    fn failures(&self) -> u64
        ensures { result ≡ failures self.now };
}
