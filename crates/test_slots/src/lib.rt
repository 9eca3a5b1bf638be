//! Slots for tests, in memory: one that fails once, and one that lies once.
#![tactic(auto)]

mod blink;
mod flip;

pub use blink::BlinkSlot;
pub use flip::FlipSlot;
