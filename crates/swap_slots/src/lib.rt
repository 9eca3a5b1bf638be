//! Slots: where a page is kept while it has no frame, and the pool of those that are free.
//!
//! A kind of slot is honest if a load gives what was last saved. What stands above is proved for honest kinds; of the
//! kinds here, all are, and are known to be, so that no digest is taken of what they hold.
#![tactic(auto)]

mod fuse;
mod memory;
mod pool;
mod slot;

pub use fuse::FuseSlot;
pub use memory::MemorySlot;
pub use pool::SlotPool;
pub use slot::{SlotFault, SwapSlot};
