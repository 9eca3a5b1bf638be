//! The pages of one process wherever their bytes are, with its page tables and its harts' translation caches.
#![tactic(auto)]

mod access;
mod bringing_back;
mod caches;
mod cleaning;
mod coherence;
mod collecting;
mod counting;
mod eviction;
mod filling;
mod giving_back;
mod growth;
mod hart_memory;
mod harts;
mod memory;
mod peeking;
mod placing;
mod reading;
mod ready;
mod reply;
mod saving;
mod status;
mod still_saving;
mod translating;
mod writing;

pub use counting::HeldPages;
pub use filling::PageInFault;
pub use hart_memory::{HartMemory, Opening};
pub use memory::PagedMemory;
pub use peeking::PeekFault;
pub use status::PageStatus;
