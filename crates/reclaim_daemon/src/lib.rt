//! The machine under locks, and the daemon that makes room in it.
//!
//! Each process, the pager and the slots have a lock of their own, and are taken in the order pager, process, slots: see [`Shared`].
//! What a lock holds changes only by the calls of the sides, and each hold is an event of the machine: it returns what it found
//! and what it left. What is done while locks are held is in `held_machine`, which has none.
#![tactic(auto)]

mod audit;
mod cleaning;
mod gate;
mod holds;
mod locking;
mod paging_in;
mod process_holds;
mod process_locks;
mod reclaiming;
mod shared;
mod waiting;
mod writing_ahead;
mod writing_out;

pub use cleaning::HoldWithSlots;
pub use gate::{Gate, OpenGate};
pub use holds::{Change, HoldOfAll, HoldOfBoth, HoldOfDesk};
pub use paging_in::{HoldOfPager, PagedIn};
pub use process_holds::HoldOfProcess;
pub use process_locks::{AddRefusal, Added, ProcessLocks};
pub use reclaiming::{Reclaimer, Room, daemon, pause};
pub use shared::Shared;
