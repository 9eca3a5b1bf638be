//! The values in the locks of a machine, and the calls on them while the locks are held: a process with the writer of its counts, and the
//! pager. `Parts` is all of them together after the locks.
//!
//! Each call on a process is a call of `machine_sides`. After it, what was published last is how far the process has come. No lock is
//! used here.
#![tactic(auto)]

mod audit;
mod calls;
mod cleaning;
mod desk;
mod held;
mod parts;

pub use audit::{count_more, is_all};
pub use cleaning::Begun;
pub use desk::Desk;
pub use held::Held;
pub use parts::Parts;
