//! A debugger's target on paged memory: a machine of one process, in which the pages that an instruction needs are brought in as
//! a run brings them. It shows the same process as flat memory does.
#![tactic(auto)]

mod harts;
mod paged_target;
mod reading;

pub use paged_target::PagedTarget;
