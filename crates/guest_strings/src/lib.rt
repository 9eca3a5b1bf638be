//! The string of references of guests: the pages that their instructions use on flat memory, one after another.
//!
//! Live processes get slices by rising number, and in each its live harts by rising number.
#![tactic(auto)]

mod access_kinds;
mod accesses;
mod calls;
mod guest_string;
mod instructions;
mod reference;
mod round;
mod running;
mod step_pages;
mod step_use;
mod stepping;
mod turns;
mod uses;

pub use access_kinds::AccessKinds;
pub use guest_string::GuestString;
pub use reference::Reference;
pub use step_pages::{PageUse, StepPages, step_pages_of};
