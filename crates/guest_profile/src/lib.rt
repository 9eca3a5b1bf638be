//! How often each instruction of a program ran, and who called whom.
#![tactic(auto)]

mod call_counts;
mod call_site;
mod call_stack;
mod depths;
mod insn_counts;
mod profile;
mod stacks;
mod sums;
mod used_pages;

pub use call_site::{CallCount, CallSite};
pub use depths::Depths;
pub use insn_counts::{InsnCounts, InsnTally};
pub use profile::Profile;
pub use sums::{NOTHING, Sums};
