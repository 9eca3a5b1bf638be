//! Page replacement policies of kernels, on strings of references: Linux's two lists with refault distance.
#![tactic(auto)]

mod laws;
mod lists;
mod two_lists;
mod two_lists_parts;

pub use laws::kernel_policies_are_plays;
pub use two_lists::TwoLists;
pub use two_lists_parts::TwoListsParts;
