//! Page replacement by CLOCK-Pro: the policy's calls, once for every list with hands.
#![tactic(auto)]

mod admission;
mod answering;
mod found;
mod handed_list;
mod restoration;
mod withdrawal;

pub use admission::{admit, is_full};
pub use answering::{answer, question};
pub use found::Found;
pub use handed_list::HandedList;
pub use restoration::restore;
pub use withdrawal::withdraw;
