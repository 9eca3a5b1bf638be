//! The machine's frames and the list that says which page is to leave its frame, kept together.
//!
//! A page is admitted only where a frame is free for it and the list takes it; so whoever brings a page in has both or neither.
#![tactic(auto)]

mod counts;
mod hands;
mod pager;
mod refusal;

pub use counts::{Counts, Tallies, tally};
pub use hands::Hands;
pub use pager::Pager;
pub use refusal::AdmitRefusal;
