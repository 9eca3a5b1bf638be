//! Page replacement by CLOCK-Pro on a plain list.
#![tactic(auto)]

mod body;
mod handed;
mod list;
mod rebuild;
mod scan;

pub use list::ClockList;
