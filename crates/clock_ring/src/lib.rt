//! Page replacement by CLOCK-Pro on a circle of links with an index: no call searches the list for a page.
#![tactic(auto)]

mod body;
mod counts;
mod handed;
mod ring;
mod scan;
mod ways;

pub use ring::ClockRing;
