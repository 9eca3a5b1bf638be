//! Tests of page replacement: CLOCK-Pro's list against the policy's loops, with frames, and what other policies count.
#![tactic(auto)]

#[cfg(test)]
mod pager;
#[cfg(test)]
mod random;
#[cfg(test)]
mod textbook;
#[cfg(test)]
mod walked;
#[cfg(test)]
mod worked;
