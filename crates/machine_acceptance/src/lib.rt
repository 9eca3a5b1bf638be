//! Tests of the whole machine: the lines that write its events, what these do together, and that each process computes what a flat
//! process computes.
#![tactic(auto)]

#[cfg(test)]
mod cleaning;
#[cfg(test)]
mod event_lines;
#[cfg(test)]
mod failing;
#[cfg(test)]
mod machine;
#[cfg(test)]
mod wandering;
