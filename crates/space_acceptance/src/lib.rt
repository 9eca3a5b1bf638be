//! Tests of one process on paged memory: what its calls do together, and that it computes what a flat process computes.
#![tactic(auto)]

#[cfg(test)]
mod bench;
#[cfg(test)]
mod cleaning;
#[cfg(test)]
mod failing;
#[cfg(test)]
mod full;
#[cfg(test)]
mod paging;
#[cfg(test)]
mod slots;
#[cfg(test)]
mod wandering;
