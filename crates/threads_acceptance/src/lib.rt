//! Tests of machines that threads run.
#![tactic(auto)]

#[cfg(test)]
mod admissions;
#[cfg(test)]
mod ahead;
#[cfg(test)]
mod at_once;
#[cfg(test)]
mod failing;
#[cfg(test)]
mod guests;
#[cfg(test)]
mod machine;
#[cfg(test)]
mod sharing;
#[cfg(test)]
mod slicing;
#[cfg(test)]
mod viewing;
#[cfg(test)]
mod waiting;
