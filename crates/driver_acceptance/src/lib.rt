//! Tests of how runs of the serial driver end.
#![tactic(auto)]

#[cfg(test)]
mod endings;
#[cfg(test)]
mod files;
#[cfg(test)]
mod fuses;
#[cfg(test)]
mod guests;
#[cfg(test)]
mod late_slots;
#[cfg(test)]
mod machine;
#[cfg(test)]
mod no_loads;
#[cfg(test)]
mod page_ins;
#[cfg(test)]
mod scant;
#[cfg(test)]
mod served;
