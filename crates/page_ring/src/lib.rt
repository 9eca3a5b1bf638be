//! A circle of pages' entries that turns, loses and gains entries in constant time, and finds a page's entry by an index: what a
//! replacement list of links stands on.
#![tactic(auto)]

mod indexed;
mod links;
mod node_index;

pub use indexed::IndexedRing;
pub use links::Node;
