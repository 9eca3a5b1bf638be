//! The published counts of a process: a writer publishes a pair of numbers that never fall, and viewers in other threads look at it.
//!
//! A look takes no lock but where a publication comes between. No viewer ever sees a number below one that it has seen.
#![tactic(auto)]

mod rule;
mod status;
#[cfg(test)]
mod tests;
mod viewer;
mod writer;

pub use status::Status;
pub use viewer::Viewer;
pub use writer::{Writer, new_cell};
