//! Worker threads that carry the harts of a machine, and whole runs of machines by them.
#![tactic(auto)]

mod carrying;
mod closing;
mod crew;
mod gathering;
mod line;
mod lines;
mod machine;
mod paging_in;
mod report;
mod seats;
mod threads;

pub use carrying::carrier;
pub use crew::{Crew, CrewRequest, Shift};
pub use gathering::gather_frames;
pub use line::Ran;
pub use lines::{Told, tell};
pub use machine::{run_machine, run_over};
pub use report::{RunRefusal, RunReport};
