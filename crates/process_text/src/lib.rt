//! What is printed of a process that has run, and the exit status that it comes to.
#![tactic(auto)]

mod ending_text;
mod exit_status;
mod process_lines;

pub use ending_text::Ending;
pub use exit_status::{end_of, status_of_end};
pub use process_lines::write_process;
