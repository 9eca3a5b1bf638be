//! What is printed of machines that have run, and the exit status that they come to.
#![tactic(auto)]

mod report_lines;
mod run_status;

pub use report_lines::write_report;
pub use run_status::status_of_all;
