//! The tables of the program `policies`: of counts, curves, samples and working sets, as text and as CSV.
#![tactic(auto)]

mod counts_table;
mod curve_table;
mod estimate_table;
mod names;
mod numbers;
mod printing;
mod windows_table;

pub use counts_table::{OPTIMUM, write_table};
pub use curve_table::write_curve;
pub use estimate_table::{Sample, write_estimate};
pub use printing::Printing;
pub use windows_table::write_windows;
