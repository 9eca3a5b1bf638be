//! Whose steps a run is made of, where they lead, and where a point was last met on them.
#![tactic(auto)]

mod fault;
mod laws;
mod path;
mod program;
mod running;
mod searching;
mod watching;

pub use fault::RunFault;
pub use laws::{paths_by_turns_are_runs_by_turns, recorded_paths_are_flat_runs};
pub use path::{Path, Stretch, Whose, count_of, hart_of, part_of, path_of, whose_at};
pub use program::Program;
pub use running::Place;
pub use searching::{Met, Points, last_met};
