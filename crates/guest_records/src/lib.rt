//! Runs of a program by schedules that are chosen at random, each reported as a record that replays.
#![tactic(auto)]

mod chosen_run;
mod chosen_turn;
mod explored;
mod live_harts;
mod priorities;
mod random_numbers;
mod random_turns;
mod run_size;
mod waiting;
mod way;

pub use explored::explore_run;
pub use run_size::{RunSize, measure_runs};
pub use way::Way;
