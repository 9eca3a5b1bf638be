//! The commands of `guest` on records of runs: one replays a record, one explores what a program may come to.
#![tactic(auto)]

mod explore_command;
mod explore_request;
mod explore_words;
mod exploring;
mod fault;
mod laws;
mod program;
mod progress;
mod replay_command;
mod request;
mod row;
mod saving;
mod table;
mod table_text;

pub use explore_command::run_explore;
pub use fault::RecordsFault;
pub use laws::{counts_add_up, rows_come_from_runs};
pub use program::explore_program;
pub use replay_command::{read_recorded_image, read_told, run_replay};
pub use request::{By, ExploreRequest, ReplayRequest};
pub use row::Row;
