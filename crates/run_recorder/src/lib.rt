//! `guest record`: a program runs on a machine of frames, and what ran is written as a record that replays.
#![tactic(auto)]

mod command;
mod commands;
mod crew;
mod fault;
mod laws;
mod program;
mod request;
mod requests;
mod told;

pub use command::run_record;
pub use fault::RecorderFault;
pub use laws::recorded_is_replayed;
pub use program::record_program;
pub use request::{Driver, RecordRequest};
