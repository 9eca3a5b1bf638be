//! The program `policies`: how many references of a guest, or of a trace, miss under each replacement policy.
#![tactic(auto)]

mod curve_command;
mod curve_string;
mod curves;
mod guests;
mod misses_command;
mod program;
mod replay_command;
mod replay_kept;
mod replay_rows;
mod replay_stream;
mod teller;
mod totals;
mod totals_command;
mod trace_command;
mod write_backs_command;
mod wrong;

pub use program::{run_policies, start};
