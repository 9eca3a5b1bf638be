//! The program `guest`: runs a program as a simulator does, prints its steps, and counts where it spends them.
#![tactic(auto)]

mod begun_steps;
mod callgrind;
mod commands;
mod debug_command;
mod frame_machine;
mod function_names;
mod functions;
mod profile_command;
mod profile_tables;
mod profile_text;
mod program;
mod replayed_program;
mod request;
mod requests;
mod run_command;
mod step_line;
mod trace_command;
mod wrong;

pub use frame_machine::FrameMachine;
pub use program::run_guest;
