//! The commands of the program that need no paged memory: what they come to, and what they print.
#![tactic(auto)]

mod asm_command;
mod flat_command;
mod program;

pub use asm_command::run_asm;
pub use flat_command::run_flat;
pub use program::start;
