//! The commands of the program that play a machine on one thread: what they come to, and what they print.
#![tactic(auto)]

mod clock_command;
mod debug_command;
mod drive_command;
mod machine;
mod replies;
mod serial_command;

pub use clock_command::run_clock;
pub use debug_command::{debug_on, run_debug};
pub use drive_command::run_drive;
pub use machine::new_machine;
pub use serial_command::run_serially;
