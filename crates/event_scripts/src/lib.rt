//! What users write to the replacement list and to the machine, line by line.
#![tactic(auto)]

mod clock_script;
mod drive_line;
mod drive_script;
mod reply_line;

pub use clock_script::{ClockCall, call_on_line};
pub use drive_line::event_on_line;
pub use drive_script::{DriveScript, read_drive_script};
pub use reply_line::ReplyLine;
