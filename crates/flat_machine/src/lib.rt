//! The reference: a process on flat memory, its steps, and its runs by a schedule.
#![tactic(auto)]

mod by_turns;
mod end;
mod halt;
mod laws;
mod opening;
mod plain_run;
mod process;
mod running;
mod schedule;
mod settling;
mod stepping;

pub use by_turns::OutOfMemory;
pub use end::{End, KillCause};
pub use halt::Halt;
pub use laws::{opening_has_pages, schedule_is_full, turns_are_a_schedule};
pub use opening::{STACK_PAGES, STACK_START, decoded_pages_of, first_break, first_registers};
pub use process::FlatProcess;
pub use schedule::{MOST_TURNS, Schedule, ScheduleFull, Turn};
pub use settling::settle;
pub use stepping::StepRefusal;
