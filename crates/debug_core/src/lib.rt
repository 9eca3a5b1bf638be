//! A debugger over any target that shows the state of a flat process: points to stop at, steps by turns, and looks at registers
//! and memory.
#![tactic(auto)]

mod debugger;
mod flat_target;
mod looking;
mod memory_view;
mod point;
mod refusal;
mod running;
mod target;

pub use debugger::Debugger;
pub use flat_target::read_all;
pub use looking::any_changed;
pub use point::{DebugStep, MOST_POINTS, MOST_WATCHED, Point, Why};
pub use refusal::DebugRefusal;
pub use running::break_before;
pub use target::{StepsTaken, Target, TargetFault, TargetStep};
