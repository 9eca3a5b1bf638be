//! A debugger that goes back: it runs the program again, up to an earlier step.
#![tactic(auto)]

mod answers;
mod checkpoints;
mod conversation;
mod fault;
mod forward;
mod history;
mod lines;
mod moving;
mod pieces;
mod points;
mod reply;
mod turn;

pub use conversation::converse_back;
pub use fault::HistoryFault;
pub use history::{History, Looked};
