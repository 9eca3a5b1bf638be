//! One instruction of a hart, over any bus.
//!
//! `execute` fetches a word at pc and does what the instruction table says of it. Memory is reached
//! only through a [`Bus`], so that the same instructions run on flat and on paged memory.
#![tactic(auto)]

mod accesses;
mod amo;
mod arithmetic;
mod at_hand;
mod bus;
mod cause;
mod execution;
mod flat_bus;
mod forms;
mod jumps;
mod memory_forms;
mod multiplication;
mod operations;
mod outcome;
mod regs;

pub use accesses::{extend, width_of_load, width_of_store};
pub use amo::amo_word;
pub use arithmetic::{add, branches, operate, operate_immediate, shift, without_lowest_bit};
pub use bus::{Bus, BusError};
pub use cause::Cause;
pub use execution::{execute, execute_at};
pub use outcome::Outcome;
pub use regs::Regs;
