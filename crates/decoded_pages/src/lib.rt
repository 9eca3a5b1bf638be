//! Pages of code that are never written, decoded once.
//!
//! A page that may be run and not written is decoded when its process begins. Its instructions are run one after another without their words,
//! as long as all that they use is at hand. What is not ends the run before it: [`rv_exec::execute_at`] does it by its word.
#![tactic(auto)]

mod destination;
mod instruction;
mod operation;
mod page;
mod pages;
mod performing;
mod ready_memory;
mod running;

pub use destination::Destination;
pub use instruction::DecodedInstruction;
pub use operation::Operation;
pub use page::{DecodedPage, PAGE_WORDS};
pub use pages::DecodedPages;
pub use performing::{After, perform};
pub use ready_memory::ReadyMemory;
pub use running::{Ran, RunEnd, run_decoded};
