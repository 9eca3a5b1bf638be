//! The environment calls of a process, and how the steps of its harts end, over any bus.
//!
//! An ECALL is served by the number in a7; its answer goes to a0, and pc goes on by 4.
#![tactic(auto)]

mod answering;
mod breaking;
mod calls;
mod env;
mod harts;
mod live_harts;
mod served;
mod serving;
mod stepping;
mod transfers;

pub use env::Env;
pub use served::{ServeStop, Served};
pub use serving::serve;
pub use stepping::{Stepped, finish};
