//! What the threads of a machine let one another know without a lock: which harts may run, who waits, and for what.
//!
//! Each thread sleeps on a bell of its own, and whoever changes what it may wait for rings it. A thread reads how often its bell has rung, then
//! looks for what there is to do, and sleeps only where the bell has not rung since: so no ring is lost.
#![tactic(auto)]

mod bell;
mod callers;
mod frames;
mod harts;
mod reclaiming;
mod signals;
mod signs;

pub use bell::Bell;
pub use callers::Callers;
pub use harts::PageWait;
pub use signals::{Runner, Signals};
