//! Data frames: the page-sized pieces of memory that every process's pages are held in, and the pool of those
//! that are free.
//!
//! A pool is made of a fixed number of frames, and no other call makes one. A frame is moved and never copied, and
//! carries one share of a ledger: so the frames at hand can be counted, and are never more than the pool was made of.
#![tactic(auto)]

mod bare;
mod frame;
mod pool;

pub use bare::BareFrame;
pub use frame::{Frame, gather};
pub use pool::{FramePool, PoolError};
