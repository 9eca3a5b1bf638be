//! W-TinyLFU on strings of references: a window before a segmented LRU, and a sketch of how often pages were used that says which page
//! is worth a frame.
#![tactic(auto)]

mod laws;
mod places;
mod shares;
mod sketch;
mod sketch_state;
mod w_tiny_lfu;
mod w_tiny_lfu_state;

pub use laws::w_tiny_lfu_is_a_play;
pub use shares::{SketchWidth, TinyLfuShares};
pub use w_tiny_lfu_state::WTinyLfu;
