//! One process on paged memory.
#![tactic(auto)]

mod ending;
mod hart_loop;
mod left_caches;
mod opening;
mod progress;
mod recorded;
mod running;
mod same_image;
mod space;
mod space_cleaning;
mod space_coherence;
mod space_harts;
mod space_memory;
mod space_moves;
mod space_paging;
mod space_slice;
mod space_status;
mod space_steps;

pub use progress::{Slice, SliceStop, Steps};
pub use space::Space;
