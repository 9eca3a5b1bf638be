//! What is counted of a whole string of references: the optimum, curves over every number of frames, and working sets.
#![tactic(auto)]

mod each_optimum;
mod last_places;
mod laws;
mod lru_depths;
mod optimum;
mod sampling;
mod several_frames;
mod string_uses;
mod working_sets;

pub use each_optimum::optimum_curve;
pub use laws::optimum_keeps_fewer_in_fewer_frames;
pub use lru_depths::lru_curve;
pub use sampling::is_sampled;
pub use several_frames::optimum_counts;
pub use string_uses::next_uses;
pub use working_sets::{WindowCounts, window_curve};
