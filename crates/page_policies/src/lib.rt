//! Page replacement policies side by side: each plays a string of references, and reports which of them miss.
#![tactic(auto)]

mod fifo_policy;
mod frames;
mod laws;
mod lru_policy;
mod policy;
mod queue;
mod random_policy;
mod random_state;
mod refusal;
mod second_chance;
mod spreading;

pub use fifo_policy::Fifo;
pub use frames::{Frames, MOST_POLICY_FRAMES};
pub use laws::{
    fewer_frames_hold_fewer_pages, more_frames_never_miss_more, no_policy_misses_less,
    optimum_is_a_play,
};
pub use lru_policy::Lru;
pub use policy::{HitOrMiss, Policy, misses};
pub use queue::{Queue, cut};
pub use random_policy::USUAL_SEED;
pub use random_state::RandomPolicy;
pub use refusal::PolicyRefusal;
pub use second_chance::SecondChance;
pub use spreading::spread;
