//! Page replacement policies of textbooks and of databases, on strings of references: MRU, LFU, LRU-K, generalized CLOCK and CAR.
#![tactic(auto)]

mod car;
mod g_clock;
mod g_clock_counts;
mod laws;
mod lfu;
mod lru_k;
mod lru_k_uses;
mod mru;
mod ranked;
mod ranking;

pub use car::Car;
pub use g_clock::GClock;
pub use g_clock_counts::GClockCounts;
pub use laws::textbook_policies_are_plays;
pub use lfu::Lfu;
pub use lru_k::LruK;
pub use lru_k_uses::LruKUses;
pub use mru::Mru;
