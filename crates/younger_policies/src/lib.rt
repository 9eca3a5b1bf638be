//! Page replacement policies since 1994, on strings of references: 2Q, LIRS, ARC, CLOCK-Pro, SIEVE and S3-FIFO.
#![tactic(auto)]

mod arc;
mod clock_pro;
mod clock_pro_used;
mod laws;
mod lirs;
mod lirs_shares;
mod s3_fifo;
mod s3_fifo_shares;
mod sieve;
mod two_queue_shares;
mod two_queues;

pub use arc::Arc;
pub use clock_pro::ClockPro;
pub use clock_pro_used::ClockProUsed;
pub use laws::{clock_pro_is_a_play, younger_policies_are_plays};
pub use lirs::Lirs;
pub use lirs_shares::LirsShares;
pub use s3_fifo::S3Fifo;
pub use s3_fifo_shares::{MovedCount, S3FifoShares};
pub use sieve::Sieve;
pub use two_queue_shares::TwoQueueShares;
pub use two_queues::TwoQueues;
