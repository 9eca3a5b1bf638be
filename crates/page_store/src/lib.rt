//! One page of a process, wherever its bytes are: not yet used, in a frame, or in a slot.
//!
//! A `StoredPage` moves between these states, and what it shows stays the same by each move. At most one frame and one
//! slot belong to it; both are moved in and out, and never copied.
#![tactic(auto)]

mod answer;
mod cleaning;
mod job;
mod moves;
mod page;
mod page_copy;
mod reading;
mod refusal;
mod seal;
mod state;

pub use answer::{CleanCopy, Cleaned, Collected, SaveRefusal};
pub use job::{CleanJob, CleanedJob, Leaves, SaveJob, SavedJob, Stays, WriteJob, WrittenJob};
pub use page::StoredPage;
pub use page_copy::PageCopy;
pub use refusal::{CleanRefusal, FillFault, LeaveRefusal, NotLeaving, ReadFault};
pub use state::PageState;
