//! The whole machine: every process, one pool of frames and one replacement list, over events.
//!
//! An event is the smallest thing that happens: an instruction of a hart, a question of the list, a page that comes in.
//! Whatever events come in whatever order, each process shows what its instructions compute on flat memory.
#![tactic(auto)]

mod apply;
mod coherence;
mod core_clean;
mod core_collect;
mod core_page_in;
mod core_purge;
mod core_saved;
mod core_steps;
mod error;
mod event;
mod jobs_out;
mod machine;
mod many_steps;
mod opening;
mod paging_in;
mod reading;
mod running;
mod showing;

pub use error::{CoreError, EventRefusal};
pub use event::{Event, Reply};
pub use machine::Core;
pub use machine_sides::{
    Admission, CleanBar, CopyBar, Copying, Looked, NotAdmitted, PagerSide, ProcessReport,
    PurgeRefusal, Report, SaveFailure, SaveOutcome, SideCounts, Swept, admit, collect, purge,
    saved, sweep, undo,
};
pub use many_steps::StepsReply;
pub use running::{cut_run, writes_ahead};
