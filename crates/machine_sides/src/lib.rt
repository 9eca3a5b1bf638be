//! The machine's two sides: the pager with its counts, and a process.
//!
//! Each may be protected by a lock of its own. Both are changed together only by [`sweep`], [`collect`], [`saved`], [`admit`],
//! [`undo`] and [`purge`], which are lent the two: list and resident pages go together, and no frame is lost.
#![tactic(auto)]

mod admission;
mod auditing;
mod cleaning;
mod collecting;
mod counting;
mod loading;
mod pager_side;
mod places;
mod process_reading;
mod purging;
mod report;
mod reporting;
mod returning;
mod saving_back;
mod showing;
mod slicing;
mod starting;
mod sweeping;

pub use admission::{Admission, NotAdmitted, admit, undo};
pub use auditing::{audit, count_more, is_all};
pub use cleaning::{CleanBar, CopyBar, Copying, begin_clean, cleaned, copy_clean};
pub use collecting::{Looked, collect, is_leaving};
pub use loading::load;
pub use pager_side::{PagerSide, SideCounts};
pub use places::{is_resident, state};
pub use process_reading::{held_pages, peek};
pub use purging::{PurgeRefusal, has_room, purge, purge_bars};
pub use report::{ProcessReport, Report};
pub use reporting::{into_process_report, into_report, report_on};
pub use saving_back::{SaveFailure, SaveOutcome, is_saving, saved};
pub use showing::status;
pub use slicing::{run_slice, run_step, run_steps};
pub use starting::start;
pub use sweeping::{Swept, sweep};
