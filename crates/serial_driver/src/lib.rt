//! The serial driver: it plays a whole machine to its end, one event after another.
//!
//! Live processes get slices by rising number, and in each its live harts by rising number: so many instructions of the
//! hart, and then it drops its translations that are to be dropped. A hart that needs an absent page waits until it is
//! in a frame: where no frame is free, the list is asked until it names a victim, each live hart of the victim's process
//! drops its translations, the page is collected, and a changed one is saved.
#![tactic(auto)]

mod failure;
mod harts;
mod heeding;
mod patience;
mod reporting;
mod serial;
mod serving;
mod steps;
mod turns;
mod watched;

pub use reporting::{NoReport, audit, into_report, run_serial};
pub use serial::play;
pub use serving::{ServedStep, serve_step};
pub use steps::play_steps;
pub use watched::SerialRun;
