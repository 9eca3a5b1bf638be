//! What a run of a machine by threads has come to.

use crate::crew::Crew;
use machine_limits::MOST_PROCESSES;
use machine_sides::Report;
use status_cell::{Status, Viewer};
use thiserror::Error;

/// What a machine that threads ran has come to.
#[derive(Drop)]
pub struct RunReport {
    /// What any machine reports. Its audit is true where the list's resident entries are the resident pages, no frame is lost, the slots
    /// are those of the machine, nothing has happened that no event of it gives, each process was started from what was handed in, each
    /// has ended, and each viewer shows the counts of its line.
    pub report: Report,
    /// What was published last of each process, by their numbers.
    pub published: Vec<Status>,
    /// The viewers of the processes' counts, by their numbers, at which the daemon looked. Each has looked once more since all threads ended.
    pub viewers: Vec<Viewer>,
    /// Of how many slots the machine's pool was in the end.
    pub slots: usize,
    /// How many changed pages were cleaned, where they are written ahead.
    pub cleans: Option<u64>,
    /// Which threads ran it.
    pub crew: Crew,
}

/// Why a machine was not run, in the order in which the reasons are tested.
#[derive(Clone, Copy, PartialEq, Eq, Debug, Error)]
pub enum RunRefusal {
    #[error("the number of frames is not between 4 and 4096")]
    BadSize,
    #[error("there are more than {most} processes", most = MOST_PROCESSES)]
    TooManyProcesses,
    #[error("out of memory")]
    NoMemory,
}
