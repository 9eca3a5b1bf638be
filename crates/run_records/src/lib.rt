//! Records of runs: a text that names image and input, has each turn in order, and what the run came to.
#![tactic(auto)]

mod fault;
mod fingerprint;
mod laws;
mod numbers;
mod reading;
mod record;
mod replaying;
mod turns;
mod writing;

pub use fault::RecordFault;
pub use fingerprint::{Fingerprint, is_print_of, take_fingerprint};
pub use laws::{read_records_are_written, replayed_records_replay, written_records_are_read};
pub use reading::read_record;
pub use record::{Closing, Record, are_joined, know_fitting};
pub use replaying::{ReplayFault, replay};
pub use writing::{digits_of, write_record};
