//! Slots that are files.
//!
//! What a file holds is not known, so a slot in a file is of no honest kind.
#![tactic(auto)]

mod fault;
mod file_maker;
mod file_name;
mod file_slot;
mod making;
#[cfg(test)]
mod tests;

pub use fault::FilesFault;
pub use file_maker::FileMaker;
pub use file_name::FileName;
pub use file_slot::FileSlot;
pub use making::{MOST_FILES, make_file_slots};
