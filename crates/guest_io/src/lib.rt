//! What the commands of `guest` have in common: words that are read, a guest's input, read whole, its ending as a status and in words, and
//! files that are made whole.
#![tactic(auto)]

mod arguments;
mod input;
mod matched;
mod told_end;
mod usage_fault;
mod whole_file;

pub use arguments::{flag_arg, option_arg, with_arg, with_command};
pub use input::read_whole;
pub use matched::{is_given, number, text, wrong_words};
pub use told_end::{status_of, tell_end};
pub use usage_fault::UsageFault;
pub use whole_file::WholeFiles;
