//! Values in assembly source that do not need the instruction set: what tables have for names, the numbers of registers, numbers in
//! their ranges, and what directives put into the data.
#![tactic(auto)]

mod data;
mod datum;
mod laws;
mod names;
mod operands;
mod ranges;
mod registers;
mod text;

pub use data::{Size, data_values, is_list};
pub use datum::Datum;
pub use laws::escapes_stand_for_their_bytes;
pub use names::look_up;
pub use operands::number;
pub use ranges::word;
pub use registers::register_number;
pub use text::{ascii, space};
