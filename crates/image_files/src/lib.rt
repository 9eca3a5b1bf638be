//! What the commands of the programs read, image files, sources and inputs, and why one of them stops; how the programs begin and end; and
//! the slots that are made for a machine.
#![tactic(auto)]

mod beginning;
mod ending;
mod fault;
mod files;
mod image_file;
mod image_kind;
mod slots;
mod stack_room;
mod system_files;
mod words;
mod words_file;

pub use beginning::begin;
pub use ending::finish;
pub use fault::Fault;
pub use files::{Folder, read_input, read_text, read_whole};
pub use image_file::{image_in, read_image, read_processes, read_source};
pub use slots::memory_slots;
pub use words::read_words;
