//! Program images: the pages that a process begins with, and its entry; from words, from parts, and from ELF files
//! and back.
#![tactic(auto)]

mod bounds;
mod byte_pages;
mod fault;
mod file_header;
mod format;
mod header_checks;
mod image;
mod loading;
mod parts;
mod program_header;
mod read;
mod runs;
mod segments;
mod touched;
mod words;
mod writing;
mod written_law;

pub use byte_pages::{bytes_of_words, with_pages};
pub use fault::ElfFault;
pub use file_header::begins_as_elf;
pub use image::{Image, ImagePage};
pub use read::read_elf;
pub use words::TEXT_START;
pub use writing::write_elf;
pub use written_law::written_files_are_read_back;
