//! The symbols of an ELF file of 32 bits, little-endian ("Symbol Table" in the System V ABI): the names of the addresses of a program,
//! and where its objects are in the file.
#![tactic(auto)]

mod object;
mod place;
mod reading;
mod section;
mod symbols;

pub use object::{ObjectPlace, find_object};
pub use place::Place;
pub use symbols::Symbols;
