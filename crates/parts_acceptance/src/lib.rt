//! Tests of lower crates, through only the public calls of each. Those crates are not proved a second time with tests of their own.
#![tactic(auto)]

#[cfg(test)]
mod elf_hostile;
#[cfg(test)]
mod frames;
#[cfg(test)]
mod instructions;
#[cfg(test)]
mod lines;
#[cfg(test)]
mod origins;
#[cfg(test)]
mod ring;
#[cfg(test)]
mod slots;
#[cfg(test)]
mod stored_pages;
#[cfg(test)]
mod tables;
#[cfg(test)]
mod translations;
