//! The limits of the machine, each by its one name. How many pages an address space has is `page_memory::PAGE_COUNT`.
#![tactic(auto)]

/// How many harts a process may ever start.
pub const MOST_HARTS: usize = 8;

/// How many processes a machine may run.
pub const MOST_PROCESSES: usize = 64;

/// The fewest frames that a machine has.
pub const FEWEST_FRAMES: u32 = 4;

/// The most frames that a machine has.
pub const MOST_FRAMES: u32 = 4096;

/// A process that completes no instruction is killed after so many tries for its pages, for each frame of the machine.
pub const TRIES_PER_FRAME: u64 = 64;

/// After so many load faults in a row a process is killed.
pub const MOST_LOAD_FAULTS: u32 = 3;
