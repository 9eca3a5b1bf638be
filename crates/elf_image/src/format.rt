//! Numbers of the ELF format that reading and writing share (System V gABI, "ELF Header" and "Program Header").

/// How many bytes the ELF header has.
pub(crate) const HEADER_SIZE: usize = 52;

/// How many bytes a program header has.
pub(crate) const PROGRAM_HEADER_SIZE: usize = 32;

/// `e_type` of an executable.
pub(crate) const EXECUTABLE_FILE: u16 = 2;

/// `e_machine` of RISC-V.
pub(crate) const RISC_V: u16 = 243;

/// `e_version`.
pub(crate) const VERSION: u32 = 1;

/// `p_type` of a segment that is loaded.
pub(crate) const LOAD: u32 = 1;

/// `p_type` of the tables for a dynamic linker.
pub(crate) const DYNAMIC: u32 = 2;

/// `p_type` of a dynamic linker's name.
pub(crate) const INTERPRETER: u32 = 3;

/// The bit of `p_flags` for a segment that may be executed.
pub(crate) const EXECUTABLE: u32 = 1;

/// The bit of `p_flags` for a segment that may be written.
pub(crate) const WRITABLE: u32 = 2;

/// The bit of `p_flags` for a segment that may be read.
pub(crate) const READABLE: u32 = 4;
