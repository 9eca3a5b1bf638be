//! Why a file, words or parts make no image, with the number of each fault.

ghost use Rattle.std.specs.Prelude.{◌≡◌};
ghost use Rattle.elf_image.specs.Faults.{fault_number};

use std::alloc::AllocError;
use thiserror::Error;

/// Why no image is made, in the order in which it is tested.
#[derive(Clone, Copy, PartialEq, Eq, Debug, Error)]
pub enum ElfFault {
    #[error("the file has fewer than 52 bytes")]
    Short,
    #[error("the file does not begin as an ELF file")]
    NotElf,
    #[error("the file is not of 32 bits, little-endian, version 1")]
    WrongClass,
    #[error("the file is not an executable")]
    WrongType,
    #[error("the file is not for RISC-V")]
    WrongMachine,
    #[error("the file needs compressed or floating-point instructions or RVE")]
    Flags,
    #[error("the program headers do not lie in the file")]
    Headers,
    #[error("the file is dynamically linked")]
    Dynamic,
    #[error("a segment does not lie in the file")]
    SegmentOutOfFile,
    #[error("a segment has more bytes in the file than in memory")]
    SizeOrder,
    #[error("a page lies at or above 0x70000000")]
    Range,
    #[error("two segments share an address, or pages do not rise")]
    Overlap,
    #[error("the image has more than 4032 pages")]
    TooLarge,
    #[error("the image touches more than 56 regions of 4 MiB")]
    TooSparse,
    #[error("the entry lies in no executable page")]
    EntryNotExecutable,
    #[error("there is no memory for the image")]
    NoMemory,
}

impl ElfFault {
    /// The number by which a fault is printed.
    pub fn number(self) -> u8
        ensures { result ≡ fault_number self }
    {
        match self {
            ElfFault::Short => 1,
            ElfFault::NotElf => 2,
            ElfFault::WrongClass => 3,
            ElfFault::WrongType => 4,
            ElfFault::WrongMachine => 5,
            ElfFault::Flags => 6,
            ElfFault::Headers => 7,
            ElfFault::Dynamic => 8,
            ElfFault::SegmentOutOfFile => 9,
            ElfFault::SizeOrder => 10,
            ElfFault::Range => 11,
            ElfFault::Overlap => 12,
            ElfFault::TooLarge => 13,
            ElfFault::TooSparse => 14,
            ElfFault::EntryNotExecutable => 15,
            ElfFault::NoMemory => 16,
        }
    }
}

impl From<AllocError> for ElfFault {
    ghost use Rattle.std.specs.Prelude.{◌≡◌};
    ghost use Rattle.elf_image.specs.declared.fault.ElfFault.TheVariants.{NoMemory};

    ghost from_gives = { λ _ fault. fault ≡ NoMemory };

    fn from(_: AllocError) -> Self {
        ElfFault::NoMemory
    }
}
