//! Why an instruction traps, with the exception code of `mcause`.

ghost use Rattle.std.specs.Prelude.{◌≡◌, ◌<◌};
ghost use Rattle.rv_exec.specs.Causes.{cause_number, fetch_cause, load_cause, store_cause};

use page_memory::MemoryFault;

/// Why an instruction traps (privileged manual, exception codes of `mcause`).
#[derive(Clone, Copy, Debug, PartialEq, Eq)]
pub enum Cause {
    /// A jump, a taken branch or a fetch to an address that is no multiple of 4; its value is that address.
    InstructionMisaligned,
    /// A word outside the instruction table; its value is the word.
    IllegalInstruction,
    /// EBREAK; its value is pc.
    Breakpoint,
    /// A load at an address that is not naturally aligned; its value is the address, as below.
    LoadMisaligned,
    /// A store or an atomic operation at an address that is not naturally aligned.
    StoreMisaligned,
    /// A fetch from an unmapped page, or from one without the right.
    InstructionPageFault,
    /// A load from an unmapped page, or from one without the right.
    LoadPageFault,
    /// A store or an atomic operation on an unmapped page, or on one without the right.
    StorePageFault,
}

impl Cause {
    /// The exception code.
    pub fn number(self) -> u32
        ensures number { result ≡ cause_number self }
        ensures small { result < 16 }
    {
        match self {
            Cause::InstructionMisaligned => 0,
            Cause::IllegalInstruction => 2,
            Cause::Breakpoint => 3,
            Cause::LoadMisaligned => 4,
            Cause::StoreMisaligned => 6,
            Cause::InstructionPageFault => 12,
            Cause::LoadPageFault => 13,
            Cause::StorePageFault => 15,
        }
    }

    /// Why a fetch traps that memory refuses.
    #[inline]
    pub(crate) fn of_fetch(fault: MemoryFault) -> Self
        ensures { result ≡ fetch_cause fault }
    {
        match fault {
            MemoryFault::Misaligned => Cause::InstructionMisaligned,
            MemoryFault::PageFault => Cause::InstructionPageFault,
        }
    }

    /// Why a load traps that memory refuses.
    #[inline]
    pub(crate) fn of_load(fault: MemoryFault) -> Self
        ensures { result ≡ load_cause fault }
    {
        match fault {
            MemoryFault::Misaligned => Cause::LoadMisaligned,
            MemoryFault::PageFault => Cause::LoadPageFault,
        }
    }

    /// Why a store or an atomic operation traps that memory refuses.
    #[inline]
    pub(crate) fn of_store(fault: MemoryFault) -> Self
        ensures { result ≡ store_cause fault }
    {
        match fault {
            MemoryFault::Misaligned => Cause::StoreMisaligned,
            MemoryFault::PageFault => Cause::StorePageFault,
        }
    }
}
