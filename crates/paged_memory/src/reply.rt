//! What an access answers that was not served at once.
//!
//! These go back in registers. A `Result` of a bus's error takes a slot of the caller's. The inner loop would clear that slot
//! at each instruction, because the calls are in that loop.

ghost use Rattle.std.specs.Prelude.{◌≡◌};
ghost use Rattle.paged_memory.specs.access.Replies.{loaded_by};

use page_memory::MemoryFault;
use rv_exec::BusError;

/// What a fetch or a load answers.
#[derive(Clone, Copy, PartialEq, Eq, Debug)]
pub(crate) enum LoadReply {
    Number(u32),
    /// The page, by number, has to be brought in first.
    Absent(u32),
    Misaligned,
    PageFault,
}

impl LoadReply {
    /// The same as a bus's answer.
    #[inline(always)]
    pub(crate) fn answer(self) -> Result<u32, BusError>
        ensures { result ≡ loaded_by self }
    {
        match self {
            LoadReply::Number(number) => Ok(number),
            LoadReply::Absent(page) => Err(BusError::Absent(page)),
            LoadReply::Misaligned => Err(BusError::Fault(MemoryFault::Misaligned)),
            LoadReply::PageFault => Err(BusError::Fault(MemoryFault::PageFault)),
        }
    }
}

/// What a store answers.
#[derive(Clone, Copy, PartialEq, Eq, Debug)]
pub(crate) enum StoreReply {
    Done,
    /// The page, by number, has to be brought in first.
    Absent(u32),
    Misaligned,
    PageFault,
}
