//! The answer of a fetch or load that needs a look-up, in a form that is returned in registers.

ghost use Rattle.std.specs.Prelude.{◌≡◌};
ghost use Rattle.page_memory.specs.Reply.{answered};

use crate::fault::MemoryFault;

/// What a fetch or a load answers from a page that is not remembered. It goes back in registers, where a `Result` takes a slot
/// of the caller's, which the loop that runs instructions would clear at each of them.
pub(crate) enum Reply {
    Number(u32),
    Misaligned,
    PageFault,
}

impl Reply {
    /// The same as memory's answer.
    #[inline(always)]
    pub(crate) fn answer(self) -> Result<u32, MemoryFault>
        ensures { result ≡ answered self }
    {
        match self {
            Reply::Number(number) => Ok(number),
            Reply::Misaligned => Err(MemoryFault::Misaligned),
            Reply::PageFault => Err(MemoryFault::PageFault),
        }
    }
}
