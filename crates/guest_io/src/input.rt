//! Standard input, read whole.

ghost use Rattle.std.specs.Prelude.{◌≤◌, ⊤, IfErr, IfOk, codes, length};
ghost use Rattle.image_files.specs.Faults.{IsUnread};
ghost use Rattle.image_files.specs.WholeBytes.{AreWhole};

use image_files::Fault;
use std::alloc::Global;
use std::io::Read;

/// How standard input is named in a fault.
const STANDARD_INPUT: &str = "standard input";

/// The bytes of an input, as many as a file may have at most.
pub fn read_whole<'a, I: Read + Drop>(alloc: Global, input: I) -> Result<Vec<u8>, Fault<'a>>
    ensures whole { IfOk result (λ bytes. AreWhole (I.remaining input) bytes.items) }
    ensures few { IfOk result (λ bytes. length bytes.items ≤ 33554432) }
    ensures unread { IfErr result (IsUnread (λ _. ⊤) (codes "standard input")) }
{
    image_files::read_whole(alloc, input, STANDARD_INPUT)
}
