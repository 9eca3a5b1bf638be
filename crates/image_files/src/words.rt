//! The words that the program is run with.

ghost use Rattle.std.specs.Prelude.{◌≡◌, ◌⊎◌, IfErr};

use crate::fault::Fault;
use std::env;
use std::env::Env;
use std::io::ErrorKind;

/// The words after the program's name. One that is not UTF-8 is bad usage.
pub fn read_words<'a, R: Env + AllocGlobal>(rt: &R) -> Result<Vec<String>, Fault<'a>>
    ensures refused { IfErr result (λ why. (why ≡ Fault.BadUsage) ⊎ (why ≡ Fault.NoMemory)) }
{
    match env::args(rt) {
        Ok(words) => Ok(words.skip(1).collect::<Vec<String>>(rt.alloc())?),
        Err(error) => match error.kind() {
            ErrorKind::OutOfMemory => Err(Fault::NoMemory),
            _ => Err(Fault::BadUsage),
        },
    }
}
