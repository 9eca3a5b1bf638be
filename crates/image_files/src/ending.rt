//! How a program ends.

ghost use Rattle.std.specs.Prelude.{◌≡◌, ◌⊎◌, MatchResult};

use crate::fault::Fault;
use std::io::Write;

/// The exit status where a fault stopped a program.
const FAULT: u8 = 2;

/// The exit status of a program that came to this. The program's output is flushed first. Then a fault is printed with the program's name.
pub fn finish<O: Write, E: Write>(
    program: &str,
    done: Result<u8, Fault<'_>>,
    out: &mut O,
    err: &mut E,
) -> u8
    ensures { MatchResult done.entry (λ status. (result ≡ status) ⊎ (result ≡ 2)) (λ _. result ≡ 2) }
{
    let flushed = out.flush();
    match done {
        Ok(status) => match flushed {
            Ok(()) => status,
            Err(_) => fail(program, Fault::CannotWrite, err),
        },
        Err(fault) => fail(program, fault, err),
    }
}

/// Prints a fault with a program's name, and returns the exit status. Where the fault can't be written, only the status reports it.
pub fn fail<E: Write>(program: &str, fault: Fault<'_>, err: &mut E) -> u8
    ensures { result ≡ 2 }
{
    let _ = writeln!(err, "{program}: {fault}");
    let _ = err.flush();
    FAULT
}
