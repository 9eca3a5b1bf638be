//! Lines of an input, one at a time.

ghost use Rattle.std.specs.Prelude.{◌≡◌, ◌≤◌, [], Err, IfOk, length};
ghost use Rattle.debug_session.specs.InputLines.{BeginsTooLong, GivesByte, TakesLine, known_bytes};
ghost use Rattle.debug_session.specs.declared.input_lines.LineFault.TheVariants as fault;

use std::alloc::{AllocError, Global};
use std::io;
use std::io::{BufReader, ErrorKind, Read};

/// The most bytes that a line may have, as many as a file.
const MOST_BYTES: usize = 33_554_432;

/// Why a line can't be had.
#[derive(Clone, Copy, Debug, PartialEq, Eq)]
pub(crate) enum LineFault {
    TooLong,
    NoMemory,
    CannotRead,
}

/// The lines of an input. A line ends with a line feed, which the last one may do without.
#[derive(Drop)]
pub(crate) struct InputLines<I: Read + Drop> {
    reader: BufReader<I>,
}

impl<I: Read + Drop> InputLines<I> {
    pub(crate) fn new(alloc: Global, input: I) -> Result<Self, AllocError>
        ensures { IfOk result (λ lines. known_bytes I.remaining lines ≡ I.remaining input) }
    {
        match BufReader::new(alloc, input) {
            Ok(reader) => Ok(InputLines { reader }),
            Err(_) => Err(AllocError),
        }
    }

    /// Reads the next line into an empty one, without its line feed. Answers whether there was one.
    pub(crate) fn read_line(&mut self, line: &mut Vec<u8>) -> Result<bool, LineFault>
        requires { line.old.items ≡ [] }
        ensures taken { IfOk result (λ found.
            TakesLine (known_bytes I.remaining self.old) found line.new.items
            (known_bytes I.remaining self.new)) }
        ensures short { IfOk result (λ found. length line.new.items ≤ 33554432) }
        ensures too_long { result ≡ Err fault.TooLong →
            BeginsTooLong (known_bytes I.remaining self.old) }
    {
        'bytes: while line.len() <= MOST_BYTES {
            match self.next_byte()? {
                None => return Ok(!line.is_empty()),
                Some(b'\n') => return Ok(true),
                Some(byte) => {
                    if line.push(byte).is_err() {
                        return Err(LineFault::NoMemory);
                    }
                }
            }
        }
        Err(LineFault::TooLong)
    }

    /// The next byte, if there is one. A read is never interrupted, since the program handles no signal.
    fn next_byte(&mut self) -> Result<Option<u8>, LineFault>
        ensures byte { IfOk result (λ byte. GivesByte (known_bytes I.remaining self.old) byte
            (known_bytes I.remaining self.new)) }
        ensures fault { ¬ (result ≡ Err fault.TooLong) }
    {
        let mut buffer = [0u8];
        match self.reader.read(&mut buffer) {
            Ok(0) => Ok(None),
            Ok(_) => Ok(Some(buffer[0])),
            Err(error) => Err(fault_of(&error)),
        }
    }
}

/// What an error of the input is.
fn fault_of(error: &io::Error) -> LineFault
    ensures { ¬ (result ≡ fault.TooLong) }
{
    match error.kind() {
        ErrorKind::OutOfMemory => LineFault::NoMemory,
        _ => LineFault::CannotRead,
    }
}
