//! How a process ended, as it is printed: `exited`, `trap` or `killed`, with the details.

use flat_machine::End;
use std::fmt;

/// How a process ended, as it is printed.
#[derive(Clone, Copy)]
pub struct Ending(pub End);

impl fmt::Display for Ending {
    ghost use Rattle.std.specs.Prelude.{Some};
    ghost use Rattle.process_text.specs.ProcessText.{ending_text};

    ghost output = { λ ending. Some (ending_text ending.0) };

    fn fmt<W: fmt::Write>(&self, f: &mut fmt::Formatter<W>) -> fmt::Result {
        match self.0 {
            End::Exited(status) => write!(f, "exited {status}"),
            End::Trapped {
                hart,
                cause,
                pc,
                value,
            } => {
                let cause = cause.number();
                let (pc, value) = (Word(pc), Word(value));
                write!(f, "trap {cause} hart {hart} pc {pc} value {value}")
            }
            End::Killed(cause) => write!(f, "killed {cause}"),
        }
    }
}

/// A word in hexadecimal digits.
#[derive(Clone, Copy)]
struct Word(u32);

impl fmt::Display for Word {
    ghost use Rattle.std.specs.Prelude.{Some};
    ghost use Rattle.process_text.specs.ProcessText.{word_text};

    ghost output = { λ word. Some (word_text word.0) };

    fn fmt<W: fmt::Write>(&self, f: &mut fmt::Formatter<W>) -> fmt::Result {
        let word = self.0;
        write!(f, "0x{word:08X}")
    }
}
