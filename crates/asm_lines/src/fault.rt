//! What can be wrong with a line of source, with the number of each fault.

ghost use Rattle.std.specs.Prelude.{◌≡◌};
ghost use Rattle.asm_lines.specs.Faults.{fault_number};

use std::alloc::{AllocError, AllocFailed};
use thiserror::Error;

/// What is wrong with a line or with the whole program, in the order of the tests.
#[derive(Clone, Copy, Debug, PartialEq, Eq, Error)]
pub enum FaultKind {
    /// No line of this form.
    #[error("no line of this form")]
    BadLine,
    /// A statement that the assembler does not know.
    #[error("an unknown statement")]
    UnknownName,
    /// Number or kind of the operands, an unknown register, or a statement in the wrong section.
    #[error("a wrong operand")]
    Operand,
    /// A number or a distance that its field cannot hold.
    #[error("a number out of range")]
    Range,
    /// A label that is there a second time.
    #[error("a label that stands twice")]
    LabelTwice,
    /// A label that is nowhere.
    #[error("a label that stands nowhere")]
    NoLabel,
    /// More than 65536 words of text or 1048576 bytes of data.
    #[error("too much text or data")]
    TooLong,
    /// No word of text.
    #[error("no word of text")]
    Empty,
}

impl FaultKind {
    /// The number by which a fault is printed.
    pub fn number(self) -> u8
        ensures { result ≡ fault_number self }
    {
        match self {
            FaultKind::BadLine => 1,
            FaultKind::UnknownName => 2,
            FaultKind::Operand => 3,
            FaultKind::Range => 4,
            FaultKind::LabelTwice => 5,
            FaultKind::NoLabel => 6,
            FaultKind::TooLong => 7,
            FaultKind::Empty => 8,
        }
    }
}

/// Why a line is not read.
#[derive(Clone, Copy, Debug, PartialEq, Eq)]
pub enum LineRefusal {
    /// It has a fault.
    Fault(FaultKind),
    /// There is no memory for what it holds.
    NoMemory,
}

impl From<AllocError> for LineRefusal {
    ghost use Rattle.std.specs.Prelude.{◌≡◌};
    ghost use Rattle.asm_lines.specs.declared.fault.LineRefusal.TheVariants.{NoMemory};

    ghost from_gives = { λ _ refusal. refusal ≡ NoMemory };

    fn from(_: AllocError) -> Self {
        LineRefusal::NoMemory
    }
}

impl<T: Drop> From<AllocFailed<T>> for LineRefusal {
    ghost use Rattle.std.specs.Prelude.{◌≡◌};
    ghost use Rattle.asm_lines.specs.declared.fault.LineRefusal.TheVariants.{NoMemory};

    ghost from_gives = { λ _ refusal. refusal ≡ NoMemory };

    fn from(_: AllocFailed<T>) -> Self {
        LineRefusal::NoMemory
    }
}
