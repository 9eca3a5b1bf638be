//! Why a source is not assembled: its first fault, with the line, or no memory.

ghost use Rattle.std.specs.Prelude.{◌≡◌};
ghost use Rattle.rv_asm.specs.Errors.{error_on};

use asm_lines::{FaultKind, LineRefusal};
use std::alloc::AllocError;
use thiserror::Error;

/// Why a source is not assembled.
#[derive(Clone, Copy, Debug, PartialEq, Eq, Error)]
pub enum AsmError {
    /// The first fault of the source. Lines count from 1; a source with no word of text has its fault at line 0.
    #[error("line {line}: {kind}")]
    Fault { line: usize, kind: FaultKind },
    #[error("there is no memory for the program")]
    NoMemory,
}

impl AsmError {
    /// The error of a line that is not read.
    pub(crate) fn on_line(line: usize, refusal: LineRefusal) -> AsmError
        ensures { result ≡ error_on line refusal }
    {
        match refusal {
            LineRefusal::Fault(kind) => AsmError::Fault { line, kind },
            LineRefusal::NoMemory => AsmError::NoMemory,
        }
    }
}

impl From<AllocError> for AsmError {
    ghost use Rattle.std.specs.Prelude.{◌≡◌};
    ghost use Rattle.rv_asm.specs.declared.fault.AsmError.TheVariants.{NoMemory};

    ghost from_gives = { λ _ error. error ≡ NoMemory };

    fn from(_: AllocError) -> Self {
        AsmError::NoMemory
    }
}
