//! The published counts of a process: completed instructions and written bytes.

ghost use Rattle.std.specs.Prelude.{[], ◌∷◌};

use crossbeam_utils::atomic::Words;

/// How far a process has come.
#[derive(Clone, Copy, PartialEq, Eq, Debug)]
pub struct Status {
    /// How many instructions it has completed.
    pub steps: u64,
    /// How many bytes it has written.
    pub output: u64,
}

impl Words<2> for Status {
    ghost words = { λ s. s.steps ∷ s.output ∷ [] };

    fn to_words(self) -> [u64; 2] {
        [self.steps, self.output]
    }

    fn from_words(bits: &[u64; 2]) -> Status {
        Status {
            steps: bits[0],
            output: bits[1],
        }
    }
}
