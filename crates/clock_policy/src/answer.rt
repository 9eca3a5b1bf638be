//! The bit that answers a question, the verdict that follows, and the kind of an admitted page.

use crate::key::Key;
use std::fmt;

/// What a page that is admitted becomes.
#[derive(Clone, Copy, Debug, PartialEq, Eq)]
pub enum Kind {
    Hot,
    Test,
}

impl fmt::Display for Kind {
    ghost use Rattle.std.specs.Prelude.{Some};
    ghost use Rattle.clock_policy.specs.Text.{kind_text};

    ghost output = { λ k. Some (kind_text k) };

    fn fmt<W: fmt::Write>(&self, f: &mut fmt::Formatter<W>) -> fmt::Result {
        f.write_str(match self {
            Kind::Hot => "hot",
            Kind::Test => "test",
        })
    }
}

/// The answer to a question: the page's accessed bit, or that the page is no longer resident.
#[derive(Clone, Copy, Debug, PartialEq, Eq)]
pub enum Bit {
    Zero,
    One,
    Gone,
}

/// What an answer leads to: the next question, or a page that is to leave.
#[derive(Clone, Copy, Debug, PartialEq, Eq)]
pub enum Verdict {
    GoOn,
    Victim(Key),
}
