//! The names of columns.

use crate::numbers::write_blanks;
use miss_counts::PolicyName;
use std::fmt::Write as FmtWrite;
use std::io::Write;
use std::{fmt, io};

/// Counts the characters that are written, which are all of one byte.
#[derive(Drop)]
struct Characters {
    count: usize,
}

impl fmt::Write for Characters {
    fn write_str(&mut self, text: &str) -> fmt::Result {
        self.count = self.count.saturating_add(text.len());
        Ok(())
    }
}

/// How many characters a policy's name has, with how it is asked for.
pub(crate) fn name_size(policy: PolicyName) -> usize {
    let mut characters = Characters { count: 0 };
    let _ = write!(characters, "{policy}");
    characters.count
}

/// A policy's name at the right of its column, one blank at least before it.
pub(crate) fn write_policy<W: Write>(
    policy: PolicyName,
    wide: usize,
    out: &mut W,
) -> io::Result<()> {
    write_blanks(wide.saturating_sub(name_size(policy)).max(1), out)?;
    write!(out, "{policy}")
}
