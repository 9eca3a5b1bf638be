//! The numbers among a benchmark's words.

use anyhow::{Context, Result};

/// The number at a place among the words, or this one where they end before.
pub(crate) fn number(words: &[String], at: usize, otherwise: u32) -> Result<u32> {
    match words.get(at) {
        Some(word) => word
            .as_str()
            .parse::<u32>()
            .context("reading a number of the benchmark"),
        None => Ok(otherwise),
    }
}
