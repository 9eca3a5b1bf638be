//! The table of a curve: a row for each number of frames up to as many as a string has pages.

use crate::counts_table::{TableRow, write_any_head, write_any_row};
use crate::printing::Printing;
use miss_counts::{PolicyCount, PolicyName};
use std::io;
use std::io::Write;

/// Writes a row for 1 frame, for 2 and so on: what LRU misses, and what the optimum does where that was counted.
pub fn write_curve<W: Write>(
    lru: &[usize],
    optimum: &[usize],
    references: u64,
    printing: Printing,
    out: &mut W,
) -> io::Result<()> {
    for (at, misses) in lru.iter().enumerate() {
        let counts = [PolicyCount {
            policy: PolicyName::Lru,
            count: Some(*misses as u64),
        }];
        let row = TableRow {
            frames: at.saturating_add(1),
            references,
            counts: &counts,
            optimum: optimum.get(at).map(|misses| *misses as u64),
        };
        if at == 0 {
            write_any_head(&row, printing, out)?;
        }
        write_any_row(&row, printing, out)?;
    }
    Ok(())
}
