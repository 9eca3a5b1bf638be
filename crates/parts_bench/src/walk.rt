//! `walk`: walks over 4096 mapped pages, as many as the next word says.

use crate::words::number;
use anyhow::Result;
use page_memory::{Access, Rights};
use std::time::Instant;
use sv32_table::Tables;

/// Walks to pages in a scattered order, and adds up the physical addresses.
fn walks(tables: &mut Tables, count: u32) -> u64 {
    let mut sum: u64 = 0;
    for i in 0..count {
        let address = i.wrapping_mul(0x9E37_79B1) >> 8;
        if let Ok(leaf) = tables.walk(address, Access::Load) {
            sum = sum.wrapping_add(leaf.physical);
        }
    }
    sum
}

/// Times the walks.
pub(crate) fn run(rt: &HostRuntime, words: &[String]) -> Result<()> {
    let count = number(words, 1, 1000)?;
    let mut tables = Tables::new(rt.alloc())?;
    for vpn in 0..4096u32 {
        tables.map(vpn, vpn, Rights::READ | Rights::WRITE, false)?;
    }
    let start = Instant::now(rt)?;
    let sum = walks(&mut tables, count);
    let elapsed = start.elapsed(rt)?;
    println!(rt; "{sum}")?;
    eprintln!(rt; "{}", elapsed.as_nanos())?;
    Ok(())
}
