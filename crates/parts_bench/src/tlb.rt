//! `tlb`: look-ups in a full translation cache, as many as the next word says.

use crate::words::number;
use anyhow::Result;
use page_memory::Rights;
use std::time::Instant;
use tlb_core::{Tlb, Translation};

/// The entry of a page of code, data or stack.
fn entry(page: u32) -> Translation {
    Translation {
        page,
        place: page as usize % 64,
        frame: page / 3,
        rights: Rights::READ_WRITE,
        dirty: true,
        doomed: false,
    }
}

/// Looks up pages as instructions do: code again and again, data and stack in between, and now and then a page that is not
/// there, which is then put in.
fn looks(cache: &mut Tlb, count: u32) -> u64 {
    let mut sum: u64 = 0;
    for i in 0..count {
        let page = match i % 4 {
            0 | 2 => 0x10 + i / 65536 % 4,
            1 => 0x20 + i / 16 % 8,
            _ => 0x7_FFFE + i / 64 % 2,
        };
        match cache.look(page) {
            Some(found) => {
                sum = sum
                    .wrapping_add(u64::from(found.frame))
                    .wrapping_add(found.place as u64);
            }
            None => cache.fill(entry(page)),
        }
    }
    sum
}

/// Times the look-ups.
pub(crate) fn run(rt: &HostRuntime, words: &[String]) -> Result<()> {
    let count = number(words, 1, 1000)?;
    let mut cache = Tlb::new();
    let start = Instant::now(rt)?;
    let sum = looks(&mut cache, count);
    let elapsed = start.elapsed(rt)?;
    println!(rt; "{sum}")?;
    eprintln!(rt; "{}", elapsed.as_nanos())?;
    Ok(())
}
