//! `digest`: digests of a page of 4096 bytes, as many as the next word says, each page made of the digest before. The checksum is the sum
//! of the digests' last bytes.

use crate::words::number;
use anyhow::Result;
use sha2::{Digest, Sha256};
use std::time::Instant;

/// Digests a page again and again; each digest goes into the next page.
fn digests(page: &mut [u8; 4096], count: u32) -> u32 {
    let mut sum: u32 = 0;
    for _ in 0..count {
        let digest = Sha256::digest(page.as_slice());
        page[0] = digest[0];
        sum = sum.wrapping_add(u32::from(digest[31]));
    }
    sum
}

/// Times the digests.
pub(crate) fn run(rt: &HostRuntime, words: &[String]) -> Result<()> {
    let count = number(words, 1, 10)?;
    let mut page = [0u8; 4096];
    let start = Instant::now(rt)?;
    let sum = digests(&mut page, count);
    let elapsed = start.elapsed(rt)?;
    println!(rt; "{sum}")?;
    eprintln!(rt; "{}", elapsed.as_nanos())?;
    Ok(())
}
