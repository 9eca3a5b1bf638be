//! Benchmarks of parts of paging, one by the first word: `clock`, `digest`, `tlb` or `walk`. Each prints a checksum, and on standard
//! error the nanoseconds. With no words each runs once, in that order.
#![tactic(auto)]

mod clock;
mod digest;
mod tlb;
mod walk;
mod words;

use anyhow::{Result, bail};
use std::env;

/// Runs the benchmark that the first word names.
fn run_named(rt: &HostRuntime, name: &str, words: &[String]) -> Result<()> {
    match name {
        "clock" => clock::run(rt, words),
        "digest" => digest::run(rt, words),
        "tlb" => tlb::run(rt, words),
        "walk" => walk::run(rt, words),
        _ => bail!("no such benchmark"),
    }
}

/// Runs each benchmark with its own numbers.
fn run_each(rt: &HostRuntime) -> Result<()> {
    clock::run(rt, &[])?;
    digest::run(rt, &[])?;
    tlb::run(rt, &[])?;
    walk::run(rt, &[])
}

fn main(rt: HostRuntime) -> Result<()> {
    let words = env::args(&rt)?.skip(1).collect::<Vec<String>>(rt.alloc())?;
    match words.first() {
        Some(name) => run_named(&rt, name.as_str(), words.as_slice()),
        None => run_each(&rt),
    }
}
