//! `clock`: a replacement list that serves page faults. Prints how many calls it had and a checksum of its victims. The next words are
//! `ring` or `list`, frames, pages, references. With `stride` or `shared` in their place it is the circle of links, each page 16 numbers
//! past the one before, or as many processes as a machine may run, with the same page numbers. With `whole` the circle of links is
//! purged of one of so many processes and copied, each as often as there are references: prints how many entries went, and on standard
//! error the nanoseconds of all purges and of all copies.

use crate::words::number;
use anyhow::Result;
use clock_list::ClockList;
use clock_policy::{Bit, Clock, Key, Verdict};
use clock_ring::ClockRing;
use machine_limits::MOST_PROCESSES;
use std::alloc::Global;
use std::time::Instant;

/// How many processes share the list.
const PROCESSES: u32 = MOST_PROCESSES as u32;

/// How many numbers a page of `stride` is past the one before.
const STRIDE: u32 = 16;

/// Which keys the pages have.
#[derive(Clone, Copy, PartialEq, Eq, Debug)]
enum Keys {
    OneProcess,
    Stride,
    Shared,
}

impl Keys {
    fn key(self, page: u32) -> Key {
        match self {
            Keys::OneProcess => Key {
                process: 0,
                vpn: page,
            },
            Keys::Stride => Key {
                process: 0,
                vpn: page.wrapping_mul(STRIDE),
            },
            Keys::Shared => Key {
                process: page % PROCESSES,
                vpn: page / PROCESSES,
            },
        }
    }

    fn page(self, key: Key) -> u32 {
        match self {
            Keys::OneProcess => key.vpn,
            Keys::Stride => key.vpn / STRIDE,
            Keys::Shared => key.vpn.wrapping_mul(PROCESSES).wrapping_add(key.process),
        }
    }
}

/// Pages, those in a frame, and the calls so far.
#[derive(Drop)]
struct Load {
    keys: Keys,
    used: Vec<bool>,
    resident: Vec<bool>,
    free: usize,
    calls: u64,
    sum: u64,
}

impl Load {
    fn new(alloc: Global, keys: Keys, frames: usize, pages: usize) -> Result<Self> {
        let mut used = Vec::new(alloc);
        let mut resident = Vec::new(alloc);
        for _ in 0..pages {
            used.push(false)?;
            resident.push(false)?;
        }
        Ok(Load {
            keys,
            used,
            resident,
            free: frames,
            calls: 0,
            sum: 0,
        })
    }

    /// Whether the page was used since it was asked for.
    fn clear_used(&mut self, page: usize) -> bool {
        let Some(used) = self.used.get_mut(page) else {
            return false;
        };
        let was = *used;
        *used = false;
        was
    }

    fn set_resident(&mut self, page: usize, now: bool) {
        if let Some(resident) = self.resident.get_mut(page) {
            *resident = now;
        }
    }

    /// The page of the question is answered. False where there is none.
    fn ask<C: Clock>(&mut self, clock: &mut C) -> bool {
        let Some(asked) = clock.question() else {
            return false;
        };
        let bit = if self.clear_used(self.keys.page(asked) as usize) {
            Bit::One
        } else {
            Bit::Zero
        };
        self.calls = self.calls.wrapping_add(2);
        if let Ok(Verdict::Victim(victim)) = clock.answer(bit) {
            let page = self.keys.page(victim);
            self.set_resident(page as usize, false);
            self.free = self.free.wrapping_add(1);
            self.sum = self.sum.wrapping_mul(31).wrapping_add(u64::from(page));
        }
        true
    }

    /// A page is used, and comes in where it is not resident.
    fn touch<C: Clock>(&mut self, clock: &mut C, number: u32) {
        let page = number as usize;
        if let Some(used) = self.used.get_mut(page) {
            *used = true;
        }
        if self.resident.get(page).is_some_and(|resident| *resident) {
            return;
        }
        for _ in 0..u32::MAX {
            if self.free > 0 || !self.ask(clock) {
                break;
            }
        }
        self.calls = self.calls.wrapping_add(1);
        if clock.admit(self.keys.key(number)).is_ok() {
            self.set_resident(page, true);
            self.free = self.free.wrapping_sub(1);
        }
    }
}

/// Pages are used at random, a quarter of the uses in a part half as large as the frames.
fn serve<C: Clock>(clock: &mut C, load: &mut Load, frames: usize, references: usize) {
    let pages = load.used.len();
    let mut random = 88172645463325252u64;
    for _ in 0..references {
        random = random
            .wrapping_mul(6364136223846793005)
            .wrapping_add(1442695040888963407);
        let range = if random >> 60 < 4 { frames / 2 } else { pages };
        let page = (random >> 20) % (range as u64).max(1);
        load.touch(clock, u32::try_from(page).unwrap_or(0));
    }
}

fn timed<C: Clock>(
    rt: &HostRuntime,
    mut clock: C,
    keys: Keys,
    frames: usize,
    pages: usize,
    references: usize,
) -> Result<()> {
    let mut load = Load::new(rt.alloc(), keys, frames, pages)?;
    let start = Instant::now(rt)?;
    serve(&mut clock, &mut load, frames, references);
    let elapsed = start.elapsed(rt)?;
    let calls = load.calls;
    let sum = load.sum;
    println!(rt; "{calls} {sum}")?;
    eprintln!(rt; "{}", elapsed.as_nanos())?;
    Ok(())
}

/// Each frame has a page again, of the processes by turns.
fn fill<C: Clock>(clock: &mut C, frames: usize) {
    for i in 0..frames {
        let vpn = u32::try_from(i).unwrap_or(0);
        // A page that is there already is refused.
        let _ = clock.restore(Key {
            process: vpn % PROCESSES,
            vpn,
        });
    }
}

/// Calls that go through the whole list.
fn whole<C: Clock>(rt: &HostRuntime, mut clock: C, frames: usize, rounds: usize) -> Result<()> {
    let mut entries = Vec::with_capacity(rt.alloc(), frames)?;
    let (mut gone, mut purging, mut copying) = (0u64, 0u64, 0u64);
    for round in 0..rounds {
        fill(&mut clock, frames);
        let start = Instant::now(rt)?;
        entries.clear();
        clock.copy_entries(&mut entries)?;
        let copied = start.elapsed(rt)?.as_nanos();
        let process = u32::try_from(round).unwrap_or(0) % PROCESSES;
        let start = Instant::now(rt)?;
        gone = gone.saturating_add(u64::from(clock.purge(process)));
        let purged = start.elapsed(rt)?.as_nanos();
        copying = copying.saturating_add(u64::try_from(copied).unwrap_or(0));
        purging = purging.saturating_add(u64::try_from(purged).unwrap_or(0));
    }
    println!(rt; "{gone}")?;
    eprintln!(rt; "{purging} {copying}")?;
    Ok(())
}

/// Times the list that the word after the name asks for.
pub(crate) fn run(rt: &HostRuntime, words: &[String]) -> Result<()> {
    let frames = number(words, 2, 64)? as usize;
    let pages = number(words, 3, 200)? as usize;
    let references = number(words, 4, 100_000)? as usize;
    let kind = match words.get(1) {
        Some(word) => word.as_str(),
        None => "ring",
    };
    match kind {
        "whole" => whole(rt, ClockRing::new(rt.alloc(), frames)?, frames, references),
        "list" => {
            let list = ClockList::new(rt.alloc(), frames)?;
            timed(rt, list, Keys::OneProcess, frames, pages, references)
        }
        kind => {
            let keys = match kind {
                "stride" => Keys::Stride,
                "shared" => Keys::Shared,
                _ => Keys::OneProcess,
            };
            let ring = ClockRing::new(rt.alloc(), frames)?;
            timed(rt, ring, keys, frames, pages, references)
        }
    }
}
