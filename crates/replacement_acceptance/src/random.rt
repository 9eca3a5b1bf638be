//! The equations of the list are the policy's loops: in random calls, both representations of it do what the loops do.

use crate::walked::Walked;
use clock_list::ClockList;
use clock_policy::{Bit, Clock, Entry, Key};
use clock_ring::ClockRing;
use std::alloc::Global;
use std::process::Abort;

/// One call on both, chosen by a random number, and whether they answer alike.
fn step<C: Clock>(
    rt: &impl Abort,
    clock: &mut C,
    walked: &mut Walked,
    random: u64,
    key: Key,
) -> bool {
    match random % 64 {
        0..=23 => answer_alike(rt, clock, walked, Bit::Zero),
        24..=36 => answer_alike(rt, clock, walked, Bit::One),
        37..=38 => answer_alike(rt, clock, walked, Bit::Gone),
        39..=57 => clock.admit(key) == walked.admit(key).expect(rt, "no memory"),
        58..=60 => clock.restore(key) == walked.restore(key).expect(rt, "no memory"),
        61..=62 => clock.withdraw(key) == walked.withdraw(key),
        _ if (random >> 40) % 16 == 0 => clock.purge(key.process) == walked.purge(key.process),
        _ => clock.question() == walked.question(),
    }
}

fn answer_alike<C: Clock>(rt: &impl Abort, clock: &mut C, walked: &mut Walked, bit: Bit) -> bool {
    clock.answer(bit) == walked.answer(bit).expect(rt, "no memory")
}

/// Whether hands, counts and entries are the same; the entries are put into a vector that was used before.
fn same<C: Clock>(rt: &impl Abort, clock: &C, walked: &Walked, entries: &mut Vec<Entry>) -> bool {
    let hands = clock.cold_hand() == walked.cold && clock.test_hand() == walked.test;
    let counts = clock.share() == walked.share && clock.asked() == walked.asked;
    entries.clear();
    clock.copy_entries(entries).expect(rt, "no memory");
    hands && counts && entries.as_slice() == walked.list.as_slice()
}

/// A random number from the one before.
fn next_random(random: u64) -> u64 {
    random
        .wrapping_mul(6364136223846793005)
        .wrapping_add(1442695040888963407)
}

/// Makes so many calls on both, with pages of so many numbers. Answers the random number of the last.
fn walk<C: Clock>(
    rt: &impl Abort,
    clock: &mut C,
    walked: &mut Walked,
    entries: &mut Vec<Entry>,
    keys: u32,
    calls: u32,
    seed: u64,
) -> u64 {
    let mut random = seed;
    for _ in 0..calls {
        random = next_random(random);
        let key = Key {
            process: ((random >> 24) % 3) as u32,
            vpn: ((random >> 32) % 16_384) as u32 % keys.max(1),
        };
        let alike = step(rt, clock, walked, random >> 16, key) && same(rt, clock, walked, entries);
        assert!(rt; alike, "{keys} pages, at {random}");
    }
    random
}

/// The pages of the last, largest walk are too many for the ring's table of slots.
const WALKS: [(usize, u32, u32); 6] = [
    (4, 3, 20_000),
    (5, 6, 20_000),
    (6, 12, 20_000),
    (16, 40, 5_000),
    (64, 100, 2_000),
    (512, 16_384, 2_000),
];

fn does_what_the_loops_do<C: Clock>(rt: &impl Abort, alloc: Global) {
    let mut random = 88172645463325252u64;
    let mut entries = Vec::new(alloc);
    for (frames, keys, calls) in WALKS {
        let mut clock = C::new(alloc, frames).expect(rt, "no list");
        let mut walked = Walked::new(alloc, frames);
        random = walk(
            rt,
            &mut clock,
            &mut walked,
            &mut entries,
            keys,
            calls,
            random,
        );
    }
}

#[test]
fn the_vector_does_what_the_loops_do(rt: HostRuntime) {
    does_what_the_loops_do::<ClockList>(&rt, rt.alloc());
}

#[test]
fn the_ring_does_what_the_loops_do(rt: HostRuntime) {
    does_what_the_loops_do::<ClockRing>(&rt, rt.alloc());
}
