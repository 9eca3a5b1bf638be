//! The string on which more frames make FIFO miss more, and its counts at three frames and at four, which textbooks give.

use clock_policy::Key;
use clock_ring::ClockRing;
use page_policies::{
    Fifo, Frames, Lru, Policy, RandomPolicy, SecondChance, misses, more_frames_never_miss_more,
    no_policy_misses_less, optimum_is_a_play,
};
use std::alloc::Global;
use std::process::Abort;
use textbook_policies::{Car, GClock, Lfu, LruK, Mru, textbook_policies_are_plays};
use whole_strings::{lru_curve, next_uses, optimum_counts};
use younger_policies::{
    Arc, ClockPro, ClockProUsed, Lirs, S3Fifo, Sieve, TwoQueues, clock_pro_is_a_play,
    younger_policies_are_plays,
};

fn page(vpn: u32) -> Key {
    Key { process: 0, vpn }
}

fn string() -> [Key; 12] {
    [
        page(1),
        page(2),
        page(3),
        page(4),
        page(1),
        page(2),
        page(5),
        page(1),
        page(2),
        page(3),
        page(4),
        page(5),
    ]
}

fn frames(rt: &impl Abort, number: usize) -> Frames {
    Frames::new(number).expect(rt, "no frames")
}

/// What a policy misses of the string.
fn misses_with<P: Policy>(rt: &impl Abort, alloc: Global, number: usize) -> usize {
    misses::<P>(alloc, frames(rt, number), &string()).expect(rt, "no count")
}

#[test]
fn policies_miss_as_in_textbooks(rt: HostRuntime) {
    assert!(rt; misses_with::<Fifo>(&rt, rt.alloc(), 3) == 9);
    assert!(rt; misses_with::<Fifo>(&rt, rt.alloc(), 4) == 10);
    assert!(rt; misses_with::<Lru>(&rt, rt.alloc(), 4) == 8);
}

/// In one pass for both, and one for a number that is large beside them.
#[test]
fn optimum_misses_as_in_textbooks(rt: HostRuntime) {
    let numbers = [frames(&rt, 3), frames(&rt, 1000), frames(&rt, 4)];
    let counts = optimum_counts(rt.alloc(), &string(), &numbers).expect(&rt, "no counts");
    assert!(rt; counts.as_slice() == [7, 5, 6].as_slice());
}

/// What a policy misses of the string with three frames and with four.
fn with_three_and_four<P: Policy>(rt: &impl Abort, alloc: Global) -> (usize, usize) {
    (
        misses_with::<P>(rt, alloc, 3),
        misses_with::<P>(rt, alloc, 4),
    )
}

/// The counts of `tests/policies-model`.
#[test]
fn younger_policies_miss_as_in_the_model(rt: HostRuntime) {
    let alloc = rt.alloc();
    assert!(rt; with_three_and_four::<SecondChance>(&rt, alloc) == (9, 10));
    assert!(rt; with_three_and_four::<TwoQueues>(&rt, alloc) == (10, 9));
    assert!(rt; with_three_and_four::<Lirs>(&rt, alloc) == (8, 7));
    assert!(rt; with_three_and_four::<Arc>(&rt, alloc) == (10, 7));
    assert!(rt; with_three_and_four::<Sieve>(&rt, alloc) == (10, 8));
    assert!(rt; with_three_and_four::<S3Fifo>(&rt, alloc) == (10, 10));
    assert!(rt; with_three_and_four::<RandomPolicy>(&rt, alloc) == (10, 6));
}

/// The counts of `tests/policies-model`; those of MRU and LFU are also those of `scripts/by-hand`.
#[test]
fn textbook_policies_miss_as_in_the_model(rt: HostRuntime) {
    let alloc = rt.alloc();
    assert!(rt; with_three_and_four::<Mru>(&rt, alloc) == (7, 6));
    assert!(rt; with_three_and_four::<Lfu>(&rt, alloc) == (10, 8));
    assert!(rt; with_three_and_four::<LruK>(&rt, alloc) == (10, 8));
    assert!(rt; with_three_and_four::<GClock>(&rt, alloc) == (9, 7));
    assert!(rt; with_three_and_four::<Car>(&rt, alloc) == (10, 8));
}

/// A page comes in with its mark clear, or set.
#[test]
fn both_profiles_of_clock_pro_play(rt: HostRuntime) {
    assert!(rt; misses_with::<ClockPro<ClockRing>>(&rt, rt.alloc(), 4) == 8);
    assert!(rt; misses_with::<ClockProUsed<ClockRing>>(&rt, rt.alloc(), 4) == 8);
}

#[test]
fn lru_misses_less_with_more_frames(rt: HostRuntime) {
    let curve = lru_curve(rt.alloc(), &string()).expect(&rt, "no curve");
    assert!(rt; curve.as_slice() == [12, 12, 10, 8, 5].as_slice());
}

#[test]
fn next_uses_are_distances(rt: HostRuntime) {
    let uses = next_uses(rt.alloc(), &string()).expect(&rt, "no distances");
    assert!(rt; uses.as_slice() == [3, 3, 6, 6, 2, 2, 4, 4, 3, 2, 1, 0].as_slice());
}

#[test]
fn policies_have_no_other_numbers_of_frames(rt: HostRuntime) {
    assert!(rt; Frames::new(0).is_none());
    assert!(rt; Frames::new(16_777_217).is_none());
}

/// That the laws are there.
#[test]
fn laws_hold(_: HostRuntime) {
    more_frames_never_miss_more();
    no_policy_misses_less();
    optimum_is_a_play();
    younger_policies_are_plays();
    textbook_policies_are_plays();
    clock_pro_is_a_play();
}
