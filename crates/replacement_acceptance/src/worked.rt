//! Calls of the replacement list, as a vector and as a circle of links, which no script makes: what scripts show is in the sessions.

use clock_list::ClockList;
use clock_policy::{Bit, Clock, EntryKind, Key, NewRefusal, first_victim};
use clock_ring::ClockRing;
use std::alloc::Global;
use std::process::Abort;

fn key(vpn: u32) -> Key {
    Key { process: 0, vpn }
}

/// A list of 4 frames takes the pages 0/1 to 0/4, all of them used for ever.
fn takes_four<C: Clock>(rt: &impl Abort, clock: &mut C) {
    for vpn in 1..=4 {
        clock.admit(key(vpn)).expect(rt, "not admitted");
    }
    assert!(rt; clock.kind_of(key(2)) == Some(EntryKind::Test));
    assert!(rt; first_victim(clock, &[Bit::One; 20]) == Some(key(1)));
}

fn all_are_used<C: Clock>(rt: &impl Abort, alloc: Global) {
    let mut clock = C::new(alloc, 4).expect(rt, "no list");
    takes_four(rt, &mut clock);
}

#[test]
fn a_first_victim_is_found_on_both(rt: HostRuntime) {
    all_are_used::<ClockList>(&rt, rt.alloc());
    all_are_used::<ClockRing>(&rt, rt.alloc());
}

#[test]
fn sizes_refused_by_both(rt: HostRuntime) {
    for frames in [0, 3, 4097] {
        assert!(rt; matches!(ClockList::new(rt.alloc(), frames), Err(NewRefusal::BadSize)));
        assert!(rt; matches!(ClockRing::new(rt.alloc(), frames), Err(NewRefusal::BadSize)));
    }
}
