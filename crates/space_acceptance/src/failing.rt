//! A page whose slot fails once, or lies once.

use crate::bench::{Answer, Call, answers, only};
use page_store::PageState;
use paged_memory::PageInFault;
use space_core::{Slice, SliceStop};
use test_guests::STORES_A_BYTE;
use test_slots::{BlinkSlot, FlipSlot};

const IS_AWAY: (Call, Answer) = (Call::State(0x11), Answer::State(Some(PageState::Away)));

const SHOWS_THE_BYTE: (Call, Answer) = (Call::Peek(0x1_1003), Answer::Byte(Ok(Some(5))));

/// Its page of data is changed, and held by no cache.
const CHANGES: [(Call, Answer); 5] = [
    (Call::PageIn(0x10), Answer::Done),
    (Call::PageIn(0x11), Answer::Done),
    (
        Call::Slice { hart: 0, budget: 4 },
        Answer::Ran(Slice {
            ran: 4,
            stop: SliceStop::Budget,
        }),
    ),
    (Call::BeginEvict(0x11), Answer::Done),
    (Call::TakeNotices(0), Answer::Done),
];

/// Its page of data is brought in, and it runs to its end.
const ENDS: [(Call, Answer); 3] = [
    (Call::PageIn(0x11), Answer::Done),
    SHOWS_THE_BYTE,
    (
        Call::Slice {
            hart: 0,
            budget: 10,
        },
        Answer::Ran(Slice {
            ran: 3,
            stop: SliceStop::Ended,
        }),
    ),
];

/// The page is saved once its slot has failed to do so.
#[test]
fn a_page_is_saved_at_the_second_try(rt: HostRuntime) {
    let alloc = rt.alloc();
    let slots = only(&rt, alloc, BlinkSlot::new(alloc, 1));
    let calls = [
        (Call::Collect(0x11), Answer::Dirty),
        (Call::Save, Answer::Refused),
        (Call::State(0x11), Answer::State(Some(PageState::Leaving))),
        SHOWS_THE_BYTE,
        (Call::BringBack(0x11), Answer::Done),
        (Call::BeginEvict(0x11), Answer::Done),
        (Call::Collect(0x11), Answer::Dirty),
        (Call::Save, Answer::Done),
        IS_AWAY,
    ];
    answers(&rt, alloc, STORES_A_BYTE, slots, &[&CHANGES, &calls, &ENDS])
}

/// It is loaded once its slot has failed to do so.
#[test]
fn a_page_is_loaded_at_the_second_try(rt: HostRuntime) {
    let alloc = rt.alloc();
    let slots = only(&rt, alloc, BlinkSlot::new(alloc, 2));
    let calls = [
        (Call::Collect(0x11), Answer::Dirty),
        (Call::Save, Answer::Done),
        (Call::PageIn(0x11), Answer::StaysOut(PageInFault::Device)),
        IS_AWAY,
    ];
    answers(&rt, alloc, STORES_A_BYTE, slots, &[&CHANGES, &calls, &ENDS])
}

/// It does not come in damaged, and comes in whole once its slot gives back what it was given.
#[test]
fn a_damaged_page_stays_out(rt: HostRuntime) {
    let alloc = rt.alloc();
    let slots = only(&rt, alloc, FlipSlot::new(alloc, 1));
    let calls = [
        (Call::Collect(0x11), Answer::Dirty),
        (Call::Save, Answer::Done),
        (Call::PageIn(0x11), Answer::StaysOut(PageInFault::Damaged)),
        IS_AWAY,
    ];
    answers(&rt, alloc, STORES_A_BYTE, slots, &[&CHANGES, &calls, &ENDS])
}

/// A look takes what its slot gives.
#[test]
fn a_look_takes_what_the_slot_gives(rt: HostRuntime) {
    let alloc = rt.alloc();
    let slots = only(&rt, alloc, FlipSlot::new(alloc, 1));
    let calls = [
        (Call::Collect(0x11), Answer::Dirty),
        (Call::Save, Answer::Done),
        (Call::Peek(0x1_1000), Answer::Byte(Ok(Some(1)))),
        (Call::Peek(0x1_1000), Answer::Byte(Ok(Some(0)))),
    ];
    answers(&rt, alloc, STORES_A_BYTE, slots, &[&CHANGES, &calls, &ENDS])
}
