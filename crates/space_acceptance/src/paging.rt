//! A process whose pages are brought in, evicted, saved and brought back.

use crate::bench::{Answer, Call, answers, only};
use page_store::PageState;
use paged_memory::PeekFault;
use space_core::{Slice, SliceStop};
use swap_slots::{FuseSlot, MemorySlot};
use test_guests::STORES_A_BYTE;

/// Starts hart 1, which stores 5 and then 7 in the page of data, 0x11, and loads the word.
const STORES_TWICE: &str = "        la   a0, child
        li   a1, 0
        li   a2, 0
        li   a7, 1024
        ecall
wait:   j    wait
child:  la   s0, buf
        li   t0, 5
        li   t1, 7
        sw   t0, 0(s0)
        sw   t1, 0(s0)
        lw   t2, 0(s0)
end:    j    end

        .data
buf:    .word 0
";

pub(crate) const fn slice(hart: u32, budget: u32) -> Call {
    Call::Slice { hart, budget }
}

pub(crate) const fn ran(ran: u32, stop: SliceStop) -> Answer {
    Answer::Ran(Slice { ran, stop })
}

const GIVEN: Answer = Answer::Given {
    frame: true,
    slot: false,
};

#[test]
fn a_process_runs_over_two_pages(rt: HostRuntime) {
    let alloc = rt.alloc();
    let slots = only(&rt, alloc, MemorySlot::new(alloc));
    let calls = [
        (Call::State(0x10), Answer::State(Some(PageState::Fresh))),
        (Call::State(0x12), Answer::State(None)),
        (slice(0, 10), ran(0, SliceStop::Absent(0x10))),
        (Call::PageIn(0x10), Answer::Done),
        (slice(0, 10), ran(3, SliceStop::Absent(0x11))),
        (Call::PageIn(0x11), Answer::Done),
        (slice(0, 10), ran(4, SliceStop::Ended)),
        (Call::Schedule, Answer::Turns(1, 7)),
        (Call::Peek(0x1_1003), Answer::Byte(Ok(Some(5)))),
        (Call::TakeOne, GIVEN),
        (Call::TakeOne, GIVEN),
        (Call::TakeOne, Answer::Nothing),
        (Call::Peek(0x1_1003), Answer::Byte(Err(PeekFault::Purged))),
        (
            Call::Peek(0x1_2000),
            Answer::Byte(Err(PeekFault::NotMapped)),
        ),
    ];
    answers(&rt, alloc, STORES_A_BYTE, slots, &[&calls])
}

/// A page leaves while a hart's cache holds it: until its notices are taken, the hart stores by its cache.
#[test]
fn a_hart_stores_while_its_page_leaves(rt: HostRuntime) {
    let alloc = rt.alloc();
    let slots = only(&rt, alloc, MemorySlot::new(alloc));
    let calls = [
        (Call::PageIn(0x10), Answer::Done),
        (Call::PageIn(0x11), Answer::Done),
        (slice(0, 10), ran(10, SliceStop::Budget)),
        (slice(1, 4), ran(4, SliceStop::Budget)),
        (slice(1, 1), ran(1, SliceStop::Budget)),
        (Call::BeginEvict(0x11), Answer::Done),
        (slice(1, 1), ran(1, SliceStop::Budget)),
        (Call::Peek(0x1_1000), Answer::Byte(Ok(Some(7)))),
        (Call::Collect(0x11), Answer::NotYet),
        (Call::TakeNotices(1), Answer::Done),
        (Call::Collect(0x11), Answer::Dirty),
        (Call::Save, Answer::Done),
        (slice(1, 1), ran(0, SliceStop::Absent(0x11))),
        (Call::PageIn(0x11), Answer::Done),
        (slice(1, 1), ran(1, SliceStop::Budget)),
        (
            Call::Register {
                hart: 1,
                register: 7,
            },
            Answer::Word(Some(7)),
        ),
    ];
    answers(&rt, alloc, STORES_TWICE, slots, &[&calls])
}

/// Loads and reserves the word in its page of data, 0x11, and stores 7 in its place.
const RESERVES: &str = "        la   s0, buf
        lr.w t0, (s0)
        li   t1, 7
        sc.w t2, t1, (s0)
end:    j    end

        .data
buf:    .word 5
";

/// A page is evicted and comes back between LR.W and SC.W, which stores all the same.
#[test]
fn a_reservation_outlasts_an_eviction(rt: HostRuntime) {
    let alloc = rt.alloc();
    let slots = only(&rt, alloc, MemorySlot::new(alloc));
    let calls = [
        (Call::PageIn(0x10), Answer::Done),
        (Call::PageIn(0x11), Answer::Done),
        (slice(0, 3), ran(3, SliceStop::Budget)),
        (Call::BeginEvict(0x11), Answer::Done),
        (Call::TakeNotices(0), Answer::Done),
        (Call::Collect(0x11), Answer::Clean),
        (slice(0, 2), ran(1, SliceStop::Absent(0x11))),
        (Call::PageIn(0x11), Answer::Done),
        (slice(0, 1), ran(1, SliceStop::Budget)),
        (
            Call::Register {
                hart: 0,
                register: 7,
            },
            Answer::Word(Some(0)),
        ),
        (Call::Peek(0x1_1000), Answer::Byte(Ok(Some(7)))),
    ];
    answers(&rt, alloc, RESERVES, slots, &[&calls])
}

/// An unchanged page needs no slot, however often it comes and goes, and shows the image's bytes.
#[test]
fn an_unchanged_page_is_dropped(rt: HostRuntime) {
    let alloc = rt.alloc();
    let slots = only(&rt, alloc, MemorySlot::new(alloc));
    let calls = [
        (Call::PageIn(0x10), Answer::Done),
        (slice(0, 1), ran(1, SliceStop::Budget)),
        (Call::BeginEvict(0x10), Answer::Done),
        (Call::TakeNotices(0), Answer::Done),
        (Call::Collect(0x10), Answer::Clean),
        (Call::State(0x10), Answer::State(Some(PageState::Fresh))),

        // lui s0, 0x11
        (Call::Peek(0x1_0000), Answer::Byte(Ok(Some(0x37)))),
        (Call::Peek(0x1_0001), Answer::Byte(Ok(Some(0x14)))),
    ];
    answers(&rt, alloc, STORES_A_BYTE, slots, &[&calls, &calls])
}

/// A page whose device fails to save it stays in its frame.
#[test]
fn a_page_that_is_not_saved_stays(rt: HostRuntime) {
    let alloc = rt.alloc();
    let slots = only(&rt, alloc, FuseSlot::new(alloc, 0));
    let calls = [
        (Call::PageIn(0x10), Answer::Done),
        (Call::PageIn(0x11), Answer::Done),
        (slice(0, 4), ran(4, SliceStop::Budget)),
        (Call::BeginEvict(0x11), Answer::Done),
        (Call::TakeNotices(0), Answer::Done),
        (Call::Collect(0x11), Answer::Dirty),
        (Call::Save, Answer::Refused),
        (Call::State(0x11), Answer::State(Some(PageState::Leaving))),
        (Call::BringBack(0x11), Answer::Done),
        (Call::State(0x11), Answer::State(Some(PageState::Resident))),
        (Call::Peek(0x1_1003), Answer::Byte(Ok(Some(5)))),
    ];
    answers(&rt, alloc, STORES_A_BYTE, slots, &[&calls])
}
