//! A page is written to its slot while it stays mapped.

use crate::bench::{Answer, Call, answers, only};
use crate::paging::{ran, slice};
use page_store::{CleanRefusal, PageState};
use space_core::{Slice, SliceStop};
use swap_slots::{FuseSlot, MemorySlot};
use test_guests::STORES_A_BYTE;

/// Stores a byte with each of three instructions, the first of which is the fourth.
const STORES_THREE: &str = "        la   s0, buf
        li   t0, 5
        sb   t0, 0(s0)
        sb   t0, 1(s0)
        sb   t0, 2(s0)
        j    e
e:      j    e

        .data
buf:    .word 0
";

/// Its page of data is stored to, and its cleaning begins.
const BEGINS: [(Call, Answer); 4] = [
    (Call::PageIn(0x10), Answer::Done),
    (Call::PageIn(0x11), Answer::Done),
    (
        Call::Slice { hart: 0, budget: 4 },
        Answer::Ran(Slice {
            ran: 4,
            stop: SliceStop::Budget,
        }),
    ),
    (Call::BeginClean(0x11), Answer::Done),
];

/// A copy of the page goes out after the notice.
const COPIES: [(Call, Answer); 4] = [
    (Call::CopyClean(0x11), Answer::NotYet),
    (Call::TakeNotices(0), Answer::Done),
    (Call::CopyClean(0x11), Answer::Copied),
    (Call::CopyClean(0x11), Answer::NotCleaning),
];

/// A page that was cleaned is dropped, with no save.
#[test]
fn a_page_that_was_cleaned_is_dropped(rt: HostRuntime) {
    let alloc = rt.alloc();
    let slots = only(&rt, alloc, MemorySlot::new(alloc));
    let calls = [
        (Call::NextChanged(0), Answer::Word(Some(0x11))),
        (Call::EndClean, Answer::Cleaned),
        (Call::NextChanged(0), Answer::Word(None)),
        (
            Call::BeginClean(0x11),
            Answer::DoesNotClean(CleanRefusal::NotChanged),
        ),
        (
            Call::BeginClean(0x12),
            Answer::DoesNotClean(CleanRefusal::NotResident),
        ),
        (Call::CopyClean(0x11), Answer::NotCleaning),
        (Call::BeginEvict(0x11), Answer::Done),
        (Call::Collect(0x11), Answer::Clean),
        (Call::State(0x11), Answer::State(Some(PageState::Away))),
        (Call::PageIn(0x11), Answer::Done),
        (Call::Peek(0x1_1003), Answer::Byte(Ok(Some(5)))),
    ];
    answers(
        &rt,
        alloc,
        STORES_A_BYTE,
        slots,
        &[&BEGINS, &COPIES, &calls],
    );
}

/// With no slot the cleaning ends, and the page counts as changed, though its dirty bit is clear.
#[test]
fn a_page_is_not_cleaned_without_a_slot(rt: HostRuntime) {
    let alloc = rt.alloc();
    let calls = [
        (Call::CopyClean(0x11), Answer::NotYet),
        (
            Call::BeginClean(0x11),
            Answer::DoesNotClean(CleanRefusal::AlreadyCleaning),
        ),
        (Call::TakeNotices(0), Answer::Done),
        (Call::CopyClean(0x11), Answer::NoSlot),
        (Call::Dirty(0x11), Answer::Bit(Some(false))),
        (Call::NextChanged(0x11), Answer::Word(Some(0x11))),
        (Call::BeginEvict(0x11), Answer::Done),
        (Call::Collect(0x11), Answer::Refused),
        (Call::BringBack(0x11), Answer::Done),
        (Call::Dirty(0x11), Answer::Bit(Some(false))),
        (Call::BeginClean(0x11), Answer::Done),
    ];
    answers::<MemorySlot>(
        &rt,
        alloc,
        STORES_A_BYTE,
        Vec::new(alloc),
        &[&BEGINS, &calls],
    );
}

/// A store through a translation that is to be dropped delays the copy. A store after the copy invalidates it.
#[test]
fn a_store_spoils_a_copy(rt: HostRuntime) {
    let alloc = rt.alloc();
    let slots = only(&rt, alloc, MemorySlot::new(alloc));
    let calls = [
        (slice(0, 1), ran(1, SliceStop::Budget)),
        (Call::CopyClean(0x11), Answer::NotYet),
        (Call::TakeNotices(0), Answer::Done),
        (Call::CopyClean(0x11), Answer::Copied),
        (slice(0, 1), ran(1, SliceStop::Budget)),
        (Call::EndClean, Answer::Stored),
        (Call::BeginClean(0x11), Answer::Done),
        (Call::Peek(0x1_1002), Answer::Byte(Ok(Some(5)))),
    ];
    answers(&rt, alloc, STORES_THREE, slots, &[&BEGINS, &calls])
}

/// A page leaves while its copy is out: it is let go once the copy is back.
#[test]
fn a_page_leaves_once_its_copy_is_back(rt: HostRuntime) {
    let alloc = rt.alloc();
    let slots = only(&rt, alloc, MemorySlot::new(alloc));
    let calls = [
        (Call::BeginEvict(0x11), Answer::Done),
        (Call::Collect(0x11), Answer::NotYet),
        (Call::EndClean, Answer::Cleaned),
        (Call::Collect(0x11), Answer::Clean),
        (Call::PageIn(0x11), Answer::Done),
        (Call::Peek(0x1_1003), Answer::Byte(Ok(Some(5)))),
    ];
    answers(
        &rt,
        alloc,
        STORES_A_BYTE,
        slots,
        &[&BEGINS, &COPIES, &calls],
    );
}

/// A device that fails leaves the page as it was, and changed; a failed save brings its dirty bit back as it was found, clear.
#[test]
fn a_device_fails_to_clean(rt: HostRuntime) {
    let alloc = rt.alloc();
    let slots = only(&rt, alloc, FuseSlot::new(alloc, 0));
    let calls = [
        (Call::EndClean, Answer::Device),
        (Call::Peek(0x1_1003), Answer::Byte(Ok(Some(5)))),
        (Call::Dirty(0x11), Answer::Bit(Some(false))),
        (Call::NextChanged(0), Answer::Word(Some(0x11))),
        (Call::BeginEvict(0x11), Answer::Done),
        (Call::Collect(0x11), Answer::Dirty),
        (Call::Save, Answer::Refused),
        (Call::BringBack(0x11), Answer::Done),
        (Call::Dirty(0x11), Answer::Bit(Some(false))),
        (Call::NextChanged(0), Answer::Word(Some(0x11))),
        (Call::Peek(0x1_1003), Answer::Byte(Ok(Some(5)))),
    ];
    answers(
        &rt,
        alloc,
        STORES_A_BYTE,
        slots,
        &[&BEGINS, &COPIES, &calls],
    );
}

/// The process ends while a copy is out: its page gives back what it has once the copy is back.
#[test]
fn a_copy_comes_back_to_a_process_that_ended(rt: HostRuntime) {
    let alloc = rt.alloc();
    let slots = only(&rt, alloc, MemorySlot::new(alloc));
    let calls = [
        (slice(0, 10), ran(3, SliceStop::Ended)),
        (
            Call::TakeOne,
            Answer::Given {
                frame: true,
                slot: false,
            },
        ),
        (Call::TakeOne, Answer::Nothing),
        (Call::EndClean, Answer::Cleaned),
        (
            Call::TakeOne,
            Answer::Given {
                frame: true,
                slot: true,
            },
        ),
        (Call::TakeOne, Answer::Nothing),
    ];
    answers(
        &rt,
        alloc,
        STORES_A_BYTE,
        slots,
        &[&BEGINS, &COPIES, &calls],
    );
}
