//! Pages that are cleaned while they are used: what each event replies, and what a store, a device and the end of a process do to it.

ghost use Rattle.std.specs.Prelude.{◌≡◌};

use crate::machine::{CODE, DATA, NOTICE, STEP, asked, begun, byte_at, expect, only};
use clock_ring::ClockRing;
use flat_machine::KillCause;
use machine_core::{Core, Event, EventRefusal, Reply};
use page_store::PageState;
use std::alloc::Global;
use std::marker::Brand;
use std::process::Abort;
use std::sync::ledger::{Blank, Ledger};
use swap_slots::{FuseSlot, MemorySlot, SwapSlot};
use test_slots::BlinkSlot;

/// Stores a byte into each place of its word of data, in page 0x11, from the fourth instruction on, and then loops.
const STORES_BYTES: &str = "        la   s0, buf
        li   t0, 5
        sb   t0, 0(s0)
        sb   t0, 1(s0)
        sb   t0, 2(s0)
        sb   t0, 3(s0)
e:      j    e

        .data
buf:    .word 0
";

/// What the machine shows of the page of data: its state, and its first byte.
#[derive(Clone, Copy)]
struct Shown {
    state: Option<PageState>,
    first_byte: Option<u8>,
}

/// What a machine with these slots shows in the end. Its process has stored its first byte; then the
/// machine gives each event its expected reply.
fn shown_after<S: SwapSlot>(
    rt: &impl Abort,
    alloc: Global,
    slots: Vec<S>,
    events: &[(Event, Reply)],
) -> Shown {
    shown_in::<Brand, S>(rt, alloc, slots, Blank::new(5), events)
}

fn shown_in<L: Ledger, S: SwapSlot>(
    rt: &impl Abort,
    alloc: Global,
    slots: Vec<S>,
    blank: Blank,
    events: &[(Event, Reply)],
) -> Shown
    requires name { blank.name ≡ L.name }
    requires parts { blank.parts ≡ L.parts }
    requires one_each { L.parts ≡ 5 }
{
    let mut core: Core<L, S, ClockRing> = begun(rt, alloc, STORES_BYTES, slots, blank);
    shown_by(rt, &mut core, events)
}

fn shown_by<L: Ledger, S: SwapSlot>(
    rt: &impl Abort,
    core: &mut Core<L, S, ClockRing>,
    events: &[(Event, Reply)],
) -> Shown {
    expect(rt, core, events);
    Shown {
        state: core.state(0, DATA.vpn),
        first_byte: byte_at(core, 0x1_1000),
    }
}

/// A clean page needs no save when it leaves, and comes back as it was.
#[test]
fn a_clean_page_leaves_with_no_save(rt: HostRuntime) {
    let alloc = rt.alloc();
    let slots = only(&rt, alloc, MemorySlot::new(alloc));
    let events = [
        (Event::Clean(DATA), Reply::Cleaning),
        (Event::Copy(DATA), Reply::NotYet),
        (NOTICE, Reply::Noticed),
        (Event::Copy(DATA), Reply::Copied),
        (Event::Cleaned(DATA), Reply::Cleaned),
        (Event::Clean(DATA), Reply::Refused(EventRefusal::NotChanged)),
        (Event::Clean(CODE), Reply::Refused(EventRefusal::NotChanged)),
        (Event::Copy(DATA), Reply::Refused(EventRefusal::NotCleaning)),
        (
            Event::Cleaned(DATA),
            Reply::Refused(EventRefusal::NotCopied),
        ),
        (Event::Sweep, asked(CODE, true)),
        (Event::Sweep, asked(DATA, true)),
        (Event::Sweep, asked(CODE, false)),
        (Event::Sweep, Reply::Victim(CODE)),
        (Event::Sweep, asked(DATA, false)),
        (Event::Sweep, Reply::Victim(DATA)),
        (Event::Collect(DATA), Reply::Freed),
        (
            Event::Clean(DATA),
            Reply::Refused(EventRefusal::NotResident),
        ),
        (Event::PageIn(DATA), Reply::Mapped),
    ];
    let shown = shown_after(&rt, alloc, slots, &events);
    assert!(rt; shown.first_byte == Some(5));
}

/// With no slot a cleaning ends with no copy, and can begin anew.
#[test]
fn a_page_is_not_copied_with_no_slot(rt: HostRuntime) {
    let alloc = rt.alloc();
    let events = [
        (Event::Clean(DATA), Reply::Cleaning),
        (NOTICE, Reply::Noticed),
        (Event::Copy(DATA), Reply::NoSlot),
        (Event::Copy(DATA), Reply::Refused(EventRefusal::NotCleaning)),
        (
            Event::Cleaned(DATA),
            Reply::Refused(EventRefusal::NotCopied),
        ),
        (Event::Clean(DATA), Reply::Cleaning),
    ];
    let shown = shown_after::<MemorySlot>(&rt, alloc, Vec::new(alloc), &events);
    assert!(rt; shown.state == Some(PageState::Resident));
    assert!(rt; shown.first_byte == Some(5));
}

/// Stores go on while a page is cleaned: one by what a cache still holds, and one after the copy, which then is of no use.
#[test]
fn a_page_is_stored_to_while_it_is_cleaned(rt: HostRuntime) {
    let alloc = rt.alloc();
    let slots = only(&rt, alloc, MemorySlot::new(alloc));
    let events = [
        (Event::Clean(DATA), Reply::Cleaning),
        (
            Event::Clean(DATA),
            Reply::Refused(EventRefusal::AlreadyCleaning),
        ),
        (STEP, Reply::Ran),
        (Event::Copy(DATA), Reply::NotYet),
        (NOTICE, Reply::Noticed),
        (Event::Copy(DATA), Reply::Copied),
        (
            Event::Clean(DATA),
            Reply::Refused(EventRefusal::AlreadyCleaning),
        ),
        (STEP, Reply::Ran),
        (Event::Cleaned(DATA), Reply::Stored),
        (Event::Clean(DATA), Reply::Cleaning),
        (NOTICE, Reply::Noticed),
        (STEP, Reply::Ran),
        (Event::Copy(DATA), Reply::Stored),
        (Event::Clean(DATA), Reply::Cleaning),
    ];
    shown_after(&rt, alloc, slots, &events);
}

/// The page stays as it is where its copy is not written.
#[test]
fn a_page_whose_copy_fails_stays_changed(rt: HostRuntime) {
    let alloc = rt.alloc();
    let slots = only(&rt, alloc, FuseSlot::new(alloc, 0));
    let events = [
        (Event::Clean(DATA), Reply::Cleaning),
        (NOTICE, Reply::Noticed),
        (Event::Copy(DATA), Reply::Copied),
        (Event::Cleaned(DATA), Reply::Device),
        (Event::Copy(DATA), Reply::Refused(EventRefusal::NotCleaning)),
        (
            Event::Cleaned(DATA),
            Reply::Refused(EventRefusal::NotCopied),
        ),
        (Event::Clean(DATA), Reply::Cleaning),
    ];
    let shown = shown_after(&rt, alloc, slots, &events);
    assert!(rt; shown.state == Some(PageState::Resident));
    assert!(rt; shown.first_byte == Some(5));
}

/// It is cleaned at the second try, and its process is not given back while a copy is out.
#[test]
fn a_page_is_cleaned_at_the_second_try(rt: HostRuntime) {
    let alloc = rt.alloc();
    let slots = only(&rt, alloc, BlinkSlot::new(alloc, 1));
    let kill = Event::Kill {
        process: 0,
        cause: KillCause::Limit,
    };
    let purge = Event::Purge { process: 0 };
    let events = [
        (Event::Clean(DATA), Reply::Cleaning),
        (NOTICE, Reply::Noticed),
        (Event::Copy(DATA), Reply::Copied),
        (Event::Cleaned(DATA), Reply::Device),
        (Event::Clean(DATA), Reply::Cleaning),
        (Event::Copy(DATA), Reply::Copied),
        (kill, Reply::Killed),
        (purge, Reply::Refused(EventRefusal::SavingStill)),
        (Event::Clean(DATA), Reply::Refused(EventRefusal::Ended)),
        (Event::Copy(DATA), Reply::Refused(EventRefusal::Ended)),
        (Event::Cleaned(DATA), Reply::Cleaned),
        (purge, Reply::Purged),
    ];
    shown_after(&rt, alloc, slots, &events);
}
