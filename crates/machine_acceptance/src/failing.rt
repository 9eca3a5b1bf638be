//! A page whose save fails stays, in the list too, and one that is not loaded, or damaged, is in no list.

ghost use Rattle.std.specs.Prelude.{◌≡◌};

use crate::machine::{CODE, DATA, NOTICE, STEP, asked, begun, byte_at, expect, only};
use clock_policy::EntryKind;
use clock_ring::ClockRing;
use machine_core::{Core, Event, EventRefusal, Reply};
use page_store::PageState;
use std::alloc::{AllocError, Global};
use std::marker::Brand;
use std::process::Abort;
use std::sync::ledger::{Blank, Ledger};
use swap_slots::{FuseSlot, SwapSlot};
use test_guests::STORES_A_BYTE;
use test_slots::{BlinkSlot, FlipSlot};

/// A machine of four frames, with this slot, whose process has stored its byte. Both pages are swept out, and the page of data is to
/// be saved.
fn swept<L: Ledger, S: SwapSlot>(
    rt: &impl Abort,
    alloc: Global,
    slot: Result<S, AllocError>,
    blank: Blank,
) -> Core<L, S, ClockRing>
    requires name { blank.name ≡ L.name }
    requires parts { blank.parts ≡ L.parts }
    requires one_each { L.parts ≡ 5 }
{
    let slots = only(rt, alloc, slot);
    let mut core: Core<L, S, ClockRing> = begun(rt, alloc, STORES_A_BYTE, slots, blank);
    let events = [
        (Event::Sweep, asked(CODE, true)),
        (Event::Sweep, asked(DATA, true)),
        (Event::Sweep, asked(CODE, false)),
        (Event::Sweep, Reply::Victim(CODE)),
        (NOTICE, Reply::Noticed),
        (Event::Collect(CODE), Reply::Freed),
        (Event::Sweep, asked(DATA, false)),
        (Event::Sweep, Reply::Victim(DATA)),
        (Event::Collect(DATA), Reply::Dirty),
    ];
    expect(rt, &mut core, &events);
    core
}

/// How the page of data is listed, if it is.
fn kind_of_data<L: Ledger, S: SwapSlot>(core: &Core<L, S, ClockRing>) -> Option<EntryKind> {
    for place in 0..4 {
        if let Some((key, kind)) = core.entry(place) {
            if key == DATA {
                return Some(kind);
            }
        }
    }
    None
}

/// The byte that was stored, as the machine shows it.
fn stored<L: Ledger, S: SwapSlot>(core: &mut Core<L, S, ClockRing>) -> Option<u8> {
    byte_at(core, 0x1_1003)
}

/// The pages are brought in, and the process runs to its end.
fn runs_on<L: Ledger, S: SwapSlot>(rt: &impl Abort, core: &mut Core<L, S, ClockRing>) {
    let events = [
        (Event::PageIn(CODE), Reply::Mapped),
        (Event::PageIn(DATA), Reply::Mapped),
        (STEP, Reply::Ran),
        (STEP, Reply::Ran),
        (STEP, Reply::Ended),
    ];
    expect(rt, core, &events);
    assert!(rt; stored(core) == Some(5));
}

/// The page stays in its frame and in the list.
fn stays<L: Ledger>(rt: &impl Abort, core: &mut Core<L, FuseSlot, ClockRing>) {
    assert!(rt; core.apply(Event::Saved(DATA)) == Reply::Device);
    assert!(rt; core.state(0, DATA.vpn) == Some(PageState::Resident));
    assert!(rt; kind_of_data(core) == Some(EntryKind::Test));
    assert!(rt; stored(core) == Some(5));
    let answered = core.apply(Event::Sweep) != Reply::Refused(EventRefusal::NothingResident);
    assert!(rt; answered);
}

fn stays_where_its_save_fails<L: Ledger>(rt: &impl Abort, alloc: Global, blank: Blank)
    requires name { blank.name ≡ L.name }
    requires parts { blank.parts ≡ L.parts }
    requires one_each { L.parts ≡ 5 }
{
    let mut core: Core<L, FuseSlot, ClockRing> = swept(rt, alloc, FuseSlot::new(alloc, 0), blank);
    stays(rt, &mut core);
}

/// The page is swept out again, and its slot takes it.
fn goes_at_last<L: Ledger>(rt: &impl Abort, core: &mut Core<L, BlinkSlot, ClockRing>) {
    let events = [
        (Event::Saved(DATA), Reply::Device),
        (Event::Sweep, Reply::Victim(DATA)),
        (Event::Collect(DATA), Reply::Dirty),
        (Event::Saved(DATA), Reply::Freed),
    ];
    expect(rt, core, &events);
    assert!(rt; core.state(0, DATA.vpn) == Some(PageState::Away));
    runs_on(rt, core);
}

fn is_saved_again<L: Ledger>(rt: &impl Abort, alloc: Global, blank: Blank)
    requires name { blank.name ≡ L.name }
    requires parts { blank.parts ≡ L.parts }
    requires one_each { L.parts ≡ 5 }
{
    let mut core: Core<L, BlinkSlot, ClockRing> = swept(rt, alloc, BlinkSlot::new(alloc, 1), blank);
    goes_at_last(rt, &mut core);
}

/// The page is in no list once it was not loaded, and comes in at the next try.
fn comes_at_last<L: Ledger, S: SwapSlot>(
    rt: &impl Abort,
    core: &mut Core<L, S, ClockRing>,
    reply: Reply,
) {
    assert!(rt; core.apply(Event::Saved(DATA)) == Reply::Freed);
    assert!(rt; core.apply(Event::PageIn(DATA)) == reply);
    assert!(rt; core.state(0, DATA.vpn) == Some(PageState::Away));
    assert!(rt; kind_of_data(core) == None);
    runs_on(rt, core);
}

fn is_loaded_again<L: Ledger, S: SwapSlot>(
    rt: &impl Abort,
    alloc: Global,
    slot: Result<S, AllocError>,
    reply: Reply,
    blank: Blank,
)
    requires name { blank.name ≡ L.name }
    requires parts { blank.parts ≡ L.parts }
    requires one_each { L.parts ≡ 5 }
{
    let mut core: Core<L, S, ClockRing> = swept(rt, alloc, slot, blank);
    comes_at_last(rt, &mut core, reply);
}

#[test]
fn a_page_whose_save_fails_stays_listed(rt: HostRuntime) {
    stays_where_its_save_fails::<Brand>(&rt, rt.alloc(), Blank::new(5));
}

#[test]
fn a_page_is_saved_at_the_second_try(rt: HostRuntime) {
    is_saved_again::<Brand>(&rt, rt.alloc(), Blank::new(5));
}

#[test]
fn a_page_that_is_not_loaded_is_not_listed(rt: HostRuntime) {
    let slot = BlinkSlot::new(rt.alloc(), 2);
    is_loaded_again::<Brand, BlinkSlot>(&rt, rt.alloc(), slot, Reply::Device, Blank::new(5));
}

#[test]
fn a_damaged_page_is_not_listed(rt: HostRuntime) {
    let slot = FlipSlot::new(rt.alloc(), 1);
    is_loaded_again::<Brand, FlipSlot>(&rt, rt.alloc(), slot, Reply::Damaged, Blank::new(5));
}
