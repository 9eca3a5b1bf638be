//! Pages that are admitted and do not come in, hold by hold.

ghost use Rattle.std.specs.Prelude.{◌≡◌};

use crate::machine::{image_of, sound_slots};
use clock_policy::{Clock, Key};
use clock_ring::ClockRing;
use held_machine::Desk;
use machine_sides::{Looked, SaveOutcome, Swept};
use paged_memory::PageInFault;
use reclaim_daemon::{HoldOfAll, HoldOfBoth, HoldOfPager, OpenGate, PagedIn, Shared};
use std::alloc::Global;
use std::marker::Brand;
use std::process::Abort;
use std::sync::Wait;
use std::sync::ledger::{Blank, Ledger};
use swap_slots::{MemorySlot, SwapSlot};
use test_guests::STORES_A_BYTE;
use test_slots::FlipSlot;

const CODE: Key = Key {
    process: 0,
    vpn: 0x10,
};

const DATA: Key = Key {
    process: 0,
    vpn: 0x11,
};

/// A machine of four frames, with these slots and one process that runs no instruction by itself.
fn begun<L: Ledger, S: SwapSlot>(
    rt: &impl Abort,
    alloc: Global,
    slots: Vec<S>,
    blank: Blank,
) -> Shared<L, S, ClockRing>
    requires name { blank.name ≡ L.name }
    requires parts { blank.parts ≡ L.parts }
    requires one_each { L.parts ≡ 5 }
{
    let desk: Desk<L, ClockRing> = Desk::new(alloc, 4, blank).expect(rt, "no desk");
    let mut shared: Shared<L, S, ClockRing> = Shared::new(alloc, desk, slots);
    let image = image_of(rt, alloc, STORES_A_BYTE);
    let _added = shared
        .add(alloc, image, Vec::new(alloc))
        .expect(rt, "no process");
    shared
}

/// While an admission is out, the list has a page that is not resident, and a frame is nowhere.
fn finds_what_is_out<L: Ledger, S: SwapSlot, C: Clock, R: Wait + Abort>(
    rt: &R,
    shared: &Shared<L, S, C>,
) {
    assert!(rt; shared.audit(rt));
    let hold = shared.admit(rt, DATA).expect(rt, "no process");
    let HoldOfPager { reply, .. } = hold;
    let Some(Ok(admission)) = reply else {
        panic!(rt; "not admitted");
    };
    assert!(rt; !shared.audit(rt));
    let undone = shared.undo(rt, admission).expect(rt, "no process");
    assert!(rt; undone.reply.is_ok());
    assert!(rt; shared.audit(rt));
}

fn finds_what_is_kept<L: Ledger, R: Wait + Abort>(rt: &R, alloc: Global, blank: Blank)
    requires name { blank.name ≡ L.name }
    requires parts { blank.parts ≡ L.parts }
    requires one_each { L.parts ≡ 5 }
{
    let slots = sound_slots(rt, alloc, 1);
    let shared: Shared<L, MemorySlot, ClockRing> = begun(rt, alloc, slots, blank);
    finds_what_is_out(rt, &shared);
}

/// A page is brought in.
fn comes_in<L: Ledger, S: SwapSlot, C: Clock, R: Wait>(
    rt: &R,
    shared: &Shared<L, S, C>,
    key: Key,
) -> bool {
    match shared.page_in(rt, &OpenGate, key) {
        Some(hold) => matches!(hold.reply, Some(PagedIn::Mapped)),
        None => false,
    }
}

/// The list is asked until it names a victim.
fn next_victim<L: Ledger, S: SwapSlot, C: Clock, R: Wait>(
    rt: &R,
    shared: &Shared<L, S, C>,
) -> Option<Key> {
    for _ in 0..20 {
        let Ok(hold) = shared.sweep(rt) else {
            return None;
        };
        match hold.reply? {
            Swept::Victim(key) => return Some(key),
            Swept::NothingResident => return None,
            Swept::Asked { .. } => {}
        }
    }
    None
}

/// A page is the next victim, and the one hart takes its notices.
fn is_swept<L: Ledger, S: SwapSlot, C: Clock, R: Wait + Abort>(
    rt: &R,
    shared: &Shared<L, S, C>,
    key: Key,
) {
    assert!(rt; next_victim(rt, shared) == Some(key));
    shared.locks().notice(rt, 0, 0);
}

/// Four instructions run, the last of which changes the page of data.
fn stores<L: Ledger, S: SwapSlot, C: Clock, R: Wait + Abort>(rt: &R, shared: &Shared<L, S, C>) {
    let slice = shared.locks().slice(rt, 0, 0, 4).expect(rt, "no process");
    assert!(rt; matches!(slice.reply, Some(ran) if ran.ran == 4));
}

/// The page of code, which is unchanged, leaves at once.
fn frees_code<L: Ledger, S: SwapSlot, C: Clock, R: Wait + Abort>(rt: &R, shared: &Shared<L, S, C>) {
    let code = shared.collect(rt, CODE).expect(rt, "no process");
    assert!(rt; matches!(code.reply, Some(Looked::Freed)));
}

/// The page of data is saved.
fn saves_data<L: Ledger, S: SwapSlot, C: Clock, R: Wait + Abort>(rt: &R, shared: &Shared<L, S, C>) {
    let data = shared.collect(rt, DATA).expect(rt, "no process");
    let HoldOfAll { reply, .. } = data;
    let Some(Looked::Dirty(job)) = reply else {
        panic!(rt; "not changed");
    };
    let saved = shared.saved(rt, job.run()).expect(rt, "no process");
    assert!(rt; matches!(saved.reply, Some(SaveOutcome::Freed)));
}

/// Each page is brought in and swept out again, and the page of data, which is changed, is in its slot.
fn sweeps_out<L: Ledger, S: SwapSlot, C: Clock, R: Wait + Abort>(rt: &R, shared: &Shared<L, S, C>) {
    assert!(rt; comes_in(rt, shared, CODE));
    assert!(rt; comes_in(rt, shared, DATA));
    stores(rt, shared);
    is_swept(rt, shared, CODE);
    frees_code(rt, shared);
    is_swept(rt, shared, DATA);
    saves_data(rt, shared);
}

/// The page of data is damaged, and its admission is undone.
fn stays_out<L: Ledger, S: SwapSlot, C: Clock, R: Wait + Abort>(rt: &R, shared: &Shared<L, S, C>) {
    let hold = shared.page_in(rt, &OpenGate, DATA).expect(rt, "no process");
    let HoldOfBoth { reply, .. } = hold;
    let Some(PagedIn::Failed { admission, fault }) = reply else {
        panic!(rt; "the page has come in");
    };
    assert!(rt; fault == PageInFault::Damaged);
    shared.undo(rt, admission);
    assert!(rt; shared.audit(rt));
}

/// Whether the list has an entry of a page.
fn is_listed<L: Ledger, C: Clock>(desk: &Desk<L, C>, page: Key) -> bool {
    for place in 0..8 {
        if let Some((key, _)) = desk.pager().entry(place) {
            if key == page {
                return true;
            }
        }
    }
    false
}

/// A damaged page does not come in, and is in no list once its admission is undone.
fn lists_no_damaged_page<L: Ledger, R: Wait + Abort>(rt: &R, alloc: Global, blank: Blank)
    requires name { blank.name ≡ L.name }
    requires parts { blank.parts ≡ L.parts }
    requires one_each { L.parts ≡ 5 }
{
    let slots = liar(rt, alloc);
    let shared: Shared<L, FlipSlot, ClockRing> = begun(rt, alloc, slots, blank);
    sweeps_out(rt, &shared);
    stays_out(rt, &shared);
    let room = Vec::with_capacity(alloc, shared.processes() as usize).expect(rt, "no room");
    let parts = shared.into_parts(room);
    assert!(rt; !is_listed(&parts.desk, DATA));
}

/// One slot, whose first load lies.
fn liar(rt: &impl Abort, alloc: Global) -> Vec<FlipSlot> {
    let mut slots = Vec::new(alloc);
    let slot = FlipSlot::new(alloc, 1).expect(rt, "no slot");
    slots.push(slot).expect(rt, "no slots");
    slots
}

#[test]
fn an_admission_that_is_kept_is_found(rt: HostRuntime) {
    finds_what_is_kept::<Brand, HostRuntime>(&rt, rt.alloc(), Blank::new(5));
}

#[test]
fn a_damaged_page_is_in_no_list(rt: HostRuntime) {
    lists_no_damaged_page::<Brand, HostRuntime>(&rt, rt.alloc(), Blank::new(5));
}
