//! A machine of one process that stores a byte.

ghost use Rattle.std.specs.Prelude.{◌≡◌};

use clock_policy::Key;
use clock_ring::ClockRing;
use elf_image::Image;
use machine_core::{Core, Event, Reply};
use rv_asm::assemble;
use std::alloc::{AllocError, Global};
use std::process::Abort;
use std::sync::ledger::{Blank, Ledger};
use swap_slots::SwapSlot;

pub(crate) const STEP: Event = Event::Step {
    process: 0,
    hart: 0,
};

pub(crate) const NOTICE: Event = Event::Notice {
    process: 0,
    hart: 0,
};

pub(crate) const CODE: Key = Key {
    process: 0,
    vpn: 0x10,
};

pub(crate) const DATA: Key = Key {
    process: 0,
    vpn: 0x11,
};

/// What a sweep replies that goes on.
pub(crate) fn asked(key: Key, used: bool) -> Reply {
    Reply::Asked { key, used }
}

/// The image of a source.
pub(crate) fn image_of(rt: &impl Abort, alloc: Global, source: &str) -> Image {
    assemble(alloc, source)
        .expect(rt, "the source has a fault")
        .into_image()
}

/// So many processes of a source, with nothing to read.
pub(crate) fn processes_of(
    rt: &impl Abort,
    alloc: Global,
    source: &str,
    count: u32,
) -> Vec<(Image, Vec<u8>)> {
    let mut starts = Vec::new(alloc);
    for _ in 0..count {
        let image = image_of(rt, alloc, source);
        starts
            .push((image, Vec::new(alloc)))
            .expect(rt, "no processes");
    }
    starts
}

/// A slot that was made, as a machine's only one.
pub(crate) fn only<S: SwapSlot>(
    rt: &impl Abort,
    alloc: Global,
    slot: Result<S, AllocError>,
) -> Vec<S> {
    let mut slots = Vec::new(alloc);
    slots
        .push(slot.expect(rt, "no slot"))
        .expect(rt, "no slots");
    slots
}

/// A machine of four frames, with these slots, whose process has run the first four instructions
/// of a source: the fourth has stored a byte in its page of data.
pub(crate) fn begun<L: Ledger, S: SwapSlot>(
    rt: &impl Abort,
    alloc: Global,
    source: &str,
    slots: Vec<S>,
    blank: Blank,
) -> Core<L, S, ClockRing>
    requires name { blank.name ≡ L.name }
    requires parts { blank.parts ≡ L.parts }
    requires one_each { L.parts ≡ 5 }
{
    let starts = processes_of(rt, alloc, source, 1);
    let mut core: Core<L, S, ClockRing> = Core::new(alloc, 4, blank, slots, starts).expect(
        rt,
        "no machine",
    );
    let events = [
        (Event::PageIn(CODE), Reply::Mapped),
        (Event::PageIn(DATA), Reply::Mapped),
        (STEP, Reply::Ran),
        (STEP, Reply::Ran),
        (STEP, Reply::Ran),
        (STEP, Reply::Ran),
    ];
    expect(rt, &mut core, &events);
    core
}

/// Sends events one after another, and looks at each reply.
pub(crate) fn expect<L: Ledger, S: SwapSlot>(
    rt: &impl Abort,
    core: &mut Core<L, S, ClockRing>,
    events: &[(Event, Reply)],
) {
    for (event, reply) in events.iter() {
        assert!(rt; core.apply(*event) == *reply);
    }
}

/// The byte at an address of the process, as the machine shows it.
pub(crate) fn byte_at<L: Ledger, S: SwapSlot>(
    core: &mut Core<L, S, ClockRing>,
    address: u32,
) -> Option<u8> {
    let mut bytes = [None];
    match core.peek(0, address, &mut bytes) {
        Some(Ok(())) => bytes[0],
        _ => None,
    }
}
