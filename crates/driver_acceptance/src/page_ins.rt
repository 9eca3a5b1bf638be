//! For one process with one hart the machine brings in as many pages as CLOCK-Pro misses of the process's string.

ghost use Rattle.std.specs.Prelude.{◌≡◌, ◌≤◌, ◌+◌};

use crate::machine::{image_of, processes};
use clock_policy::Key;
use clock_ring::ClockRing;
use elf_image::Image;
use flat_machine::FlatProcess;
use guest_strings::{AccessKinds, GuestString};
use machine_core::Core;
use page_policies::{Frames, misses};
use serial_driver::run_serial;
use std::alloc::Global;
use std::marker::Brand;
use std::process::Abort;
use std::sync::ledger::{Blank, Ledger};
use swap_slots::MemorySlot;
use younger_policies::ClockProUsed;

/// Stores to eleven pages and then loads from them.
const ELEVEN: &str = "        lui  s0, 0x7FFC0
        lui  s1, 1
        li   s2, 11
        mv   t0, s0
        li   t1, 0
store:  sw   t1, 0(t0)
        add  t0, t0, s1
        addi t1, t1, 1
        bne  t1, s2, store
        li   t1, 0
load:   sub  t0, t0, s1
        lw   t2, 0(t0)
        addi t1, t1, 1
        bne  t1, s2, load
        li   a0, 0
        li   a7, 94
        ecall
";

/// Goes round eight pages ten times.
const ROUND: &str = "        lui  s0, 0x7FFC0
        lui  s1, 1
        li   s2, 8
        li   s3, 10
        li   a0, 0
round:  mv   t0, s0
        li   t1, 0
page:   lw   t2, 0(t0)
        add  t0, t0, s1
        addi t1, t1, 1
        bne  t1, s2, page
        addi a0, a0, 1
        bne  a0, s3, round
        li   a7, 94
        ecall
";

/// Adds two hundred times to a word of a page, and loads a word of one of four pages. Page 5 n + 3 modulo 16 comes after page n.
const HOPS: &str = "        lui  s0, 0x7FFC0
        li   s1, 5
        li   s2, 200
        li   t0, 0
        li   t1, 0
hop:    slli t2, t1, 12
        add  t2, t2, s0
        lw   t3, 0(t2)
        add  t3, t3, t0
        sw   t3, 0(t2)
        andi t4, t0, 6
        slli t4, t4, 12
        add  t4, t4, s0
        lw   t5, 0(t4)
        mul  t1, t1, s1
        addi t1, t1, 3
        andi t1, t1, 15
        addi t0, t0, 1
        bne  t0, s2, hop
        li   a0, 0
        li   a7, 94
        ecall
";

/// The pages that a guest uses, one after another.
fn string_of(rt: &impl Abort, alloc: Global, guest: &mut GuestString) -> Vec<Key> {
    let mut string: Vec<Key> = Vec::new(alloc);
    for _ in 0..100_000 {
        match guest.next().expect(rt, "no reference") {
            Some(reference) => string.push(reference.page).expect(rt, "no string"),
            None => break,
        }
    }
    string
}

/// What CLOCK-Pro misses of the string of a guest.
fn misses_of(rt: &impl Abort, alloc: Global, frames: Frames, source: &str) -> usize {
    let image = image_of(rt, alloc, source);
    let flat = FlatProcess::new(alloc, &image, Vec::new(alloc)).expect(rt, "no flat process");
    let flats = vec![in alloc; flat].expect(rt, "no flat processes");
    let mut guest = GuestString::new(flats, AccessKinds::All, 1000, 100_000);
    let string = string_of(rt, alloc, &mut guest);
    misses::<ClockProUsed<ClockRing>>(alloc, frames, string.as_slice()).expect(rt, "no count")
}

/// How many pages a machine brings in, by slices of so many instructions.
fn page_ins(rt: &impl Abort, alloc: Global, frames: u32, slice: u32, source: &str) -> u64 {
    let starts = processes(rt, alloc, 1, source);
    let blank = Blank::new(u64::from(frames) + 1);
    page_ins_with::<Brand>(rt, alloc, blank, frames, slice, starts)
}

fn memory_slots(rt: &impl Abort, alloc: Global) -> Vec<MemorySlot> {
    let mut slots = Vec::new(alloc);
    for _ in 0..20 {
        let slot = MemorySlot::new(alloc).expect(rt, "no slot");
        slots.push(slot).expect(rt, "no slots");
    }
    slots
}

fn page_ins_with<L: Ledger>(
    rt: &impl Abort,
    alloc: Global,
    blank: Blank,
    frames: u32,
    slice: u32,
    starts: Vec<(Image, Vec<u8>)>,
) -> u64
    requires name { blank.name ≡ L.name }
    requires parts { blank.parts ≡ L.parts }
    requires one_each { L.parts ≡ frames + 1 }
{
    let slots = memory_slots(rt, alloc);
    let mut core: Core<L, MemorySlot, ClockRing> = Core::new(
        alloc, frames, blank, slots, starts,
    ).expect(rt, "no machine");
    let report = run_serial(alloc, &mut core, slice, 100_000).expect(rt, "no report");
    report.page_ins
}

/// A guest's misses on so many frames, and the pages that a machine brings in by short slices and by long ones.
fn are_so_many(rt: &impl Abort, alloc: Global, source: &str, frames: u32, count: usize) {
    let policy_frames = Frames::new(frames as usize).expect(rt, "no such frames");
    assert!(rt; misses_of(rt, alloc, policy_frames, source) == count);
    for slice in [1, 1000] {
        assert!(rt; page_ins(rt, alloc, frames, slice, source) == count as u64);
    }
}

/// The counts are those of `tests/policies-model`.
#[test]
fn misses_are_page_ins(rt: HostRuntime) {
    for (source, of_four, of_eight) in [(ELEVEN, 21, 19), (ROUND, 72, 36), (HOPS, 244, 224)] {
        are_so_many(&rt, rt.alloc(), source, 4, of_four);
        are_so_many(&rt, rt.alloc(), source, 8, of_eight);
    }
}
