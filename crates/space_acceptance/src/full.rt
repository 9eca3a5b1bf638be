//! A process whose schedule is full.

ghost use Rattle.std.specs.Prelude.{◌≡◌};

use crate::bench::{Answer, Bench, Call, expect, image_of, only};
use crate::paging::{ran, slice};
use space_core::SliceStop;
use std::alloc::Global;
use std::marker::Brand;
use std::process::Abort;
use std::sync::ledger::{Blank, Ledger};
use swap_slots::MemorySlot;

/// Starts hart 1, and then both harts go round for ever.
const SPINS: &str = "        la   a0, loop
        li   a1, 0
        li   a7, 1024
        ecall
loop:   j    loop
";

/// A turn for each instruction, until a million are recorded: then only the hart of the last one goes on.
fn takes_turns<L: Ledger>(rt: &impl Abort, bench: &mut Bench<L, MemorySlot>) {
    let first = [
        (Call::PageIn(0x10), Answer::Done),
        (slice(0, 5), ran(5, SliceStop::Budget)),
    ];
    expect(rt, bench, &first);
    for turn in 0..999_999u32 {
        let answer = bench.call(slice(1 - turn % 2, 1));
        assert!(rt; answer == ran(1, SliceStop::Budget), "turn {turn}");
    }
    let last = [
        (Call::Schedule, Answer::Turns(1_000_000, 5)),
        (slice(0, 1), ran(0, SliceStop::ScheduleFull)),
        (slice(1, 1), ran(1, SliceStop::Budget)),
    ];
    expect(rt, bench, &last);
}

fn fills_its_schedule<L: Ledger>(rt: &impl Abort, alloc: Global, blank: Blank)
    requires name { blank.name ≡ L.name }
    requires parts { blank.parts ≡ L.parts }
    requires one_each { L.parts ≡ 5 }
{
    let slots = only(rt, alloc, MemorySlot::new(alloc));
    let image = image_of(rt, alloc, SPINS);
    let mut bench: Bench<L, MemorySlot> = Bench::begin(rt, alloc, image, slots, blank);
    takes_turns(rt, &mut bench);
}

#[test]
fn a_full_schedule_takes_one_hart_alone(rt: HostRuntime) {
    fills_its_schedule::<Brand>(&rt, rt.alloc(), Blank::new(5));
}
