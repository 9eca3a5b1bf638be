//! A process on few frames does what the flat process does, whatever calls its pages come and go by.

ghost use Rattle.std.specs.Prelude.{◌≡◌, ◌<◌};

use crate::bench::{Answer, Bench, Call, image_of};
use flat_machine::FlatProcess;
use space_core::SliceStop;
use std::alloc::Global;
use std::marker::Brand;
use std::process::Abort;
use std::sync::ledger::{Blank, Ledger};
use swap_slots::MemorySlot;
use test_guests::{Random, WANDERS};

const CALLS: u32 = 20_000;

/// A call that is chosen at random.
fn any_call(random: &mut Random) -> Call {
    let page = 0x10 + random.below(9);
    let hart = random.below(2);
    match random.below(16) {
        0..=6 => Call::Slice {
            hart,
            budget: random.below(24),
        },
        7 | 8 => Call::PageIn(page),
        9 => Call::BeginEvict(page),
        10 | 11 => Call::Collect(page),
        12 => Call::Save,
        13 => Call::BringBack(page),
        14 => Call::TestAndClear(page),
        _ => Call::TakeNotices(hart),
    }
}

/// The process on paged memory, with the flat process that steps beside it.
#[derive(Drop)]
struct Pair<L: Ledger> {
    bench: Bench<L, MemorySlot>,
    flat: FlatProcess,
    steps: u32,
    saves: u32,
}

impl<L: Ledger> Pair<L> {
    /// Makes a call here, and the steps that ran there. The page that a slice stops for is brought in, once another has
    /// left.
    fn call(&mut self, rt: &impl Abort, call: Call, random: &mut Random) {
        let answer = self.bench.call(call);
        let (Call::Slice { hart, .. }, Answer::Ran(slice)) = (call, answer) else {
            return;
        };
        self.step(rt, hart, slice.ran);
        if let SliceStop::Absent(page) = slice.stop {
            self.make_room(0x10 + random.below(9));
            self.bench.call(Call::PageIn(page));
        }
    }

    fn step(&mut self, rt: &impl Abort, hart: u32, count: u32) {
        for _ in 0..count {
            let stepped = self.flat.step(hart);
            assert!(rt; stepped.is_ok(), "the flat process has no such step");
            self.steps = self.steps.saturating_add(1);
        }
    }

    /// Takes a page out of its frame, if it is in one.
    fn make_room(&mut self, page: u32) {
        self.bench.call(Call::BeginEvict(page));
        self.bench.call(Call::TakeNotices(0));
        self.bench.call(Call::TakeNotices(1));
        self.bench.call(Call::Collect(page));
        if self.bench.call(Call::Save) == Answer::Done {
            self.saves = self.saves.saturating_add(1);
        }
    }

    /// Whether both have the same registers, and the same byte at an address.
    fn agree(&mut self, address: u32) -> bool {
        if !self.bench.has_regs(0, self.flat.regs(0)) {
            return false;
        }
        if !self.bench.has_regs(1, self.flat.regs(1)) {
            return false;
        }
        match self.bench.call(Call::Peek(address)) {
            Answer::Byte(byte) => byte.unwrap_or(None) == self.flat.byte(address),
            _ => false,
        }
    }
}

fn begin_flat(rt: &impl Abort, alloc: Global) -> FlatProcess {
    let image = image_of(rt, alloc, WANDERS);
    FlatProcess::new(alloc, &image, Vec::new(alloc)).expect(rt, "no flat process")
}

fn memory_slots(rt: &impl Abort, alloc: Global) -> Vec<MemorySlot> {
    let mut slots = Vec::new(alloc);
    for _ in 0..6 {
        let slot = MemorySlot::new(alloc).expect(rt, "no slot");
        slots.push(slot).expect(rt, "no slots");
    }
    slots
}

/// Both processes at the beginning, with four frames and six slots.
fn begin_pair<L: Ledger>(rt: &impl Abort, alloc: Global, blank: Blank) -> Pair<L>
    requires name { blank.name ≡ L.name }
    requires parts { blank.parts ≡ L.parts }
    requires one_each { L.parts ≡ 5 }
{
    let image = image_of(rt, alloc, WANDERS);
    let slots = memory_slots(rt, alloc);
    Pair {
        bench: Bench::begin(rt, alloc, image, slots, blank),
        flat: begin_flat(rt, alloc),
        steps: 0,
        saves: 0,
    }
}

/// Makes so many calls, and looks at both after each.
fn wander<L: Ledger>(rt: &impl Abort, pair: &mut Pair<L>, seed: u64) {
    let mut random = Random::new(seed);
    for call in 0..CALLS {
        let next = any_call(&mut random);
        pair.call(rt, next, &mut random);
        let address = 0x1_1000 + random.below(0x8000);
        assert!(rt; pair.agree(address), "call {call} of seed {seed}");
    }
}

/// Whether all pages agree.
fn agree_on_pages<L: Ledger>(pair: &mut Pair<L>) -> bool {
    for address in 0x1_0000..0x1_9000 {
        if !pair.agree(address) {
            return false;
        }
    }
    true
}

/// Whether the run of the whole schedule, on a process at its beginning, leaves the same registers.
fn agrees_with<L: Ledger>(pair: &Pair<L>, again: &mut FlatProcess) -> bool {
    pair.bench.run_again(again)
        && pair.bench.has_regs(0, again.regs(0))
        && pair.bench.has_regs(1, again.regs(1))
}

fn agrees_run_again<L: Ledger>(rt: &impl Abort, alloc: Global, pair: &Pair<L>) -> bool {
    let mut again = begin_flat(rt, alloc);
    agrees_with(pair, &mut again)
}

/// Makes the calls of a seed. Both are the same after each and in the end, and many steps and saves were among them.
fn wanders<L: Ledger>(rt: &impl Abort, alloc: Global, pair: &mut Pair<L>, seed: u64) {
    wander(rt, pair, seed);
    assert!(rt; pair.steps > 5_000, "too few steps");
    assert!(rt; pair.saves > 200, "too few saves");
    assert!(rt; agree_on_pages(pair), "pages of seed {seed}");
    assert!(rt;
        agrees_run_again(rt, alloc, pair),
        "registers of seed {seed}"
    );
}

fn wanders_from<L: Ledger>(rt: &impl Abort, alloc: Global, blank: Blank, seed: u64)
    requires name { blank.name ≡ L.name }
    requires parts { blank.parts ≡ L.parts }
    requires one_each { L.parts ≡ 5 }
{
    let mut pair: Pair<L> = begin_pair(rt, alloc, blank);
    wanders(rt, alloc, &mut pair, seed);
}

#[test]
fn a_process_on_four_frames_does_what_it_does_flat(rt: HostRuntime) {
    wanders_from::<Brand>(&rt, rt.alloc(), Blank::new(5), 1);
    wanders_from::<Brand>(&rt, rt.alloc(), Blank::new(5), 20_261_123);
}
