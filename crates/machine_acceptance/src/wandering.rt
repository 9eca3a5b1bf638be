//! Three processes on four frames do what flat processes do, whatever events come.

ghost use Rattle.std.specs.Prelude.{◌≡◌, ◌<◌, ◌^◌};

use crate::machine::{image_of, processes_of};
use clock_policy::Key;
use clock_ring::ClockRing;
use flat_machine::{FlatProcess, KillCause};
use machine_core::{Core, Event, Reply};
use std::alloc::Global;
use std::marker::Brand;
use std::process::Abort;
use std::sync::ledger::{Blank, Ledger};
use swap_slots::MemorySlot;
use test_guests::{Random, WANDERS};

const PROCESSES: u32 = 3;

const EVENTS: u32 = 40_000;

/// Any page of any process, and some that are not there.
fn any_key(random: &mut Random) -> Key {
    Key {
        process: random.below(PROCESSES + 1),
        vpn: 0x10 + random.below(10),
    }
}

/// The pages that the replies reported last: what to do next with a machine that is to make progress.
#[derive(Drop)]
struct Told {
    absent: Key,
    victim: Key,
    dirty: Key,
    mapped: Key,
    cleaning: Key,
    copied: Key,
    /// The step that ran just now.
    goes_on: Option<Event>,
    ran: u32,
    freed: u32,
    saved: u32,
    cleaned: u32,
    stored: u32,
    refused: u32,
}

impl Told {
    /// Before any reply.
    fn nothing() -> Told {
        let nowhere = Key { process: 0, vpn: 0 };
        Told {
            absent: nowhere,
            victim: nowhere,
            dirty: nowhere,
            mapped: nowhere,
            cleaning: nowhere,
            copied: nowhere,
            goes_on: None,
            ran: 0,
            freed: 0,
            saved: 0,
            cleaned: 0,
            stored: 0,
            refused: 0,
        }
    }

    /// An event that is chosen at random, most of them ones that get on.
    fn next(&self, random: &mut Random) -> Event {
        if let Some(step) = self.goes_on {
            if random.below(8) > 0 {
                return step;
            }
        }
        let process = if random.below(16) == 0 {
            random.below(PROCESSES + 1)
        } else {
            self.absent.process
        };
        let hart = random.below(3);
        match random.below(80) {
            0..=29 => Event::Step { process, hart },
            30..=33 => Event::Notice { process, hart },
            34..=39 => Event::Sweep,
            40..=45 => Event::Collect(self.victim),
            46 => Event::Collect(any_key(random)),
            47..=51 => Event::Saved(self.dirty),
            52 => Event::Saved(any_key(random)),
            53..=61 => Event::PageIn(self.absent),
            62 => Event::PageIn(any_key(random)),
            63..=78 => self.cleaning_event(random),
            _ if process < PROCESSES => Event::Purge { process },
            // No process is killed, so that each can be looked at in the end.
            _ => Event::Kill {
                process,
                cause: KillCause::Limit,
            },
        }
    }

    /// An event of a page that is cleaned: mostly of the page that was reported last.
    fn cleaning_event(&self, random: &mut Random) -> Event {
        match random.below(16) {
            0..=1 => Event::Clean(any_key(random)),
            2..=5 => Event::Clean(self.mapped),
            6 => Event::Copy(any_key(random)),
            7..=9 => Event::Copy(self.cleaning),
            10 => Event::Cleaned(any_key(random)),
            11..=13 => Event::Cleaned(self.copied),
            _ => Event::Notice {
                process: self.cleaning.process,
                hart: random.below(2),
            },
        }
    }

    /// Records what a reply reports.
    fn heed(&mut self, event: Event, reply: Reply) {
        self.goes_on = None;
        match reply {
            Reply::Ran => {
                self.goes_on = Some(event);
                self.ran = self.ran.saturating_add(1);
            }
            Reply::Absent(vpn) => self.miss(event, vpn),
            Reply::Victim(key) => self.victim = key,
            Reply::Dirty => self.is_to_be_saved(event),
            Reply::Freed => self.free(event),
            Reply::Mapped => self.is_mapped(event),
            Reply::Cleaning => self.is_cleaning(event),
            Reply::Copied => self.is_copied(event),
            Reply::Cleaned => self.cleaned = self.cleaned.saturating_add(1),
            Reply::Stored => self.stored = self.stored.saturating_add(1),
            Reply::Refused(_) => self.refused = self.refused.saturating_add(1),
            _ => {}
        }
    }

    fn miss(&mut self, event: Event, vpn: u32) {
        if let Event::Step { process, .. } = event {
            self.absent = Key { process, vpn };
        }
    }

    fn is_to_be_saved(&mut self, event: Event) {
        if let Event::Collect(key) = event {
            self.dirty = key;
        }
    }

    fn is_mapped(&mut self, event: Event) {
        if let Event::PageIn(key) = event {
            self.mapped = key;
        }
    }

    fn is_cleaning(&mut self, event: Event) {
        if let Event::Clean(key) = event {
            self.cleaning = key;
        }
    }

    fn is_copied(&mut self, event: Event) {
        if let Event::Copy(key) = event {
            self.copied = key;
        }
    }

    fn free(&mut self, event: Event) {
        match event {
            Event::Collect(_) => self.freed = self.freed.saturating_add(1),
            _ => self.saved = self.saved.saturating_add(1),
        }
    }
}

/// Whether a process has the registers of a flat one, its output and its end.
fn ends_as<L: Ledger>(
    core: &Core<L, MemorySlot, ClockRing>,
    process: u32,
    flat: &FlatProcess,
) -> bool {
    for hart in 0..2 {
        if core.regs(process, hart) != flat.regs(hart) {
            return false;
        }
    }
    core.output(process) == Some(flat.output()) && core.end(process) == Some(flat.end())
}

/// Whether a process shows what the run of its schedule leaves, on a flat one at its beginning.
fn stands_for<L: Ledger>(
    core: &mut Core<L, MemorySlot, ClockRing>,
    process: u32,
    flat: &mut FlatProcess,
) -> bool {
    let Some(schedule) = core.schedule(process) else {
        return false;
    };
    if flat.run(schedule).is_err() {
        return false;
    }
    ends_as(core, process, flat)
        && shows_its_pages(core, process, flat, 0, 0x20)
        && shows_its_pages(core, process, flat, 0x7_FFB0, 0x8_0010)
}

fn begin_flat(rt: &impl Abort, alloc: Global) -> FlatProcess {
    let image = image_of(rt, alloc, WANDERS);
    FlatProcess::new(alloc, &image, Vec::new(alloc)).expect(rt, "no flat process")
}

fn stands_for_its_run<L: Ledger>(
    rt: &impl Abort,
    alloc: Global,
    core: &mut Core<L, MemorySlot, ClockRing>,
    process: u32,
) -> bool {
    let mut flat = begin_flat(rt, alloc);
    stands_for(core, process, &mut flat)
}

/// Whether a process shows what the flat process has in each of these pages: no byte where none is mapped.
fn shows_its_pages<L: Ledger>(
    core: &mut Core<L, MemorySlot, ClockRing>,
    process: u32,
    flat: &FlatProcess,
    first: u32,
    end: u32,
) -> bool
    requires { end < 2 ^ 20 }
{
    for vpn in first..end {
        if !shows_its_page(core, process, flat, vpn) {
            return false;
        }
    }
    true
}

/// Whether a process shows the bytes of a page that the flat process has.
fn shows_its_page<L: Ledger>(
    core: &mut Core<L, MemorySlot, ClockRing>,
    process: u32,
    flat: &FlatProcess,
    vpn: u32,
) -> bool
    requires { vpn < 2 ^ 20 }
{
    let mut bytes = [None; 4096];
    // Where the page is not shown the bytes stay none.
    let _ = core.peek(process, vpn * 4096, &mut bytes);
    for i in 0..4096 {
        if bytes[i as usize] != flat.byte(vpn * 4096 + i) {
            return false;
        }
    }
    true
}

fn memory_slots(rt: &impl Abort, alloc: Global) -> Vec<MemorySlot> {
    let mut slots = Vec::new(alloc);
    for _ in 0..12 {
        let slot = MemorySlot::new(alloc).expect(rt, "no slot");
        slots.push(slot).expect(rt, "no slots");
    }
    slots
}

/// Many events of every kind have come.
fn told_enough(rt: &impl Abort, told: &Told) {
    assert!(rt; told.ran > 500, "too few steps");
    assert!(rt; told.freed > 10, "too few drops");
    assert!(rt; told.saved > 10, "too few saves");
    assert!(rt; told.cleaned > 10, "too few pages cleaned");
    assert!(rt; told.stored > 0, "no cleaning that a store ended");
    assert!(rt; told.refused > 1000, "too few refusals");
}

/// Sends the events of a seed.
fn wander<L: Ledger>(rt: &impl Abort, core: &mut Core<L, MemorySlot, ClockRing>, seed: u64) {
    let mut told = Told::nothing();
    let mut random = Random::new(seed);
    for _ in 0..EVENTS {
        let event = told.next(&mut random);
        let reply = core.apply(event);
        told.heed(event, reply);
    }
    told_enough(rt, &told);
}

fn wanders<L: Ledger>(
    rt: &impl Abort,
    alloc: Global,
    core: &mut Core<L, MemorySlot, ClockRing>,
    seed: u64,
) {
    wander(rt, core, seed);
    for process in 0..PROCESSES {
        let stands = stands_for_its_run(rt, alloc, core, process);
        assert!(rt; stands, "process {process} of seed {seed}");
    }
}

fn wanders_from<L: Ledger>(rt: &impl Abort, alloc: Global, blank: Blank, seed: u64)
    requires name { blank.name ≡ L.name }
    requires parts { blank.parts ≡ L.parts }
    requires one_each { L.parts ≡ 5 }
{
    let starts = processes_of(rt, alloc, WANDERS, PROCESSES);
    let slots = memory_slots(rt, alloc);
    let mut core: Core<L, MemorySlot, ClockRing> = Core::new(alloc, 4, blank, slots, starts).expect(
        rt,
        "no machine",
    );
    wanders(rt, alloc, &mut core, seed);
}

#[test]
fn processes_on_four_frames_do_what_they_do_flat(rt: HostRuntime) {
    wanders_from::<Brand>(&rt, rt.alloc(), Blank::new(5), 1);
    wanders_from::<Brand>(&rt, rt.alloc(), Blank::new(5), 20_261_123);
}
