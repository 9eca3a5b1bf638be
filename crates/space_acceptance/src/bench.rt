//! A process on paged memory with the frames that it may use, and calls of it as values.

ghost use Rattle.std.specs.Prelude.{◌≡◌, ◌<◌, ◌^◌};

use elf_image::Image;
use flat_machine::FlatProcess;
use frame_pool::{Frame, FramePool};
use page_store::{CleanCopy, CleanJob, CleanRefusal, Cleaned, Collected, PageState, SaveJob};
use paged_memory::{PageInFault, PeekFault};
use rv_asm::assemble;
use rv_exec::Regs;
use space_core::{Slice, Space};
use std::alloc::{AllocError, Global};
use std::marker::Brand;
use std::process::Abort;
use std::sync::ledger::{Blank, Ledger};
use swap_slots::SwapSlot;

/// A call of the process.
#[derive(Clone, Copy)]
pub(crate) enum Call {
    State(u32),
    Slice { hart: u32, budget: u32 },
    TakeNotices(u32),
    PageIn(u32),
    BeginEvict(u32),
    /// With a spare slot, if there is one left.
    Collect(u32),
    /// The save that went out last comes back.
    Save,
    BringBack(u32),
    TestAndClear(u32),
    BeginClean(u32),
    /// With a spare slot, if there is one left.
    CopyClean(u32),
    /// The copy of a page that is being cleaned, which went out last, comes back.
    EndClean,
    /// Whether its page-table entry has D, if it is mapped.
    Dirty(u32),
    NextChanged(u32),
    TakeOne,
    Peek(u32),
    Register { hart: u32, register: u8 },
    /// How many turns the schedule has, and how many instructions the first has.
    Schedule,
}

/// What it answers.
#[derive(Clone, Copy, PartialEq, Eq)]
pub(crate) enum Answer {
    Done,
    Refused,
    State(Option<PageState>),
    Ran(Slice),
    NotYet,
    /// An unchanged page has let its frame go, which is free again.
    Clean,
    Dirty,
    Word(Option<u32>),
    Byte(Result<Option<u8>, PeekFault>),
    /// Whether there was a frame, and a slot.
    Given { frame: bool, slot: bool },
    Nothing,
    Turns(usize, u32),
    /// The page was not brought in, and the frame is free again.
    StaysOut(PageInFault),
    DoesNotClean(CleanRefusal),
    NotCleaning,
    Stored,
    NoSlot,
    Copied,
    Device,
    Cleaned,
    Bit(Option<bool>),
}

#[derive(Drop)]
pub(crate) struct Bench<L: Ledger, S: SwapSlot> {
    space: Space<L, S>,
    frames: FramePool<L>,
    spares: Vec<S>,
    jobs: Vec<SaveJob<S>>,
    copies: Vec<CleanJob<S>>,
    room: Box<[u8; 4096]>,
}

impl<L: Ledger, S: SwapSlot> Bench<L, S> {
    /// The process of an image, with four frames and these slots.
    pub fn begin(rt: &impl Abort, alloc: Global, image: Image, spares: Vec<S>, blank: Blank) -> Self
        requires name { blank.name ≡ L.name }
        requires parts { blank.parts ≡ L.parts }
        requires one_each { L.parts ≡ 5 }
    {
        Bench {
            space: Space::new(alloc, 0, image, Vec::new(alloc)).expect(rt, "no process"),
            frames: FramePool::new(alloc, 4, blank).expect(rt, "no frames"),
            spares,
            jobs: Vec::new(alloc),
            copies: Vec::new(alloc),
            room: Box::new(alloc, [0; 4096]).expect(rt, "no room"),
        }
    }

    /// Makes a call.
    pub fn call(&mut self, call: Call) -> Answer {
        match call {
            Call::Slice { hart, budget } => Answer::Ran(self.space.slice(hart, budget)),
            Call::TakeNotices(hart) => self.take_notices(hart),
            Call::Save => self.save(),
            Call::EndClean => self.end_clean(),
            Call::NextChanged(from) => Answer::Word(self.space.next_changed(from)),
            Call::TakeOne => self.take_one(),
            Call::Peek(address) => self.peek(address),
            Call::Register { hart, register } => Answer::Word(self.register(hart, register)),
            Call::Schedule => self.schedule(),
            Call::State(vpn)
            | Call::PageIn(vpn)
            | Call::BeginEvict(vpn)
            | Call::Collect(vpn)
            | Call::BringBack(vpn)
            | Call::TestAndClear(vpn)
            | Call::BeginClean(vpn)
            | Call::CopyClean(vpn)
            | Call::Dirty(vpn) => {
                if vpn < 1 << 20 {
                    self.call_page(call, vpn)
                } else {
                    Answer::Refused
                }
            }
        }
    }

    fn call_page(&mut self, call: Call, vpn: u32) -> Answer
        requires { vpn < 2 ^ 20 }
    {
        match call {
            Call::State(_) => Answer::State(self.space.state(vpn)),
            Call::PageIn(_) => self.page_in(vpn),
            Call::BeginEvict(_) => done(self.space.begin_evict(vpn).is_ok()),
            Call::Collect(_) => self.collect(vpn),
            Call::BringBack(_) => done(self.space.bring_back(vpn).is_ok()),
            Call::TestAndClear(_) => done(self.space.test_and_clear(vpn).is_some()),
            Call::BeginClean(_) => self.begin_clean(vpn),
            Call::CopyClean(_) => self.copy_clean(vpn),
            Call::Dirty(_) => Answer::Bit(self.dirty(vpn)),
            _ => Answer::Nothing,
        }
    }

    fn peek(&mut self, address: u32) -> Answer {
        let mut bytes = [None];
        let read = self.space.peek(address, &mut bytes);
        Answer::Byte(read.map(|()| bytes[0]))
    }

    fn take_notices(&mut self, hart: u32) -> Answer {
        self.space.take_notices(hart);
        Answer::Done
    }

    fn page_in(&mut self, vpn: u32) -> Answer
        requires { vpn < 2 ^ 20 }
    {
        let Some(frame) = self.frames.take() else {
            return Answer::Nothing;
        };
        match self.space.page_in(vpn, frame) {
            Ok(()) => Answer::Done,
            Err((frame, fault)) => self.give(frame, Answer::StaysOut(fault)),
        }
    }

    fn collect(&mut self, vpn: u32) -> Answer
        requires { vpn < 2 ^ 20 }
    {
        let mut spare = self.spares.pop();
        let collected = self.space.collect(vpn, &mut spare, &mut self.room);
        if let Some(slot) = spare {
            if self.spares.push(slot).is_err() {
                return Answer::Nothing;
            }
        }
        self.heed(collected)
    }

    fn heed(&mut self, collected: Collected<L, S>) -> Answer {
        match collected {
            Collected::NotYet => Answer::NotYet,
            Collected::Clean(frame) => self.give(frame, Answer::Clean),
            Collected::Dirty(job) => match self.jobs.push(job) {
                Ok(()) => Answer::Dirty,
                Err(_) => Answer::Nothing,
            },
            Collected::NotLeaving | Collected::NoSlot => Answer::Refused,
        }
    }

    fn save(&mut self) -> Answer {
        let Some(job) = self.jobs.pop() else {
            return Answer::Nothing;
        };
        match self.space.saved(job.run(), &mut self.room) {
            Ok(frame) => self.give(frame, Answer::Done),
            Err(_) => Answer::Refused,
        }
    }

    fn begin_clean(&mut self, vpn: u32) -> Answer
        requires { vpn < 2 ^ 20 }
    {
        match self.space.begin_clean(vpn) {
            Ok(()) => Answer::Done,
            Err(refusal) => Answer::DoesNotClean(refusal),
        }
    }

    fn copy_clean(&mut self, vpn: u32) -> Answer
        requires { vpn < 2 ^ 20 }
    {
        let mut spare = self.spares.pop();
        let copied = self.space.copy_clean(vpn, &mut spare);
        if let Some(slot) = spare {
            if self.spares.push(slot).is_err() {
                return Answer::Nothing;
            }
        }
        self.keep_copy(copied)
    }

    fn keep_copy(&mut self, copied: CleanCopy<S>) -> Answer {
        match copied {
            CleanCopy::NotCleaning => Answer::NotCleaning,
            CleanCopy::Stored => Answer::Stored,
            CleanCopy::NotYet => Answer::NotYet,
            CleanCopy::NoSlot => Answer::NoSlot,
            CleanCopy::Copied(job) => match self.copies.push(job) {
                Ok(()) => Answer::Copied,
                Err(_) => Answer::Nothing,
            },
        }
    }

    fn end_clean(&mut self) -> Answer {
        let Some(job) = self.copies.pop() else {
            return Answer::Nothing;
        };
        match self.space.cleaned(job.run()) {
            Cleaned::WrongPage(_) => Answer::Refused,
            Cleaned::Stored => Answer::Stored,
            Cleaned::Device => Answer::Device,
            Cleaned::Clean => Answer::Cleaned,
        }
    }

    fn dirty(&self, vpn: u32) -> Option<bool>
        requires { vpn < 2 ^ 20 }
    {
        Some(self.space.status(vpn)?.dirty)
    }

    fn give(&mut self, frame: Frame<L>, answer: Answer) -> Answer {
        match self.frames.give(frame) {
            Ok(()) => answer,
            Err(_) => Answer::Nothing,
        }
    }

    fn take_one(&mut self) -> Answer {
        match self.space.take_one() {
            Some((frame, slot)) => Answer::Given {
                frame: frame.is_some(),
                slot: slot.is_some(),
            },
            None => Answer::Nothing,
        }
    }

    fn register(&self, hart: u32, register: u8) -> Option<u32> {
        if register >= 32 {
            return None;
        }
        Some(self.space.regs(hart)?.x(register))
    }

    /// Whether a hart has these registers.
    pub fn has_regs(&self, hart: u32, regs: Option<&Regs>) -> bool {
        self.space.regs(hart) == regs
    }

    /// Runs the instructions that ran on another process. False where they have no flat run there.
    pub fn run_again(&self, flat: &mut FlatProcess) -> bool {
        flat.run(self.space.schedule()).is_ok()
    }

    fn schedule(&self) -> Answer {
        let turns = self.space.schedule().turns();
        match turns.first() {
            Some(turn) => Answer::Turns(turns.len(), turn.count),
            None => Answer::Nothing,
        }
    }
}

fn done(ok: bool) -> Answer {
    if ok { Answer::Done } else { Answer::Refused }
}

/// Makes calls one after another, and looks at each answer.
pub(crate) fn expect<L: Ledger, S: SwapSlot>(
    rt: &impl Abort,
    bench: &mut Bench<L, S>,
    calls: &[(Call, Answer)],
) {
    for (place, (call, answer)) in calls.iter().enumerate() {
        let got = bench.call(*call);
        assert!(rt; got == *answer, "call {place}");
    }
}

/// Makes lists of calls of a process that runs a source, with these slots, and looks at each answer.
pub(crate) fn answers<S: SwapSlot>(
    rt: &impl Abort,
    alloc: Global,
    source: &str,
    slots: Vec<S>,
    lists: &[&[(Call, Answer)]],
) {
    let image = image_of(rt, alloc, source);
    answers_in::<Brand, S>(rt, alloc, image, slots, Blank::new(5), lists);
}

fn answers_in<L: Ledger, S: SwapSlot>(
    rt: &impl Abort,
    alloc: Global,
    image: Image,
    slots: Vec<S>,
    blank: Blank,
    lists: &[&[(Call, Answer)]],
)
    requires name { blank.name ≡ L.name }
    requires parts { blank.parts ≡ L.parts }
    requires one_each { L.parts ≡ 5 }
{
    let mut bench: Bench<L, S> = Bench::begin(rt, alloc, image, slots, blank);
    for list in lists {
        expect(rt, &mut bench, list);
    }
}

/// The image of a source.
pub(crate) fn image_of(rt: &impl Abort, alloc: Global, source: &str) -> Image {
    assemble(alloc, source)
        .expect(rt, "the source has a fault")
        .into_image()
}

/// A slot that was made, as a process's only one.
pub(crate) fn only<S: SwapSlot>(
    rt: &impl Abort,
    alloc: Global,
    slot: Result<S, AllocError>,
) -> Vec<S> {
    let mut slots = Vec::new(alloc);
    slots
        .push(slot.expect(rt, "no slot"))
        .expect(rt, "no slots");
    slots
}
