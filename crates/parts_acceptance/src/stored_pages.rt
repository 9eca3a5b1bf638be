//! Tests of a changed page: it is saved and comes back, or stays because its device fails.

ghost use Rattle.std.specs.Prelude.{◌≡◌, ◌+◌};

use frame_pool::{Frame, FramePool};
use page_memory::Rights;
use page_store::{Collected, FillFault, PageState, ReadFault, SaveJob, SaveRefusal, StoredPage};
use std::alloc::Global;
use std::marker::Brand;
use std::process::Abort;
use std::sync::ledger::{Blank, Ledger};
use swap_slots::{FuseSlot, MemorySlot, SwapSlot};

type Page<L, S> = StoredPage<L, S>;

/// A page of zeros in this frame, into which a byte was then stored, and which leaves as a changed page.
fn changed_page<L: Ledger, S: SwapSlot>(rt: &impl Abort, frame: Frame<L>) -> Page<L, S> {
    let mut page = Page::zeroed(Rights::READ_WRITE);
    assert!(rt; page.fill(frame).is_ok());
    set_byte(&mut page);
    assert!(rt; page.leave(true).is_ok());
    page
}

/// Stores a byte, where the page has a frame.
fn set_byte<L: Ledger, S: SwapSlot>(page: &mut Page<L, S>) {
    if let Some(bytes) = page.bytes_mut() {
        bytes[3] = 7;
    }
}

/// The byte that was stored, between the two next to it.
const STORED: [Option<u8>; 3] = [Some(0), Some(7), Some(0)];

/// Where the page is, and what it shows of those bytes.
fn shown<L: Ledger, S: SwapSlot>(
    page: &mut Page<L, S>,
) -> (PageState, Result<[Option<u8>; 3], ReadFault>) {
    let mut bytes = [None; 3];
    let read = page.read(2, &mut bytes);
    (page.state(), read.map(|()| bytes))
}

/// What a page that is leaving answers, without what comes with it.
#[derive(Clone, Copy, PartialEq, Eq, Debug)]
enum Told {
    NotLeaving,
    NotYet,
    NoSlot,
    Clean,
    Dirty,
}

/// What page 16 of process 0 answers, and its job, if it is to be saved.
fn collected<L: Ledger, S: SwapSlot>(
    page: &mut Page<L, S>,
    cached: bool,
    spare: &mut Option<S>,
) -> (Told, Option<SaveJob<S>>) {
    match page.collect(0, 16, cached, spare) {
        Collected::NotLeaving => (Told::NotLeaving, None),
        Collected::NotYet => (Told::NotYet, None),
        Collected::NoSlot => (Told::NoSlot, None),
        Collected::Clean(_) => (Told::Clean, None),
        Collected::Dirty(job) => (Told::Dirty, Some(job)),
    }
}

/// A changed page waits for caches and for a slot.
fn waits<L: Ledger, S: SwapSlot>(rt: &impl Abort, page: &mut Page<L, S>) {
    let mut spare = None;
    let (told, _) = collected(page, true, &mut spare);
    assert!(rt; told == Told::NotYet);
    let (told, _) = collected(page, false, &mut spare);
    assert!(rt; told == Told::NoSlot);
}

/// It is saved, and its frame goes.
fn goes<L: Ledger, S: SwapSlot>(rt: &impl Abort, page: &mut Page<L, S>, slot: S) -> Frame<L> {
    let mut spare = Some(slot);
    let (_, job) = collected(page, false, &mut spare);
    let job = job.expect(rt, "a job");
    assert!(rt; (job.process(), job.vpn(), page.state()) == (0, 16, PageState::Saving));
    assert!(rt; spare.is_none());
    let frame = page.saved(job.run()).ok().expect(rt, "saved");
    assert!(rt; shown(page) == (PageState::Away, Ok(STORED)));
    frame
}

/// It comes back, goes unchanged, and is given up.
fn comes<L: Ledger, S: SwapSlot>(rt: &impl Abort, page: &mut Page<L, S>, frame: Frame<L>) {
    assert!(rt; page.fill(frame).is_ok());
    assert!(rt; shown(page) == (PageState::Resident, Ok(STORED)));
    assert!(rt; page.leave(false).is_ok());
    let (told, _) = collected(page, false, &mut None);
    assert!(rt; told == Told::Clean);
    assert!(rt; matches!(page.give_back(), Some((None, Some(_)))));
    assert!(rt; shown(page) == (PageState::Purged, Err(ReadFault::Purged)));
}

fn goes_and_comes<L: Ledger>(rt: &impl Abort, alloc: Global, blank: Blank)
    requires name { blank.name ≡ L.name }
    requires parts { blank.parts ≡ L.parts }
    requires one_each { L.parts ≡ 5 }
{
    let mut page = changed_page(rt, frame_of::<L>(rt, alloc, blank));
    waits(rt, &mut page);
    let frame = goes(rt, &mut page, MemorySlot::new(alloc).expect(rt, "a slot"));
    comes(rt, &mut page, frame);
}

/// A frame of a pool of four.
fn frame_of<L: Ledger>(rt: &impl Abort, alloc: Global, blank: Blank) -> Frame<L>
    requires name { blank.name ≡ L.name }
    requires parts { blank.parts ≡ L.parts }
    requires one_each { L.parts ≡ 5 }
{
    let mut pool = FramePool::<L>::new(alloc, 4, blank).expect(rt, "a pool");
    pool.take().expect(rt, "a frame")
}

/// It can't be saved, and stays.
fn stays<L: Ledger, S: SwapSlot>(rt: &impl Abort, page: &mut Page<L, S>, slot: S) {
    let (_, job) = collected(page, false, &mut Some(slot));
    let job = job.expect(rt, "a job");
    let saved = page.saved(job.run());
    assert!(rt; matches!(saved, Err(SaveRefusal::Device)));
    assert!(rt; (page.state(), page.bring_back()) == (PageState::Leaving, Ok(true)));
    assert!(rt; shown(page) == (PageState::Resident, Ok(STORED)));
}

fn fails_to_save<L: Ledger>(rt: &impl Abort, alloc: Global, blank: Blank)
    requires name { blank.name ≡ L.name }
    requires parts { blank.parts ≡ L.parts }
    requires one_each { L.parts ≡ 5 }
{
    let mut pool = FramePool::<L>::new(alloc, 4, blank).expect(rt, "a pool");
    let mut page = changed_page(rt, pool.take().expect(rt, "a frame"));
    stays(rt, &mut page, FuseSlot::new(alloc, 0).expect(rt, "a slot"));
    let other = pool.take().expect(rt, "a frame");
    assert!(rt; matches!(page.fill(other), Err((_, FillFault::NotAbsent))));
}

#[test]
fn a_changed_page_goes_and_comes(rt: HostRuntime) {
    goes_and_comes::<Brand>(&rt, rt.alloc(), Blank::new(5));
}

#[test]
fn a_failed_save_keeps_the_page(rt: HostRuntime) {
    fails_to_save::<Brand>(&rt, rt.alloc(), Blank::new(5));
}
