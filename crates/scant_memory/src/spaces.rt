//! A process on paged memory.

ghost use Rattle.std.specs.Prelude.{◌≡◌, ◌<◌, ◌^◌};

use crate::programs::image_of;
use flat_machine::End;
use frame_pool::{Frame, FramePool};
use page_store::{Collected, PageState};
use paged_memory::PageInFault;
use space_core::{SliceStop, Space};
use std::alloc::{AllocError, Global};
use std::sync::ledger::{Blank, Ledger};
use swap_slots::{MemorySlot, SwapSlot};
use test_guests::STORES_A_BYTE;

/// Prints a page of zeros, moves its break up by a page, stores there, and ends: 15 instructions.
const WRITES_AND_BREAKS: &str = "        la   a1, buf
        li   a2, 2048
        li   a7, 64
        ecall
        li   a0, 0x13000
        li   a7, 214
        ecall
        sw   a0, -4(a0)
        li   a0, 0
        li   a7, 94
        ecall

        .data
buf:    .word 0
";

/// A page of the process comes in, again where it was refused memory. Tells whether it is there.
fn page_in<L: Ledger, S: SwapSlot>(
    space: &mut Space<L, S>,
    frames: &mut FramePool<L>,
    vpn: u32,
) -> Result<bool, AllocError>
    requires { vpn < 2 ^ 20 }
{
    let Some(frame) = frames.take() else {
        return Ok(false);
    };
    let (frame, fault) = match space.page_in(vpn, frame) {
        Ok(()) => return Ok(true),
        Err(refused) => refused,
    };
    if fault != PageInFault::NoMemory || space.state(vpn) != Some(PageState::Fresh) {
        return Ok(false);
    }
    again(space, vpn, frame)
}

fn again<L: Ledger, S: SwapSlot>(
    space: &mut Space<L, S>,
    vpn: u32,
    frame: Frame<L>,
) -> Result<bool, AllocError>
    requires { vpn < 2 ^ 20 }
{
    match space.page_in(vpn, frame) {
        Ok(()) => Ok(true),
        Err((_, PageInFault::NoMemory)) => Err(AllocError),
        Err(_) => Ok(false),
    }
}

/// Whether a changed page goes to a slot and comes back.
pub(crate) fn keeps_a_page<L: Ledger>(alloc: Global, blank: Blank) -> Result<bool, AllocError>
    requires name { blank.name ≡ L.name }
    requires parts { blank.parts ≡ L.parts }
    requires one_each { L.parts ≡ 5 }
{
    let mut spare = Some(MemorySlot::new(alloc)?);
    let mut room = Box::new(alloc, [0; 4096])?;
    let (mut space, mut frames) = begun::<L>(alloc, STORES_A_BYTE, blank)?;
    goes_and_comes(&mut space, &mut frames, &mut spare, &mut room)
}

fn goes_and_comes<L: Ledger>(
    space: &mut Space<L, MemorySlot>,
    frames: &mut FramePool<L>,
    spare: &mut Option<MemorySlot>,
    room: &mut Box<[u8; 4096]>,
) -> Result<bool, AllocError> {
    if !stores(space, frames)? {
        return Ok(false);
    }
    Ok(goes_out(space, spare, room) && comes_back(space))
}

/// A process of a source, and four frames.
fn begun<L: Ledger>(
    alloc: Global,
    source: &str,
    blank: Blank,
) -> Result<(Space<L, MemorySlot>, FramePool<L>), AllocError>
    requires name { blank.name ≡ L.name }
    requires parts { blank.parts ≡ L.parts }
    requires one_each { L.parts ≡ 5 }
{
    let image = image_of(alloc, source)?;
    let space = Space::new(alloc, 0, image, Vec::new(alloc))?;
    match FramePool::new(alloc, 4, blank) {
        Ok(frames) => Ok((space, frames)),
        Err(_) => Err(AllocError),
    }
}

/// Whether the process stores its byte, with both of its pages in frames, and the page of data begins to leave.
fn stores<L: Ledger>(
    space: &mut Space<L, MemorySlot>,
    frames: &mut FramePool<L>,
) -> Result<bool, AllocError> {
    if !page_in(space, frames, 0x10)? {
        return Ok(false);
    }
    if !page_in(space, frames, 0x11)? {
        return Ok(false);
    }
    if space.slice(0, 4).ran != 4 {
        return Ok(false);
    }
    Ok(space.begin_evict(0x11).is_ok())
}

/// Whether the page of data is saved.
fn goes_out<L: Ledger>(
    space: &mut Space<L, MemorySlot>,
    spare: &mut Option<MemorySlot>,
    room: &mut Box<[u8; 4096]>,
) -> bool {
    space.take_notices(0);
    let Collected::Dirty(job) = space.collect(0x11, spare, room) else {
        return false;
    };
    if space.saved(job.run(), room).is_err() {
        return false;
    }
    space.state(0x11) == Some(PageState::Away)
}

/// Whether the process ends, and its byte is where it was stored.
fn comes_back<L: Ledger>(space: &mut Space<L, MemorySlot>) -> bool {
    if space.slice(0, 100).stop != SliceStop::Ended {
        return false;
    }
    let mut bytes = [None];
    space.peek(0x1_1003, &mut bytes).is_ok() && bytes == [Some(5)]
}

/// What a process comes to by a slice.
#[derive(Clone, Copy)]
enum Onward {
    GoesOn,
    Refused,
    Ended,
    Astray,
}

/// Whether a process prints what it is to print, and has the page that it asked for. A slice that is refused memory goes on.
pub(crate) fn writes_and_breaks<L: Ledger>(alloc: Global, blank: Blank) -> Result<bool, AllocError>
    requires name { blank.name ≡ L.name }
    requires parts { blank.parts ≡ L.parts }
    requires one_each { L.parts ≡ 5 }
{
    let (mut space, mut frames) = begun::<L>(alloc, WRITES_AND_BREAKS, blank)?;
    ends_as_told(&mut space, &mut frames)
}

fn ends_as_told<L: Ledger>(
    space: &mut Space<L, MemorySlot>,
    frames: &mut FramePool<L>,
) -> Result<bool, AllocError> {
    let mut ran = 0u32;
    let mut refusals = 0u32;
    for _ in 0..8 {
        let slice = space.slice(0, 100);
        ran = ran.wrapping_add(slice.ran);
        match brought_on(space, frames, slice.stop)? {
            Onward::GoesOn => {}
            Onward::Refused => refusals = refusals.saturating_add(1),
            Onward::Ended => return Ok(ran == 14 && is_done(space)),
            Onward::Astray => return Ok(false),
        }
    }
    if refusals > 1 {
        Err(AllocError)
    } else {
        Ok(false)
    }
}

/// The page that a slice stopped for comes in.
fn brought_on<L: Ledger>(
    space: &mut Space<L, MemorySlot>,
    frames: &mut FramePool<L>,
    stop: SliceStop,
) -> Result<Onward, AllocError> {
    match stop {
        SliceStop::Ended => Ok(Onward::Ended),
        SliceStop::NoMemory => Ok(Onward::Refused),
        SliceStop::Absent(vpn) => brings_in(space, frames, vpn),
        _ => Ok(Onward::Astray),
    }
}

fn brings_in<L: Ledger>(
    space: &mut Space<L, MemorySlot>,
    frames: &mut FramePool<L>,
    vpn: u32,
) -> Result<Onward, AllocError> {
    if vpn >= 1 << 20 || !page_in(space, frames, vpn)? {
        return Ok(Onward::Astray);
    }
    Ok(Onward::GoesOn)
}

fn is_done<L: Ledger>(space: &mut Space<L, MemorySlot>) -> bool {
    let mut bytes = [None];
    let has_stored = space.peek(0x1_2FFD, &mut bytes).is_ok() && bytes == [Some(0x30)];
    has_stored && space.output().len() == 2048 && space.end() == Some(End::Exited(0))
}
