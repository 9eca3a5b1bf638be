//! Frames and their pool.
ghost use Rattle.std.specs.Prelude.{◌≡◌, ◌+◌};

use frame_pool::{Frame, FramePool, PoolError, gather};
use std::alloc::Global;
use std::marker::Brand;
use std::process::Abort;
use std::sync::ledger::{Blank, Ledger};

fn take_all<L: Ledger>(rt: &impl Abort, alloc: Global, blank: Blank)
    requires name { blank.name ≡ L.name }
    requires parts { blank.parts ≡ L.parts }
    requires one_each { L.parts ≡ 5 }
{
    let mut pool = FramePool::<L>::new(alloc, 4, blank).expect(rt, "a pool");
    let mut taken = Vec::with_capacity(alloc, 4).expect(rt, "memory");
    for _ in 0..4 {
        take_one(rt, &mut pool, &mut taken);
    }
    all_differ(rt, alloc, taken.as_slice());
    assert!(rt; pool.is_empty());
    assert!(rt; pool.take().is_none());
    let last = taken.pop().expect(rt, "a frame");
    assert!(rt; pool.give(last).is_ok());
    assert!(rt; (pool.len(), pool.size()) == (1, 4));
    let mut all = pool.give_up();
    gather(taken, &mut all);
}

/// A frame is taken, whose bytes are zeros and may be written.
fn take_one<L: Ledger>(rt: &impl Abort, pool: &mut FramePool<L>, taken: &mut Vec<Frame<L>>) {
    let mut frame = pool.take().expect(rt, "a frame");
    assert!(rt; frame.bytes() == &[0; 4096]);
    frame.copy_from(&[7; 4096]);
    frame.bytes_mut()[1] = 8;
    assert!(rt; (frame.bytes()[0], frame.bytes()[1]) == (7, 8));
    assert!(rt; taken.push(frame).is_ok());
}

fn all_differ<L: Ledger>(rt: &impl Abort, alloc: Global, taken: &[Frame<L>]) {
    let mut numbers = Vec::new(alloc);
    for frame in taken {
        numbers.push(frame.number()).expect(rt, "memory");
    }
    numbers.sort().expect(rt, "memory");
    assert!(rt; numbers.as_slice() == [0, 1, 2, 3].as_slice());
}

/// A copy goes along with the frame's room, and comes back with it.
fn copy_one<L: Ledger>(rt: &impl Abort, alloc: Global, blank: Blank)
    requires name { blank.name ≡ L.name }
    requires parts { blank.parts ≡ L.parts }
    requires one_each { L.parts ≡ 5 }
{
    let mut pool = FramePool::<L>::new(alloc, 4, blank).expect(rt, "no fault");
    let mut frame = pool.take().expect(rt, "no frame");
    let number = frame.number();
    frame.bytes_mut()[3] = 7;
    let (bare, copy) = frame.copied();
    assert!(rt; (bare.number(), bare.bytes()[3], copy[3]) == (number, 7, 7));
    let frame = Frame::with_room(bare, copy);
    assert!(rt; (frame.bare().number(), frame.bytes()[3]) == (number, 7));
    pool.put_back(frame);
    assert!(rt; pool.len() == 4);
}

fn refused<L: Ledger>(alloc: Global, size: u32, blank: Blank) -> Option<PoolError>
    requires name { blank.name ≡ L.name }
    requires parts { blank.parts ≡ L.parts }
    requires one_each { L.parts ≡ size + 1 }
{
    FramePool::<L>::new(alloc, size, blank).err()
}

#[test]
fn gives_each_frame_once(rt: HostRuntime) {
    take_all::<Brand>(&rt, rt.alloc(), Blank::new(5));
}

#[test]
fn copies_into_its_own_room(rt: HostRuntime) {
    copy_one::<Brand>(&rt, rt.alloc(), Blank::new(5));
}

#[test]
fn refuses_bad_sizes(rt: HostRuntime) {
    let few = refused::<Brand>(rt.alloc(), 3, Blank::new(4));
    let many = refused::<Brand>(rt.alloc(), 4097, Blank::new(4098));
    assert!(rt; (few, many) == (Some(PoolError::BadSize), Some(PoolError::BadSize)));
}
