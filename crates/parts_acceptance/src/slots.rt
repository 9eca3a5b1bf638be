//! Slots and their pool.

use swap_slots::{FuseSlot, MemorySlot, SlotFault, SlotPool, SwapSlot};

/// Saves a page of a byte, and loads what the slot then gives.
fn through<S: SwapSlot>(slot: &mut S, byte: u8) -> Result<u8, SlotFault> {
    let mut page = [0; 4096];
    slot.save(&[byte; 4096])?;
    slot.load(&mut page)?;
    Ok(page[4095])
}

#[test]
fn slots_give_what_was_saved(rt: HostRuntime) {
    let mut memory = MemorySlot::new(rt.alloc()).expect(&rt, "no fault");
    let mut fuse = FuseSlot::new(rt.alloc(), 3).expect(&rt, "no fault");
    assert!(rt; (through(&mut memory, 7), memory.failures()) == (Ok(7), 0));
    assert!(rt; (through(&mut fuse, 7), fuse.failures()) == (Ok(7), 0));
    assert!(rt; (through(&mut fuse, 8), fuse.failures()) == (Err(SlotFault), 1));
    assert!(rt; (through(&mut fuse, 9), fuse.failures()) == (Err(SlotFault), 2));
}

#[test]
fn pool_gives_each_slot_once(rt: HostRuntime) {
    let mut slots = Vec::new(rt.alloc());
    slots
        .push(MemorySlot::new(rt.alloc()).expect(&rt, "no fault"))
        .expect(&rt, "no fault");
    slots
        .push(MemorySlot::new(rt.alloc()).expect(&rt, "no fault"))
        .expect(&rt, "no fault");
    let mut pool = SlotPool::new(slots);
    let slot = pool.take().expect(&rt, "no slot");
    assert!(rt; pool.take().is_some());
    assert!(rt; pool.take().is_none() && pool.is_empty());
    assert!(rt; pool.give(slot).is_ok());
    assert!(rt; (pool.len(), pool.size()) == (1, 2));
    assert!(rt;
        pool.give(MemorySlot::new(rt.alloc()).expect(&rt, "no fault"))
            .is_ok()
    );
    assert!(rt;
        pool.give(MemorySlot::new(rt.alloc()).expect(&rt, "no fault"))
            .is_err()
    );
}
