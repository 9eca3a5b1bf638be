//! Slots for tests: the one call that fails, and the one load that lies.

use std::process::Abort;
use swap_slots::{SlotFault, SwapSlot};
use test_slots::{BlinkSlot, FlipSlot};

/// What a load answers.
fn loaded<S: SwapSlot>(slot: &mut S) -> Result<[u8; 4096], SlotFault> {
    let mut page = [0; 4096];
    slot.load(&mut page)?;
    Ok(page)
}

/// Saves a page and loads it three times; the call of this number fails.
fn blinks(rt: &impl Abort, slot: &mut BlinkSlot, page: &[u8; 4096], failing: u64) {
    assert!(rt; slot.save(page).is_err() == (failing == 1));
    let kept = if failing == 1 { [0; 4096] } else { *page };
    for call in 2..5 {
        let answer = loaded(slot);
        let wanted = if failing == call {
            Err(SlotFault)
        } else {
            Ok(kept)
        };
        assert!(rt; answer == wanted);
    }
    assert!(rt; slot.failures() == failing.min(1));
}

#[test]
fn blinks_once(rt: HostRuntime) {
    let mut page = [11; 4096];
    page[4095] = 12;
    for failing in 0..4 {
        let mut slot = BlinkSlot::new(rt.alloc(), failing).expect(&rt, "no slot");
        blinks(&rt, &mut slot, &page, failing);
    }
}

/// Saves a page that begins with this byte, and loads it three times: the second time with another first byte.
fn lies(rt: &impl Abort, slot: &mut FlipSlot, first: u8, second: u8) {
    let mut page = [11; 4096];
    page[0] = first;
    let mut lie = page;
    lie[0] = second;
    assert!(rt; slot.save(&page) == Ok(()));
    for wanted in [page, lie, page] {
        assert!(rt; loaded(slot) == Ok(wanted));
    }
    assert!(rt; slot.failures() == 0);
}

#[test]
fn lies_once(rt: HostRuntime) {
    for (first, second) in [(12, 13), (13, 12)] {
        let mut slot = FlipSlot::new(rt.alloc(), 2).expect(&rt, "no slot");
        lies(&rt, &mut slot, first, second);
    }
}
