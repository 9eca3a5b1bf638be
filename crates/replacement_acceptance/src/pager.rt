//! Frames and the replacement list together, over the plain list.

ghost use Rattle.std.specs.Prelude.{◌≡◌};

use clock_list::ClockList;
use clock_policy::{Bit, Key, Verdict};
use pager_core::{AdmitRefusal, Pager};
use std::alloc::Global;
use std::marker::Brand;
use std::process::Abort;
use std::sync::ledger::{Blank, Ledger};

fn page(vpn: u32) -> Key {
    Key { process: 0, vpn }
}

fn admits_as_many<L: Ledger>(rt: &impl Abort, alloc: Global, pager: &mut Pager<L, ClockList>) {
    let mut frames = Vec::with_capacity(alloc, 4).expect(rt, "no frames");
    for vpn in 1..5 {
        let frame = pager.admit(page(vpn)).expect(rt, "not admitted");
        frames.push(frame).expect(rt, "no frames");
    }
    assert!(rt; pager.admit(page(5)).err() == Some(AdmitRefusal::NoFrame));
    assert!(rt; pager.admit(page(1)).err() == Some(AdmitRefusal::AlreadyResident));
    assert!(rt; pager.answer(Bit::Zero) == Ok(Verdict::Victim(page(1))));

    // The victim's frame is not given back yet.
    assert!(rt; pager.admit(page(5)).err() == Some(AdmitRefusal::NoFrame));
    let frame = frames.pop().expect(rt, "no frame");
    assert!(rt; pager.free(frame).is_ok());
    let frame = pager.admit(page(5)).expect(rt, "not admitted");
    frames.push(frame).expect(rt, "no frames");
    let counts = pager.counts();
    assert!(rt;
        (
            counts.free,
            counts.tallies.page_ins,
            counts.tallies.victims,
            counts.tallies.questions
        ) == (0, 5, 1, 1)
    );
    assert!(rt; pager.purge(0) == 5);
}

fn admits_as_many_as_frames<L: Ledger>(rt: &impl Abort, alloc: Global, blank: Blank)
    requires name { blank.name ≡ L.name }
    requires parts { blank.parts ≡ L.parts }
    requires one_each { L.parts ≡ 5 }
{
    let mut pager = Pager::<L, ClockList>::new(alloc, 4, blank).expect(rt, "no pager");
    admits_as_many(rt, alloc, &mut pager);
}

#[test]
fn a_pager_admits_as_many_pages_as_frames(rt: HostRuntime) {
    admits_as_many_as_frames::<Brand>(&rt, rt.alloc(), Blank::new(5));
}
