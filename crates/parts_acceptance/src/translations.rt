//! Tests of a translation cache: which entry goes first, and for which accesses a page is ready, until when.

ghost use Rattle.std.specs.Prelude.{◌≡◌, true};
ghost use Rattle.page_memory.specs.Rights.{may};
ghost use Rattle.page_memory.specs.Words.{page_number};
ghost use Rattle.page_memory.specs.declared.words.Access.{Access};

use page_memory::{Access, Rights, Width};
use tlb_core::{Tlb, Translation};

fn entry(page: u32, frame: u32) -> Translation
    ensures page { result.page ≡ page }
    ensures place { result.place ≡ 0 }
    ensures readable { may Access.Load result.rights ≡ true }
{
    Translation {
        page,
        place: 0,
        frame,
        rights: Rights::READ,
        dirty: false,
        doomed: false,
    }
}

#[test]
fn the_oldest_goes_first(rt: HostRuntime) {
    let mut cache = Tlb::new();
    for page in 0..17 {
        cache.fill(entry(page, page));
    }
    assert!(rt; !cache.holds(0) && cache.holds(1));
    cache.fill(entry(1, 99));
    assert!(rt; cache.look(1).map(|found| found.frame) == Some(99));
    // Pages 2 and 258 share a hint.
    cache.fill(entry(258, 7));
    assert!(rt; !cache.holds(1));
    assert!(rt; cache.look(2).map(|found| found.frame) == Some(2));
    assert!(rt; cache.look(258).map(|found| found.frame) == Some(7));
    cache.doom(258);
    cache.doom(3);
    assert!(rt; cache.holds(258));
    cache.drop_doomed();
    assert!(rt; !cache.holds(258) && !cache.holds(3) && cache.holds(4));
    assert!(rt; cache.entries().len() == 14);
    cache.clear();
    assert!(rt; !cache.holds(4));
}

#[derive(Clone, Copy)]
enum Change {
    AnotherIsFilled,
    Refilled,
    TheOldestGoes,
    Marked,
    MarkedAreDropped,
    Cleared,
}

fn apply(cache: &mut Tlb, change: Change) {
    match change {
        Change::AnotherIsFilled => cache.fill(entry(34, 1)),
        Change::Refilled => cache.fill(entry(2, 1)),
        Change::TheOldestGoes => {
            for page in 3..19 {
                cache.fill(entry(page, page));
            }
        }
        Change::Marked => cache.doom(2),
        Change::MarkedAreDropped => {
            cache.doom(2);
            cache.drop_doomed();
        }
        Change::Cleared => cache.clear(),
    }
}

/// A cache with only an entry of page 2, which is ready for loads.
#[tactic(auto, using(tlb_core::proofs::CacheLaws::hits_filled))]
fn ready_at(address: u32) -> Tlb
    requires { page_number address ≡ 2 }
{
    let mut cache = Tlb::new();
    cache.fill(entry(2, 2));
    cache.remember(Access::Load, address, 0);
    cache
}

#[test]
fn a_page_is_ready_until_its_entry_goes(rt: HostRuntime) {
    for (change, stays) in [
        (Change::AnotherIsFilled, true),
        (Change::Refilled, false),
        (Change::TheOldestGoes, false),
        (Change::Marked, true),
        (Change::MarkedAreDropped, false),
        (Change::Cleared, false),
    ] {
        let mut cache = ready_at(0x2ffc);
        apply(&mut cache, change);
        let ready = cache.ready(Access::Load, Width::Half, 0x2002).is_some();
        assert!(rt; ready == stays);
    }
}

#[test]
fn a_page_is_ready_for_an_aligned_access_of_its_kind(rt: HostRuntime) {
    let cache = ready_at(0x2000);
    for (access, width, address, ready) in [
        (Access::Load, Width::Word, 0x2000, true),
        (Access::Load, Width::Byte, 0x2fff, true),
        (Access::Load, Width::Half, 0x2fff, false),
        (Access::Load, Width::Word, 0x2ffe, false),
        (Access::Load, Width::Word, 0x3000, false),
        (Access::Store, Width::Word, 0x2000, false),
        (Access::Fetch, Width::Word, 0x2000, false),
    ] {
        assert!(rt; cache.ready(access, width, address).is_some() == ready);
    }
}
