//! The ring of entries with its index.

use clock_policy::{Entry, EntryKind, Key};
use page_ring::IndexedRing;

#[test]
fn finds_what_was_put_in(rt: HostRuntime) {
    let mut ring = IndexedRing::new(rt.alloc(), 2).expect(&rt, "no fault");
    let key = Key { process: 1, vpn: 7 };
    let other = Key { process: 7, vpn: 1 };
    assert!(rt; (ring.len(), ring.find(key)) == (0, None));
    let at = ring.append(Entry {
        key,
        kind: EntryKind::Test,
    });
    assert!(rt; (ring.len(), ring.front()) == (1, at));
    assert!(rt; (ring.find(key), ring.find(other)) == (Some(at), None));
}
