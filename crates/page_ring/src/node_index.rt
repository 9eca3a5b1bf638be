//! An index from a page to its node.

ghost use Rattle.std.specs.Prelude.{◌≡◌, ◌≤◌, ◌<◌, ◌^◌, ◌⊎◌, length, cond, Some, None, IfOk, OnOk, OnErr, vec_len};
ghost use Rattle.page_ring.specs.Slots.{first_slot, same_key, index_slot, in_slot, IsSlotTaken};

use clock_policy::Key;
use std::alloc::{AllocError, Global};
use std::collections::HashMap;

/// A page and its node.
#[derive(Clone, Copy, Debug)]
pub(crate) struct IndexedNode {
    key: Key,
    at: u32,
}

impl IndexedNode {
    #[inline(always)]
    fn is_of(self, key: Key) -> bool
        ensures { result ≡ same_key self.key key }
    {
        self.key.process == key.process && self.key.vpn == key.vpn
    }
}

/// 2 ^ 32 over the golden ratio, and odd: its multiples below 2 ^ 32 stand apart, however many there are.
const SPREAD: u32 = 0x9E37_79B1;

/// The slot from which on the pages of a process have theirs, in a table of so many. However many processes there are, each has
/// some half of a fair part of the table before the next one begins.
#[inline(always)]
fn first_slot(process: u32, slots: usize) -> usize
    ensures { result ≡ first_slot process slots }
{
    (u64::from(process.wrapping_mul(SPREAD)).wrapping_mul(slots as u64) >> 32) as usize
}

/// A table with a slot for each page, by its number, and a map of the pages whose slot was taken.
#[derive(Drop)]
pub(crate) struct NodeIndex {
    slots: Vec<Option<IndexedNode>>,
    others: HashMap<Key, usize>,
    ghost some: { 1 ≤ vec_len slots },
}

impl NodeIndex {
    ghost use Rattle.page_ring.specs.Index.{node_of, Parted};

    /// No page is there. The table has two slots or more for each page that there is room for, up to a bound.
    pub(crate) fn new(alloc: Global, room: usize) -> Result<Self, AllocError>
        ensures none { IfOk result (λ index. (k : Key) → node_of k index ≡ None) }
        ensures parted { IfOk result Parted }
    {
        let slots = vec![in alloc; None; (2 * room.min(1 << 20)).next_power_of_two()]?;
        let others = HashMap::with_capacity(alloc, room)?;
        Ok(NodeIndex { slots, others })
    }

    /// The slot of a page. Neighbours have slots side by side, and so have pages at a distance that is a power of two, once
    /// the low bits of their numbers are all alike; each process begins in a part of its own.
    #[inline(always)]
    #[tactic(auto, unfolding(crate::specs::Slots::index_slot))]
    fn slot(&self, key: Key) -> usize
        ensures slot { result ≡ index_slot key (length self.now.slots.items) }
        ensures within { result < vec_len self.now.slots }
    {
        let slots = self.slots.len();
        let high = key.vpn.wrapping_shr(slots.trailing_zeros());
        first_slot(key.process, slots).wrapping_add((key.vpn ^ high) as usize) & (slots - 1)
    }

    /// The node of a page.
    #[inline(always)]
    pub(crate) fn find(&self, key: Key) -> Option<usize>
        ensures { result ≡ node_of key self.now }
    {
        if let Some(indexed) = self.slots[self.slot(key)] {
            if indexed.is_of(key) {
                return Some(indexed.at as usize);
            }
        }
        if self.others.is_empty() {
            return None;
        }
        self.others.get(&key).map(|at| *at)
    }

    /// Adds a page, to its slot where that is free. Memory is taken only where another page has the slot, or for a node beyond 32 bits.
    #[inline(always)]
    pub(crate) fn insert(&mut self, key: Key, at: usize) -> Result<(), AllocError>
        requires new { node_of key self.old ≡ None }
        requires parted { Parted self.old }
        ensures put { OnOk result ((k : Key) → node_of k self.new ≡ cond (same_key key k) (Some at)
            (node_of k self.old)) }
        ensures err { OnErr result ((k : Key) → node_of k self.new ≡ node_of k self.old) }
        ensures taken { OnErr result (IsSlotTaken self.old.slots.items key ⊎ 2 ^ 32 ≤ at) }
        ensures parted { Parted self.new }
    {
        let slot = self.slot(key);
        if self.slots[slot].is_none() {
            if let Ok(at) = u32::try_from(at) {
                self.slots[slot] = Some(IndexedNode { key, at });
                return Ok(());
            }
        }
        self.insert_other(key, at)
    }

    #[inline(never)]
    fn insert_other(&mut self, key: Key, at: usize) -> Result<(), AllocError>
        requires new { node_of key self.old ≡ None }
        requires parted { Parted self.old }
        ensures put { OnOk result ((k : Key) → node_of k self.new ≡ cond (same_key key k) (Some at)
            (node_of k self.old)) }
        ensures err { OnErr result ((k : Key) → node_of k self.new ≡ node_of k self.old) }
        ensures parted { Parted self.new }
    {
        match self.others.insert(key, at) {
            Ok(_) => Ok(()),
            Err(_) => Err(AllocError),
        }
    }

    /// Takes a page out.
    #[inline(always)]
    pub(crate) fn remove(&mut self, key: Key)
        requires { Parted self.old }
        ensures taken { (k : Key) → node_of k self.new ≡ cond (same_key key k) None
            (node_of k self.old) }
        ensures parted { Parted self.new }
    {
        let slot = self.slot(key);
        if self.slots[slot].is_some_and(|indexed| indexed.is_of(key)) {
            self.slots[slot] = None;
        } else {
            self.others.remove(&key);
        }
    }
}
