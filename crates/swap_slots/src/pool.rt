//! The pool of free slots: the one that was given back last is taken first.

ghost use Rattle.std.specs.Prelude.{◌≡◌, ◌≤◌, ◌<◌, ◌↔◌, [], ◌∷◌, ◌++◌, length, vec_len, IsTrue, OnOk, OnErr, IfErr, IsErr, IsNone, IfNone, IfSome};

use std::marker::Model;

/// The slots that are free, of those that the pool was made of.
#[derive(Drop)]
pub struct SlotPool<S> {
    free: Vec<S>,
    size: usize,
}

impl<S> Model for SlotPool<S> {
    ghost use Rattle.std.specs.Prelude.{◌≤◌, vec_len, vec_capacity};
    ghost use Rattle.swap_slots.specs.PoolValue.{PoolValue};

    ghost Value = { PoolValue S };

    ghost view = { λ p. record { free = p.free.items; size = p.size } };

    ghost invariant = { λ p. (vec_len p.free ≤ p.size) × (p.size ≤ vec_capacity p.free) };
}

impl<S> SlotPool<S> {
    /// The pool of these slots, all free.
    pub fn new(slots: Vec<S>) -> SlotPool<S>
        ensures free { result.free ≡ slots.items }
        ensures size { result.size ≡ vec_len slots }
    {
        SlotPool {
            size: slots.len(),
            free: slots,
        }
    }

    /// How many slots are free.
    pub fn len(&self) -> usize
        ensures free { result ≡ length self.now.free }
        ensures within { result ≤ self.now.size }
    {
        self.free.len()
    }

    /// Whether no slot is free.
    pub fn is_empty(&self) -> bool
        ensures { IsTrue result ↔ (self.now.free ≡ []) }
    {
        self.free.is_empty()
    }

    /// Of how many slots the pool was made.
    pub fn size(&self) -> usize
        ensures { result ≡ self.now.size }
    {
        self.size
    }

    /// A free slot, with what it held when it was given back. Takes constant time.
    pub fn take(&mut self) -> Option<S>
        ensures empty { IsNone result ↔ (self.old.free ≡ []) }
        ensures taken { IfSome result (λ slot. self.old.free ≡ self.new.free ++ slot ∷ []) }
        ensures none { IfNone result (self.new.free ≡ self.old.free) }
        ensures size { self.new.size ≡ self.old.size }
    {
        self.free.pop()
    }

    /// Gives a slot back. Where all are there it is another pool's, and is handed back. Takes constant time.
    pub fn give(&mut self, slot: S) -> Result<(), S>
        ensures full { IsErr result ↔ (length self.old.free ≡ self.old.size) }
        ensures ok { OnOk result (self.new.free ≡ self.old.free ++ slot ∷ []) }
        ensures handed_back { IfErr result (λ back. back ≡ slot) }
        ensures err { OnErr result (self.new.free ≡ self.old.free) }
        ensures size { self.new.size ≡ self.old.size }
    {
        if self.free.len() == self.size {
            return Err(slot);
        }
        self.put_back(slot);
        Ok(())
    }

    /// Gives a slot back for which there is room. Takes constant time.
    pub fn put_back(&mut self, slot: S)
        requires { length self.old.free < self.old.size }
        ensures { self.new ≡ record self.old { free = self.old.free ++ slot ∷ [] } }
    {
        self.free.push_reserved(slot);
    }
}
