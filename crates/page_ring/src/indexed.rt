//! The links with an index from a page to its node.

ghost use Rattle.std.specs.Prelude.{◌≡◌, ◌≤◌, ◌<◌, ◌+◌, ◌++◌, ℕ, List, [], ◌∷◌, Some, None, true, false, length, IfOk};
ghost use Rattle.page_ring.specs.Linked.{Cell, DistinctNodes, is_at, first_at, last_at};
ghost use Rattle.page_ring.specs.Chain.{of_kind, Rotates};
ghost use Rattle.page_ring.specs.Index.{DistinctPages, at_of};

use crate::links::{Links, Node};
use crate::node_index::NodeIndex;
use clock_policy::{Entry, EntryKind, Key};
use std::alloc::{AllocError, Global};
use std::marker::Model;

/// A circle of entries, no two of one page.
#[derive(Drop)]
pub struct IndexedRing {
    links: Links,
    index: NodeIndex,
    /// Whether the index may lack pages: it found no room for one.
    lacks: bool,
}

impl Model for IndexedRing {
    ghost use Rattle.page_ring.specs.Chain.{Chain};
    ghost use Rattle.page_ring.specs.Index.{Indexed};

    ghost Value = { Chain };

    ghost view = { λ r. r.links };

    ghost invariant = { λ r. Indexed r.links.cells r.lacks r.index };
}

impl IndexedRing {
    /// An empty circle with room for so many entries.
    pub fn new(alloc: Global, room: usize) -> Result<Self, AllocError>
        ensures cells { IfOk result (λ ring. ring.cells ≡ []) }
        ensures room { IfOk result (λ ring. room ≤ ring.room) }
    {
        let links = Links::new(alloc, room)?;
        let index = NodeIndex::new(alloc, room)?;
        Ok(IndexedRing {
            links,
            index,
            lacks: false,
        })
    }

    /// How many entries there are.
    pub fn len(&self) -> usize
        ensures len { result ≡ length self.now.cells }
        ensures apart { DistinctNodes self.now.cells }
        ensures distinct { DistinctPages self.now.cells }
    {
        // For the proof alone: a read tells its invariant.
        let _ = &self.index;
        self.links.len()
    }

    /// The node of the first entry; any number where there is none.
    pub fn front(&self) -> usize
        ensures { (c : Cell) → (cs : List Cell) → self.now.cells ≡ c ∷ cs → result ≡ c.at }
    {
        self.links.front()
    }

    /// An entry with its neighbours: the next of the last is the front.
    #[inline(always)]
    pub fn node(&self, at: usize) -> Node
        requires { is_at self.now.cells at ≡ true }
        ensures { (c : Cell) → (cs : List Cell) → Rotates self.now.cells (c ∷ cs) → c.at ≡ at →
            result ≡ record { entry = c.entry; next = first_at cs at; previous = last_at at cs } }
    {
        self.links.node(at)
    }

    /// The node of a page's entry: by the index, or by a walk of the circle where the index may lack it.
    #[inline(always)]
    pub fn find(&self, key: Key) -> Option<usize>
        ensures { result ≡ at_of key self.now.cells }
    {
        match self.index.find(key) {
            Some(at) => Some(at),
            None if self.lacks => self.links.search(key),
            None => None,
        }
    }

    /// Gives an entry another kind, where it stands.
    pub fn mark(&mut self, at: usize, kind: EntryKind)
        requires { is_at self.old.cells at ≡ true }
        ensures cells { (u v : List Cell) → (c : Cell) → self.old.cells ≡ u ++ c ∷ v → c.at ≡ at →
            self.new.cells ≡ u ++ of_kind kind c ∷ v }
        ensures apart { DistinctNodes self.new.cells }
        ensures room { self.new.room ≡ self.old.room }
    {
        self.links.mark(at, kind);
    }

    /// The front becomes the last.
    pub fn turn(&mut self)
        requires { 1 ≤ length self.old.cells }
        ensures cells { (c : Cell) → (cs : List Cell) → self.old.cells ≡ c ∷ cs →
            self.new.cells ≡ cs ++ c ∷ [] }
        ensures apart { DistinctNodes self.new.cells }
        ensures room { self.new.room ≡ self.old.room }
    {
        self.links.turn();
    }

    /// Adds an entry of a new page as the last, before the front. It takes no memory that has to be there: a page for which the
    /// index finds no room is found by a walk of the circle.
    #[inline(always)]
    pub fn append(&mut self, entry: Entry) -> usize
        requires new { at_of entry.key self.old.cells ≡ None }
        requires room { length self.old.cells < self.old.room }
        ensures cells { self.new.cells ≡ self.old.cells ++ record { at = result; entry = entry } ∷
            [] }
        ensures fresh { is_at self.old.cells result ≡ false }
        ensures apart { DistinctNodes self.new.cells }
        ensures room { self.new.room ≡ self.old.room }
    {
        let at = self.links.append(entry);
        if self.index.insert(entry.key, at).is_err() {
            self.lacks = true;
        }
        at
    }

    /// Takes an entry out. A front that goes is followed by the next.
    pub fn remove(&mut self, at: usize)
        requires { is_at self.old.cells at ≡ true }
        ensures cells { (u v : List Cell) → (c : Cell) → self.old.cells ≡ u ++ c ∷ v → c.at ≡ at →
            self.new.cells ≡ u ++ v }
        ensures apart { DistinctNodes self.new.cells }
        ensures room { self.new.room ≡ self.old.room }
    {
        let key = self.links.node(at).entry.key;
        self.links.remove(at);
        self.index.remove(key);
    }

    /// An entry becomes the last, of this kind, and stays in its node.
    pub fn send_to_end(&mut self, at: usize, kind: EntryKind)
        requires { is_at self.old.cells at ≡ true }
        ensures cells { (u v : List Cell) → (c : Cell) → self.old.cells ≡ u ++ c ∷ v → c.at ≡ at →
            self.new.cells ≡ (u ++ v) ++ of_kind kind c ∷ [] }
        ensures apart { DistinctNodes self.new.cells }
        ensures room { self.new.room ≡ self.old.room }
    {
        self.links.send_to_end(at, kind);
    }
}
