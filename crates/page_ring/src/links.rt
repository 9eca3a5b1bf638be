//! A circle of entries by links: nodes in a slab, whose keys are the links.

ghost use Rattle.std.specs.Prelude.{◌≡◌, ◌≢◌, ◌+◌, ◌<◌, ◌++◌, ℕ, List, [], ◌∷◌, Some, None, true, false, length, IfOk, ◌≤◌, ◌==◌, cond};
ghost use Rattle.slab.specs.Slab.{get, slab_len, ContainsKey, HasRoomFor};
ghost use Rattle.clock_policy.specs.ClockPro.{has_key};
ghost use Rattle.page_ring.specs.declared.links.Node.{Node};
ghost use Rattle.page_ring.specs.Linked.{Cell, Circle, first_at, last_at, is_at, Changes, with_next, with_previous};

use clock_policy::{Entry, EntryKind, Key};
use slab::Slab;
use std::alloc::{AllocError, Global};
use std::marker::Model;

/// One entry with its neighbours.
#[derive(Clone, Copy, Debug)]
pub struct Node {
    pub entry: Entry,
    pub next: usize,
    pub previous: usize,
}

fn set_next(nodes: &mut Slab<Node>, at: usize, next: usize)
    ensures changes { Changes nodes.old nodes.new at (with_next next) }
    ensures none { get nodes.old at ≡ None → nodes.new ≡ nodes.old }
    ensures len { slab_len nodes.new ≡ slab_len nodes.old }
    ensures capacity { nodes.new.capacity ≡ nodes.old.capacity }
{
    if let Some(node) = nodes.get_mut(at) {
        node.next = next;
    }
}

fn set_previous(nodes: &mut Slab<Node>, at: usize, previous: usize)
    ensures changes { Changes nodes.old nodes.new at (with_previous previous) }
    ensures none { get nodes.old at ≡ None → nodes.new ≡ nodes.old }
    ensures len { slab_len nodes.new ≡ slab_len nodes.old }
    ensures capacity { nodes.new.capacity ≡ nodes.old.capacity }
{
    if let Some(node) = nodes.get_mut(at) {
        node.previous = previous;
    }
}

fn set_kind(nodes: &mut Slab<Node>, at: usize, kind: EntryKind)
    ensures set { (node : Node) → get nodes.old at ≡ Some node →
        get nodes.new at ≡ Some (record node { entry = record node.entry { kind = kind } }) }
    ensures others { (k : ℕ) → k ≢ at → get nodes.new k ≡ get nodes.old k }
    ensures none { get nodes.old at ≡ None → nodes.new ≡ nodes.old }
    ensures len { slab_len nodes.new ≡ slab_len nodes.old }
    ensures capacity { nodes.new.capacity ≡ nodes.old.capacity }
{
    if let Some(node) = nodes.get_mut(at) {
        node.entry.kind = kind;
    }
}

/// Takes a node out, and answers the one behind it.
fn unlink(nodes: &mut Slab<Node>, at: usize) -> usize
    requires { ContainsKey nodes.old at }
    ensures circle { (c : Cell) → (cs : List Cell) → c.at ≡ at → Circle nodes.old (c ∷ cs) →
        Circle nodes.new cs }
    ensures next { (c : Cell) → (cs : List Cell) → c.at ≡ at → Circle nodes.old (c ∷ cs) →
        result ≡ first_at cs at }
    ensures len { slab_len nodes.new + 1 ≡ slab_len nodes.old }
    ensures capacity { nodes.new.capacity ≡ nodes.old.capacity }
{
    let node = nodes.remove(at);
    set_next(nodes, node.previous, node.next);
    set_previous(nodes, node.next, node.previous);
    node.next
}

/// Links a node's neighbours with one another, past it, and answers the node, which stays.
fn pass_over(nodes: &mut Slab<Node>, at: usize) -> Node
    requires { ContainsKey nodes.old at }
    ensures node { get nodes.old at ≡ Some result }
    ensures circle { (c : Cell) → (cs : List Cell) → c.at ≡ at → Circle nodes.old (c ∷ cs) →
        Circle nodes.new cs }
    ensures kept { (k : ℕ) → ContainsKey nodes.old k → ContainsKey nodes.new k }
    ensures len { slab_len nodes.new ≡ slab_len nodes.old }
    ensures capacity { nodes.new.capacity ≡ nodes.old.capacity }
{
    let node = nodes[at];
    set_next(nodes, node.previous, node.next);
    set_previous(nodes, node.next, node.previous);
    node
}

fn set_node(nodes: &mut Slab<Node>, at: usize, node: Node)
    ensures set { ContainsKey nodes.old at → get nodes.new at ≡ Some node }
    ensures others { (k : ℕ) → k ≢ at → get nodes.new k ≡ get nodes.old k }
    ensures len { slab_len nodes.new ≡ slab_len nodes.old }
    ensures capacity { nodes.new.capacity ≡ nodes.old.capacity }
{
    if let Some(place) = nodes.get_mut(at) {
        *place = node;
    }
}

/// Makes a node outside the circle that begins at `front` its last, with this entry.
fn link_again(nodes: &mut Slab<Node>, front: usize, at: usize, entry: Entry)
    requires at { ContainsKey nodes.old at }
    requires front { ContainsKey nodes.old front }
    ensures circle { (d : Cell) → (ds : List Cell) → d.at ≡ front → is_at (d ∷ ds) at ≡ false →
        Circle nodes.old (d ∷ ds) → Circle nodes.new ((d ∷ ds) ++
        record { at = at; entry = entry } ∷ []) }
    ensures len { slab_len nodes.new ≡ slab_len nodes.old }
    ensures capacity { nodes.new.capacity ≡ nodes.old.capacity }
{
    let previous = nodes[front].previous;
    set_node(
        nodes,
        at,
        Node {
            entry,
            next: front,
            previous,
        },
    );
    set_next(nodes, previous, at);
    set_previous(nodes, front, at);
}

/// Adds a node as the last of the circle that begins at `front`.
#[inline(always)]
fn link_last(nodes: &mut Slab<Node>, front: usize, entry: Entry) -> usize
    requires room { HasRoomFor nodes.old 1 }
    requires front { ContainsKey nodes.old front }
    ensures circle { (d : Cell) → (ds : List Cell) → d.at ≡ front → Circle nodes.old (d ∷ ds) →
        Circle nodes.new ((d ∷ ds) ++ record { at = result; entry = entry } ∷ []) }
    ensures free { get nodes.old result ≡ None }
    ensures len { slab_len nodes.new ≡ slab_len nodes.old + 1 }
    ensures capacity { nodes.new.capacity ≡ nodes.old.capacity }
{
    let first = nodes[front];
    let at = nodes.insert_reserved(Node {
        entry,
        next: front,
        previous: first.previous,
    });
    set_next(nodes, first.previous, at);
    set_previous(nodes, front, at);
    at
}

/// Adds the only node of a circle.
fn link_alone(nodes: &mut Slab<Node>, entry: Entry) -> usize
    requires room { HasRoomFor nodes.old 1 }
    ensures circle { Circle nodes.new (record { at = result; entry = entry } ∷ []) }
    ensures len { slab_len nodes.new ≡ slab_len nodes.old + 1 }
    ensures capacity { nodes.new.capacity ≡ nodes.old.capacity }
{
    let at = nodes.vacant_key();
    nodes.insert_reserved(Node {
        entry,
        next: at,
        previous: at,
    })
}

fn is_of(entry: Entry, key: Key) -> bool
    ensures { result ≡ has_key key entry }
{
    entry.key.process == key.process && entry.key.vpn == key.vpn
}

/// The circle begins at `front`, where the hot hand stands. With no entry `front` names none.
#[derive(Drop)]
pub(crate) struct Links {
    nodes: Slab<Node>,
    front: usize,
}

impl Model for Links {
    ghost use Rattle.page_ring.specs.Chain.{Chain, cells_of, Held};

    ghost Value = { Chain };

    ghost view = { λ l. record { cells = cells_of l.nodes l.front; room = l.nodes.capacity } };

    ghost invariant = { λ l. Held l.nodes l.front (cells_of l.nodes l.front) };
}

impl Links {
    ghost use Rattle.page_ring.specs.Chain.{cells_of, of_kind, Rotates};
    ghost use Rattle.page_ring.specs.Linked.{DistinctNodes, is_at};
    ghost use Rattle.page_ring.specs.Index.{at_of};

    /// An empty circle with room for so many entries.
    pub(crate) fn new(alloc: Global, room: usize) -> Result<Self, AllocError>
        ensures cells { IfOk result (λ links. links.cells ≡ []) }
        ensures room { IfOk result (λ links. room ≤ links.room) }
    {
        Ok(Links {
            nodes: Slab::with_capacity(alloc, room)?,
            front: 0,
        })
    }

    pub(crate) fn len(&self) -> usize
        ensures len { result ≡ length self.now.cells }
        ensures apart { DistinctNodes self.now.cells }
    {
        self.nodes.len()
    }

    pub(crate) fn front(&self) -> usize
        ensures { (c : Cell) → (cs : List Cell) → self.now.cells ≡ c ∷ cs → result ≡ c.at }
    {
        self.front
    }

    #[inline(always)]
    pub(crate) fn node(&self, at: usize) -> Node
        requires { is_at self.now.cells at ≡ true }
        ensures { (c : Cell) → (cs : List Cell) → Rotates self.now.cells (c ∷ cs) → c.at ≡ at →
            result ≡ record { entry = c.entry; next = first_at cs at; previous = last_at at cs } }
    {
        self.nodes[at]
    }

    /// The node of a page's entry, by a walk along the circle from the front.
    #[inline(never)]
    pub(crate) fn search(&self, key: Key) -> Option<usize>
        ensures { result ≡ at_of key self.now.cells }
    {
        let mut at = self.front;
        for _passed in 0..self.nodes.len() {
            let node = self.nodes[at];
            if is_of(node.entry, key) {
                return Some(at);
            }
            at = node.next;
        }
        None
    }

    pub(crate) fn mark(&mut self, at: usize, kind: EntryKind)
        requires { is_at self.old.cells at ≡ true }
        ensures cells { (u v : List Cell) → (c : Cell) → self.old.cells ≡ u ++ c ∷ v → c.at ≡ at →
            self.new.cells ≡ u ++ of_kind kind c ∷ v }
        ensures apart { DistinctNodes self.new.cells }
        ensures room { self.new.room ≡ self.old.room }
    {
        set_kind(&mut self.nodes, at, kind);
    }

    /// The front becomes the last.
    pub(crate) fn turn(&mut self)
        requires { 1 ≤ length self.old.cells }
        ensures cells { (c : Cell) → (cs : List Cell) → self.old.cells ≡ c ∷ cs →
            self.new.cells ≡ cs ++ c ∷ [] }
        ensures apart { DistinctNodes self.new.cells }
        ensures room { self.new.room ≡ self.old.room }
    {
        self.front = self.nodes[self.front].next;
    }

    /// Adds an entry as the last, before the front.
    #[inline(always)]
    pub(crate) fn append(&mut self, entry: Entry) -> usize
        requires { length self.old.cells < self.old.room }
        ensures cells { self.new.cells ≡ self.old.cells ++ record { at = result; entry = entry } ∷
            [] }
        ensures fresh { is_at self.old.cells result ≡ false }
        ensures apart { DistinctNodes self.new.cells }
        ensures room { self.new.room ≡ self.old.room }
    {
        if self.nodes.is_empty() {
            self.front = link_alone(&mut self.nodes, entry);
            return self.front;
        }
        link_last(&mut self.nodes, self.front, entry)
    }

    /// Takes an entry out. A front that goes is followed by the next.
    pub(crate) fn remove(&mut self, at: usize)
        requires { is_at self.old.cells at ≡ true }
        ensures cells { (u v : List Cell) → (c : Cell) → self.old.cells ≡ u ++ c ∷ v → c.at ≡ at →
            self.new.cells ≡ u ++ v }
        ensures apart { DistinctNodes self.new.cells }
        ensures room { self.new.room ≡ self.old.room }
    {
        let next = unlink(&mut self.nodes, at);
        self.front = after(self.front, at, next);
    }

    /// An entry becomes the last, of this kind, and stays in its node.
    pub(crate) fn send_to_end(&mut self, at: usize, kind: EntryKind)
        requires { is_at self.old.cells at ≡ true }
        ensures cells { (u v : List Cell) → (c : Cell) → self.old.cells ≡ u ++ c ∷ v → c.at ≡ at →
            self.new.cells ≡ (u ++ v) ++ of_kind kind c ∷ [] }
        ensures apart { DistinctNodes self.new.cells }
        ensures room { self.new.room ≡ self.old.room }
    {
        if at == self.front {
            self.front = self.nodes[at].next;
            set_kind(&mut self.nodes, at, kind);
            return;
        }
        let key = pass_over(&mut self.nodes, at).entry.key;
        link_again(&mut self.nodes, self.front, at, Entry { key, kind });
    }
}

/// Where a hand rests once a node is out: on the next, if it stood there.
fn after(hand: usize, at: usize, next: usize) -> usize
    ensures { result ≡ cond (hand == at) next hand }
{
    if hand == at { next } else { hand }
}
