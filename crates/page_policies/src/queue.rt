//! Pages in an order.

ghost use Rattle.std.specs.Prelude.{◌≡◌, ◌<◌, ◌^◌, [], cond, false, length, OnOk, OnErr, IfOk};
ghost use Rattle.page_policies.specs.Strings.{holds, without};
ghost use Rattle.page_policies.specs.Ordered.{to_front, last_of, but_last, at_most};

use clock_policy::Key;
use lru::LruCache;
use std::alloc::{AllocError, Global};
use std::marker::Model;

/// Pages in an order, none twice: a queue or a stack, in which each page is found at once. It takes memory for the pages that it has.
#[derive(Drop)]
pub struct Queue {
    pages: LruCache<Key, ()>,
}

/// Seen as the pages, from the front to the tail.
impl Model for Queue {
    ghost use Rattle.std.specs.Prelude.{◌≡◌, ◌-◌, ◌^◌, List};
    ghost use Rattle.std.specs.Map.{keys_of};
    ghost use Rattle.clock_policy.specs.declared.key.Key.{Key};

    ghost Value = { List Key };

    ghost view = { λ queue. keys_of queue.pages.entries };

    ghost invariant = { λ queue. queue.pages.cap ≡ 2 ^ 64 - 1 };
}

impl Queue {
    /// With no page.
    pub fn new(alloc: Global) -> Result<Queue, AllocError>
        ensures { IfOk result (λ queue. queue ≡ []) }
    {
        let pages = LruCache::unbounded(alloc)?;
        Ok(Queue { pages })
    }

    /// How many pages there are.
    pub fn len(&self) -> usize
        ensures len { result ≡ length self.now }
        ensures fits { result < 2 ^ 63 }
    {
        self.pages.len()
    }

    /// Whether the page is there.
    pub fn contains(&self, page: Key) -> bool
        ensures { result ≡ holds page self.now }
    {
        self.pages.contains(&page)
    }

    /// The page comes to the front, from wherever it was. Memory is wanted for a page that was nowhere, and then nothing changes.
    pub fn push(&mut self, page: Key) -> Result<(), AllocError>
        ensures order { OnOk result (self.new ≡ to_front page self.old) }
        ensures err { OnErr result (self.new ≡ self.old) }
        ensures memory { OnErr result (holds page self.old ≡ false) }
    {
        // For the proof only: a read shows how many pages there may be.
        let _ = self.pages.len();
        let Ok(_) = self.pages.put(page, ()) else {
            return Err(AllocError);
        };
        Ok(())
    }

    /// The page comes to the front where it is there, and answers whether it was.
    pub fn touch(&mut self, page: Key) -> bool
        ensures found { result ≡ holds page self.old }
        ensures order { self.new ≡ cond (holds page self.old) (to_front page self.old) self.old }
    {
        self.pages.promote(&page)
    }

    /// The page at the tail.
    pub fn last(&self) -> Option<Key>
        ensures { result ≡ last_of self.now }
    {
        match self.pages.peek_lru() {
            Some((page, _)) => Some(*page),
            None => None,
        }
    }

    /// Takes the page at the tail out.
    pub fn pop(&mut self) -> Option<Key>
        ensures page { result ≡ last_of self.old }
        ensures others { self.new ≡ but_last self.old }
    {
        match self.pages.pop_lru() {
            Some((page, ())) => Some(page),
            None => None,
        }
    }

    /// Takes the page out, wherever it is, and answers whether it was there.
    pub fn remove(&mut self, page: Key) -> bool
        ensures found { result ≡ holds page self.old }
        ensures others { self.new ≡ without page self.old }
    {
        self.pages.pop(&page).is_some()
    }
}

/// At most so many pages are left, where there is one more than that.
pub fn cut(queue: &mut Queue, most: usize)
    ensures { queue.new ≡ at_most most queue.old }
{
    if most < queue.len() {
        queue.pop();
    }
}
