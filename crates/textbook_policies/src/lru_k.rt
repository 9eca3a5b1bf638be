//! LRU-K.

ghost use Rattle.std.specs.Prelude.{◌≡◌, refl, [], None, IfOk, OnOk, List};
ghost use Rattle.std.specs.HashMap.{get};
ghost use Rattle.clock_policy.specs.declared.key.Key.{Key};
ghost use Rattle.page_policies.specs.Strings.{is_page, misses as misses_by};
ghost use Rattle.textbook_policies.specs.Ranks.{holds_ranked, rank_in};
ghost use Rattle.textbook_policies.specs.LruK.{usual_uses, noted, kth_of, others, with_history};
ghost use Rattle.textbook_policies.specs.LruK.{lru_k, in_lru_k, lru_k_misses, listed, uses_of};

use crate::lru_k_uses::LruKUses;
use crate::ranked::Ranked;
use crate::ranking::Ranking;
use clock_policy::Key;
use page_policies::{Frames, HitOrMiss, Policy, PolicyRefusal};
use std::alloc::{AllocError, Global};
use std::collections::HashMap;

/// LRU-K: the page leaves whose last use but K - 1 is longest ago. It remembers the last K uses of each page of the string.
#[derive(Drop)]
pub struct LruK {
    frames: usize,
    uses: LruKUses,
    pages: Ranking,
    history: HashMap<Key, Vec<u64>>,
    time: u64,
    alloc: Global,
}

/// No page was used.
fn no_history(alloc: Global) -> HashMap<Key, Vec<u64>>
    ensures { (q : Key) → listed (get is_page result q) ≡ [] }
{
    HashMap::new(alloc)
}

/// Takes the uses of a page out.
fn take_uses(alloc: Global, history: &mut HashMap<Key, Vec<u64>>, page: Key) -> Vec<u64>
    ensures uses { result.items ≡ listed (get is_page history.old page) }
    ensures others { (q : Key) → listed (get is_page history.new q) ≡ with_history page [] (λ r.
        listed (get is_page history.old r)) q }
{
    match history.remove(&page) {
        Some(uses) => uses,
        None => Vec::new(alloc),
    }
}

/// One use more, of which so many are kept.
fn note(uses: &mut Vec<u64>, k: usize, time: u64) -> Result<(), AllocError>
    ensures { OnOk result (uses.new.items ≡ noted k time uses.old.items) }
{
    uses.push(time)?;
    if k < uses.len() {
        uses.remove(0);
    }
    Ok(())
}

/// The last use but so many less one, 0 where there was none.
fn kth_of(uses: &Vec<u64>, k: usize) -> u64
    ensures { result ≡ kth_of k uses.now.items }
{
    if uses.len() < k {
        return 0;
    }
    match uses.get(uses.len() - k) {
        Some(time) => *time,
        None => 0,
    }
}

/// A page is used at this time. Its last use but so many less one.
fn note_use(
    alloc: Global,
    history: &mut HashMap<Key, Vec<u64>>,
    k: usize,
    time: u64,
    page: Key,
) -> Result<u64, AllocError>
    ensures kth { IfOk result (λ last. last ≡ kth_of k (noted k time (listed (get is_page history.old
        page)))) }
    ensures history { OnOk result ((q : Key) → listed (get is_page history.new q) ≡ with_history page
        (noted k time (listed (get is_page history.old page))) (λ r. listed (get is_page
        history.old r)) q) }
{
    let mut uses = take_uses(alloc, history, page);
    note(&mut uses, k, time)?;
    let last = kth_of(&uses, k);
    match history.insert(page, uses) {
        Ok(_) => Ok(last),
        Err(_) => Err(AllocError),
    }
}

/// The page is taken out where it is there, else there is room for it. Whether it was there.
fn take_or_make_room(pages: &mut Ranking, frames: usize, page: Key) -> bool
    ensures hit { result ≡ holds_ranked page pages.old }
    ensures others { pages.new ≡ others frames page pages.old }
    ensures gone { rank_in page pages.new ≡ None }
{
    let hit = pages.take(page).is_some();
    if !hit {
        pages.make_room(frames);
    }
    hit
}

impl LruK {
    /// With its frames empty, by so many uses.
    pub fn with_uses(alloc: Global, frames: Frames, uses: LruKUses) -> Result<Self, AllocError>
        ensures { IfOk result (λ policy. (string : List Key) → ⟦<LruK as Policy>⟧.to_miss policy
            string ≡ lru_k_misses uses frames.number string) }
    {
        Ok(LruK {
            frames: frames.number(),
            uses,
            pages: Ranking::new(alloc),
            history: no_history(alloc),
            time: 1,
            alloc,
        })
    }

    /// A page is used. Whether it was in a frame.
    fn step(&mut self, page: Key) -> Result<bool, AllocError>
        ensures hit { IfOk result (λ hit. hit ≡ in_lru_k page (uses_of self.old)) }
        ensures uses_of { OnOk result (uses_of self.new ≡ lru_k self.old.uses.k self.old.frames page
            (uses_of self.old)) }
        ensures frames { self.new.frames ≡ self.old.frames }
        ensures uses { self.new.uses ≡ self.old.uses }
    {
        let k = self.uses.k as usize;
        let last = note_use(self.alloc, &mut self.history, k, self.time, page)?;
        let hit = take_or_make_room(&mut self.pages, self.frames, page);
        self.pages.put(page, Ranked::new(last, self.time, page))?;
        self.time = self.time.saturating_add(1);
        Ok(hit)
    }
}

impl Policy for LruK {
    ghost use Rattle.std.specs.Prelude.{⊤};

    ghost misses = { lru_k_misses usual_uses };

    ghost to_miss = { λ policy string. misses_by in_lru_k (lru_k policy.uses.k policy.frames)
        (uses_of policy) string };

    ghost refuses = { λ number. ⊥ };

    ghost grows = { λ policy page. ⊤ };

    ghost none_to_miss = { λ policy. refl };

    fn new(alloc: Global, frames: Frames) -> Result<Self, PolicyRefusal> {
        Ok(LruK::with_uses(alloc, frames, LruKUses::USUAL)?)
    }

    fn refer(&mut self, page: Key) -> Result<HitOrMiss, AllocError> {
        if self.step(page)? {
            Ok(HitOrMiss::Hit)
        } else {
            Ok(HitOrMiss::Miss)
        }
    }
}
