//! Random replacement.

ghost use Rattle.std.specs.Prelude.{◌≡◌, ◌≤◌, ◌<◌, ◌++◌, ◌∷◌, [], refl, false, length, List, IfOk, OnOk, OnErr};
ghost use Rattle.rand_pcg.specs.Pcg.{pcg32};
ghost use Rattle.clock_policy.specs.declared.key.Key.{Key};
ghost use Rattle.page_policies.specs.Strings.{holds, misses as misses_by};
ghost use Rattle.page_policies.specs.Random.{place_of, drawn, room_drawn, joined, in_random};
ghost use Rattle.page_policies.specs.Random.{random, random_misses, usual_seed, pages_of};

use crate::frames::Frames;
use crate::policy::{HitOrMiss, Policy};
use crate::random_state::RandomPolicy;
use crate::refusal::PolicyRefusal;
use clock_policy::Key;
use indexmap::IndexSet;
use rand_core::utils::NextWord;
use rand_pcg::Pcg32;
use std::alloc::{AllocError, Global};

/// Whether the page is there.
fn is_in(pages: &IndexSet<Key>, page: Key) -> bool
    ensures { result ≡ holds page pages.now.keys }
{
    pages.contains(&page)
}

/// A place among so many.
fn draw(generator: &mut Pcg32, count: usize) -> usize
    requires { 1 ≤ count }
    ensures place { result ≡ place_of (pcg32 generator.old).0 count }
    ensures generator { generator.new ≡ (pcg32 generator.old).1 }
{
    generator.next_word() as usize % count
}

/// The seed where no other is asked for.
pub const USUAL_SEED: u64 = 42;

impl RandomPolicy {
    /// With its frames empty, by a generator of this seed.
    #[tactic(auto, unfolding(crate::specs::Random::random_misses))]
    pub fn with_seed(alloc: Global, frames: Frames, seed: u64) -> Self
        ensures { (string : List Key) → ⟦<RandomPolicy as Policy>⟧.to_miss result string ≡
            random_misses seed frames.number string }
    {
        RandomPolicy {
            frames: frames.number(),
            pages: IndexSet::new(alloc),
            generator: Pcg32::new(seed, 54),
        }
    }

    /// A page that is drawn leaves.
    fn draw_out(&mut self)
        requires { 1 ≤ length self.old.pages.keys }
        ensures pages { pages_of self.new ≡ drawn (pages_of self.old) }
        ensures frames { self.new.frames ≡ self.old.frames }
    {
        let count = self.pages.len();
        let place = draw(&mut self.generator, count);
        self.pages.swap_remove_index(place);
    }

    /// Room for one page.
    fn make_room(&mut self)
        ensures pages { pages_of self.new ≡ room_drawn self.old.frames (pages_of self.old) }
        ensures frames { self.new.frames ≡ self.old.frames }
    {
        if self.pages.len() < self.frames {
            return;
        }
        self.draw_out();
    }

    /// A page comes in that is in no frame.
    fn join(&mut self, page: Key) -> Result<(), AllocError>
        requires { holds page self.old.pages.keys ≡ false }
        ensures pages { OnOk result (pages_of self.new ≡ joined page (pages_of self.old)) }
        ensures frames { self.new.frames ≡ self.old.frames }
    {
        match self.pages.insert(page) {
            Ok(_) => Ok(()),
            Err(_) => Err(AllocError),
        }
    }

    /// A page is used. Whether it was in a frame.
    fn step(&mut self, page: Key) -> Result<bool, AllocError>
        ensures hit { IfOk result (λ hit. hit ≡ in_random page (pages_of self.old)) }
        ensures pages { OnOk result (pages_of self.new ≡ random self.old.frames page (pages_of
            self.old)) }
        ensures memory { OnErr result (in_random page (pages_of self.old) ≡ false) }
        ensures frames { self.new.frames ≡ self.old.frames }
    {
        if is_in(&self.pages, page) {
            return Ok(true);
        }
        self.make_room();
        self.join(page)?;
        Ok(false)
    }
}

impl Policy for RandomPolicy {
    ghost misses = { random_misses usual_seed };

    ghost to_miss = { λ policy string. misses_by in_random (random policy.frames) (pages_of policy)
        string };

    ghost refuses = { λ number. ⊥ };

    ghost grows = { λ policy page. in_random page (pages_of policy) ≡ false };

    ghost none_to_miss = { λ policy. refl };

    fn new(alloc: Global, frames: Frames) -> Result<Self, PolicyRefusal> {
        Ok(RandomPolicy::with_seed(alloc, frames, USUAL_SEED))
    }

    fn refer(&mut self, page: Key) -> Result<HitOrMiss, AllocError> {
        if self.step(page)? {
            Ok(HitOrMiss::Hit)
        } else {
            Ok(HitOrMiss::Miss)
        }
    }
}
