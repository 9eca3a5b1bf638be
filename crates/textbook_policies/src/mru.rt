//! MRU.

ghost use Rattle.std.specs.Prelude.{◌≡◌, ◌∷◌, refl, false, IfOk, OnOk, OnErr};
ghost use Rattle.page_policies.specs.Strings.{holds, misses as misses_by};
ghost use Rattle.textbook_policies.specs.Mru.{mru, mru_misses, recent_of, room_made};

use clock_policy::Key;
use page_policies::{Frames, HitOrMiss, Policy, PolicyRefusal, Queue};
use std::alloc::{AllocError, Global};

/// Most recently used: the page whose use is latest leaves.
#[derive(Drop)]
pub struct Mru {
    frames: usize,
    pages: Queue,
    recent: Option<Key>,
    ghost front: { recent ≡ recent_of pages },
}

/// A page that is not there comes in. Where each frame has a page, the one that was used last leaves.
#[tactic(auto, using(crate::proofs::MruLaws::replaced, crate::proofs::MruLaws::came, crate::proofs::MruLaws::first))]
fn bring_in(
    pages: &mut Queue,
    frames: usize,
    recent: Option<Key>,
    page: Key,
) -> Result<(), AllocError>
    requires new { holds page pages.old ≡ false }
    requires recent { recent ≡ recent_of pages.old }
    ensures pages { OnOk result (pages.new ≡ page ∷ room_made frames pages.old) }
    ensures err { OnErr result (pages.new ≡ pages.old) }
{
    let is_full = frames <= pages.len();
    pages.push(page)?;
    if !is_full {
        return Ok(());
    }
    if let Some(last) = recent {
        pages.remove(last);
    }
    Ok(())
}

impl Mru {
    /// A page is used. Whether it was in a frame.
    fn step(&mut self, page: Key) -> Result<bool, AllocError>
        ensures hit { IfOk result (λ hit. hit ≡ holds page self.old.pages) }
        ensures pages { OnOk result (self.new.pages ≡ mru self.old.frames page self.old.pages) }
        ensures memory { OnErr result (holds page self.old.pages ≡ false) }
        ensures frames { self.new.frames ≡ self.old.frames }
    {
        let hit = self.pages.touch(page);
        if !hit {
            bring_in(&mut self.pages, self.frames, self.recent, page)?;
        }
        self.recent = Some(page);
        Ok(hit)
    }
}

impl Policy for Mru {
    ghost misses = { mru_misses };

    ghost to_miss = { λ policy string. misses_by holds (mru policy.frames) policy.pages string };

    ghost refuses = { λ number. ⊥ };

    ghost grows = { λ policy page. holds page policy.pages ≡ false };

    ghost none_to_miss = { λ policy. refl };

    #[tactic(auto, unfolding(crate::specs::Mru::mru_misses))]
    fn new(alloc: Global, frames: Frames) -> Result<Self, PolicyRefusal> {
        Ok(Mru {
            frames: frames.number(),
            pages: Queue::new(alloc)?,
            recent: None,
        })
    }

    fn refer(&mut self, page: Key) -> Result<HitOrMiss, AllocError> {
        if self.step(page)? {
            Ok(HitOrMiss::Hit)
        } else {
            Ok(HitOrMiss::Miss)
        }
    }
}
