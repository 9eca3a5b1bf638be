//! Pages that were written since they came in.

ghost use Rattle.std.specs.Prelude.{◌≡◌, ◌+◌, ◌≤◌, [], ◌∷◌, cond, false, nat_lt, IfOk, OnOk};
ghost use Rattle.std.specs.HashSet.{contains};
ghost use Rattle.clock_policy.specs.declared.key.Key.{Key};
ghost use Rattle.miss_counts.specs.Playing.{GoesOn};
ghost use Rattle.page_policies.specs.Strings.{is_page};
ghost use Rattle.miss_counts.specs.WriteBacks.{is_dirty, dirtied, dirty_after, write_backs};

use crate::player::Counting;
use clock_policy::Key;
use guest_strings::Reference;
use std::alloc::{AllocError, Global};
use std::collections::HashSet;

/// No page is dirty.
fn none_dirty(alloc: Global) -> HashSet<Key>
    ensures { (q : Key) → contains is_page result q ≡ false }
{
    HashSet::new(alloc)
}

/// A page that came in is not dirty any more.
fn clean(dirty: &mut HashSet<Key>, page: Key, is_miss: bool)
    ensures { (q : Key) → contains is_page dirty.new q ≡ cond (is_page page q) (is_dirty is_miss
        (contains is_page dirty.old) page) (contains is_page dirty.old q) }
{
    if is_miss {
        dirty.remove(&page);
    }
}

/// A reference, which missed or did not. How many pages it makes dirty: 1 or none.
fn note(dirty: &mut HashSet<Key>, reference: Reference, is_miss: bool) -> Result<usize, AllocError>
    ensures count { IfOk result (λ count. count ≡ dirtied is_miss (contains is_page dirty.old)
        reference) }
    ensures few { IfOk result (λ count. count ≤ 1) }
    ensures dirty { OnOk result ((q : Key) → contains is_page dirty.new q ≡ dirty_after is_miss
        (contains is_page dirty.old) reference q) }
{
    clean(dirty, reference.page, is_miss);
    if !reference.is_written {
        return Ok(0);
    }
    match dirty.insert(reference.page) {
        Ok(true) => Ok(1),
        Ok(false) => Ok(0),
        Err(_) => Err(AllocError),
    }
}

/// A page is used under a policy. Whether it missed.
fn misses_one<C: Counting>(player: &mut C, reference: Reference) -> Result<bool, AllocError>
    ensures miss { IfOk result (λ miss. miss ≡ nat_lt (C.all player.old []) (C.all player.new [])) }
    ensures few { OnOk result (C.all player.new [] ≤ C.all player.old [] + 1) }
    ensures goes_on { OnOk result (GoesOn C.all (reference ∷ []) player.old player.new) }
{
    let before = player.count();
    player.play(&[reference])?;
    Ok(before < player.count())
}

/// How many pages of a string are written back under a policy that begins.
pub fn write_backs<C: Counting>(
    alloc: Global,
    player: &mut C,
    string: &[Reference],
) -> Result<usize, AllocError>
    requires { C.all player.old [] ≡ 0 }
    ensures { IfOk result (λ count. count ≡ write_backs (C.all player.old) string.now) }
{
    let mut dirty = none_dirty(alloc);
    let mut count = 0;
    'references: for reference in string {
        let is_miss = misses_one(player, *reference)?;
        count += note(&mut dirty, *reference, is_miss)?;
    }
    Ok(count)
}
