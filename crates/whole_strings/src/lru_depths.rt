//! LRU's misses with every number of frames.

ghost use Rattle.std.specs.Prelude.{◌≡◌, ◌<◌, ◌^◌, ℕ, None, length, slice_index_or, IfOk, OnOk};
ghost use Rattle.clock_policy.specs.declared.key.Key.{Key};
ghost use Rattle.std.specs.HashMap.{get};
ghost use Rattle.page_policies.specs.Strings.{is_page};
ghost use Rattle.whole_strings.specs.LruDepths.{IsLruCurve, noted, referred, tails};
ghost use Rattle.whole_strings.specs.LastPlaces.{sum_from, AreSummed, MayLeave, Left};

use crate::last_places::LastPlaces;
use crate::string_uses::note;
use clock_policy::Key;
use std::alloc::{AllocError, Global};
use std::collections::HashMap;

/// One hit more at this depth.
pub(crate) fn note_hit(hits: &mut [usize], at: usize)
    requires inside { at < length hits.old }
    requires small { slice_index_or hits.old at 0 < 2 ^ 63 }
    ensures { hits.new ≡ noted at hits.old }
{
    hits[at] += 1;
}

/// One hit more at this depth; or a page more, which did not hit.
pub(crate) fn note_depth(hits: &mut Vec<usize>, depth: usize) -> Result<(), AllocError>
    requires { (d : ℕ) → d < length hits.old.items → slice_index_or hits.old.items d 0 < 2 ^ 63 }
    ensures { OnOk result (hits.new.items ≡ referred depth hits.old.items) }
{
    if depth < hits.len() {
        note_hit(hits.as_mut_slice(), depth);
        return Ok(());
    }
    hits.push(0)?;
    Ok(())
}

/// No page was used.
fn no_uses(alloc: Global) -> HashMap<Key, usize>
    ensures { (q : Key) → get is_page result q ≡ None }
{
    HashMap::new(alloc)
}

/// How many pages were used since this one was; for one that was not used, as many as there are. Its last use counts no more.
fn leave(ends: &HashMap<Key, usize>, places: &mut LastPlaces, page: Key, pages: usize) -> usize
    requires known { MayLeave (get is_page ends.now page) places.old }
    requires sums { AreSummed places.old }
    requires small { sum_from 0 places.old.places.items < 2 ^ 63 }
    ensures { Left (get is_page ends.now page) pages places.old places.new result }
{
    match ends.get(&page) {
        Some(last) => {
            let at = *last;
            let depth = places.behind(at);
            places.remove(at);
            depth
        }
        None => pages,
    }
}

/// How many references find their page at each depth of the stack of all pages by their last use.
fn count_hits(alloc: Global, string: &[Key]) -> Result<Vec<usize>, AllocError>
    ensures { IfOk result (λ hits. IsLruCurve (tails (length string.now) hits.items) string.now) }
{
    let mut places = LastPlaces::new(alloc, string.len())?;
    let mut ends = no_uses(alloc);
    let mut hits = Vec::new(alloc);
    'references: for seen in 0..string.len() {
        let page = string[seen];
        let depth = leave(&ends, &mut places, page, hits.len());
        places.add(seen);
        note_depth(&mut hits, depth)?;
        note(&mut ends, page, seen)?;
    }
    Ok(hits)
}

/// From so many misses without frames those with 1, 2, 3 and more of them.
fn fall(hits: &mut [usize], references: usize)
    ensures { hits.new ≡ tails references hits.old }
{
    let mut left = references;
    'depths: for at in 0..hits.len() {
        left = left.saturating_sub(hits[at]);
        hits[at] = left;
    }
}

/// What LRU misses of a string with 1, 2, 3 and more frames, up to as many as the string has pages, with which and with more each page
/// misses once. It takes one pass over the string, and for each reference about the same time, however many pages were used since its own was.
pub fn lru_curve(alloc: Global, string: &[Key]) -> Result<Vec<usize>, AllocError>
    ensures { IfOk result (λ curve. IsLruCurve curve.items string.now) }
{
    let mut curve = count_hits(alloc, string)?;
    fall(curve.as_mut_slice(), string.len());
    Ok(curve)
}
