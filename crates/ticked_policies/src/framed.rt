//! Pages in their frames.

ghost use Rattle.std.specs.Prelude.{◌≡◌, ◌≤◌, ◌<◌, ◌++◌, ◌∷◌, [], false, length, slice_get, slice_set};
ghost use Rattle.std.specs.Prelude.{OnOk};
ghost use Rattle.ticked_policies.specs.Framed.{better, in_frames, lowest, noted, rank_in};
ghost use Rattle.ticked_policies.specs.Ticked.{each_ticked, rank_of, ticked_at};

use crate::marks::Marks;
use crate::ticked_rule::TickedRule;
use clock_policy::Key;
use indexmap::IndexMap;
use std::alloc::AllocError;

/// The page is used, if it is in a frame. Whether it was.
#[tactic(auto, using(crate::proofs::FramedLaws::nowhere, crate::proofs::FramedLaws::unnoted, crate::proofs::FramedLaws::somewhere, crate::proofs::FramedLaws::noted_there))]
pub(crate) fn note_use(pages: &mut IndexMap<Key, Marks>, page: Key, is_written: bool) -> bool
    ensures found { result ≡ in_frames page pages.old.entries }
    ensures used { pages.new.entries ≡ noted page is_written pages.old.entries }
{
    let Some(place) = pages.get_index_of(&page) else {
        return false;
    };
    if let Some(marks) = pages.get_index_mut(place) {
        *marks = marks.used_by(is_written);
    }
    true
}

/// A page that is in no frame comes into one that is free, after the others.
#[tactic(auto, using(crate::proofs::FramedLaws::entered))]
pub(crate) fn bring_in(
    pages: &mut IndexMap<Key, Marks>,
    page: Key,
    marks: Marks,
) -> Result<(), AllocError>
    requires { in_frames page pages.old.entries ≡ false }
    ensures { OnOk result (pages.new.entries ≡ pages.old.entries ++ (page, marks) ∷ []) }
{
    match pages.insert(page, marks) {
        Ok(_) => Ok(()),
        Err(_) => Err(AllocError),
    }
}

/// A page that is in no frame comes into this one, whose page leaves.
#[tactic(auto, using(crate::proofs::FramedLaws::replaced, crate::proofs::FramedLaws::pushed_long))]
pub(crate) fn replace(
    pages: &mut IndexMap<Key, Marks>,
    place: usize,
    page: Key,
    marks: Marks,
) -> Result<(), AllocError>
    requires new { in_frames page pages.old.entries ≡ false }
    requires place { place < length pages.old.entries }
    ensures { OnOk result (pages.new.entries ≡ slice_set pages.old.entries place (page, marks)) }
{
    bring_in(pages, page, marks)?;
    pages.swap_remove_index(place);
    Ok(())
}

/// The rank of the page in a frame.
fn rank_at(pages: &IndexMap<Key, Marks>, place: usize, rule: TickedRule) -> u64
    ensures { result ≡ rank_in (rank_of rule) (slice_get pages.now.entries place) }
{
    match pages.get_index(place) {
        Some((_, marks)) => rule.rank_of(*marks),
        None => 0,
    }
}

/// A later frame, if its page has a lesser rank than the best so far, which it is otherwise.
fn better(pages: &IndexMap<Key, Marks>, best: usize, place: usize, rule: TickedRule) -> usize
    ensures { result ≡ better (rank_of rule) pages.now.entries best place }
{
    if rank_at(pages, place, rule) < rank_at(pages, best, rule) {
        place
    } else {
        best
    }
}

/// The first frame whose page has the least rank.
#[tactic(auto, using(crate::proofs::FramedLaws::lowest_first, crate::proofs::FramedLaws::lowest_more, crate::proofs::FramedLaws::lowest_all, crate::proofs::FramedLaws::better_within))]
pub(crate) fn lowest(pages: &IndexMap<Key, Marks>, rule: TickedRule) -> usize
    requires { 1 ≤ length pages.now.entries }
    ensures place { result ≡ lowest (rank_of rule) pages.now.entries }
    ensures within { result < length pages.now.entries }
{
    let mut best = 0;
    'places: for place in 1..pages.len() {
        best = better(pages, best, place, rule);
    }
    best
}

/// A tick comes for the page in a frame.
#[tactic(auto, using(crate::proofs::FramedLaws::one_ticked, crate::proofs::FramedLaws::none_ticked))]
fn tick_at(pages: &mut IndexMap<Key, Marks>, place: usize, rule: TickedRule)
    ensures { pages.new.entries ≡ ticked_at rule place pages.old.entries }
{
    if let Some(marks) = pages.get_index_mut(place) {
        *marks = rule.ticked(*marks);
    }
}

/// A tick comes.
#[tactic(auto, using(crate::proofs::FramedLaws::ticked_more, crate::proofs::FramedLaws::ticked_long, crate::proofs::FramedLaws::all_ticked))]
pub(crate) fn tick(pages: &mut IndexMap<Key, Marks>, rule: TickedRule)
    ensures { pages.new.entries ≡ each_ticked rule pages.old.entries }
{
    'places: for place in 0..pages.len() {
        tick_at(pages, place, rule);
    }
}
