//! How often pages were used, in little memory.

ghost use Rattle.std.specs.Prelude.{◌≡◌, ◌≤◌, ◌<◌, ◌+◌, ◌*◌, ◌/◌, ◌==◌, cond, length, map};
ghost use Rattle.std.specs.Prelude.{replicate, IfOk};
ghost use Rattle.tiny_lfu.specs.Sketch.{least_at, estimate, raised, all_raised, noted, counted};
ghost use Rattle.tiny_lfu.specs.Sketch.{most_width};
ghost use Rattle.tiny_lfu.specs.WTinyLfu.{sketch_of};

use crate::places::{Places, places_of};
use crate::sketch_state::Sketch;
use clock_policy::Key;
use std::alloc::{AllocError, Global};

/// The greatest count.
const MOST_COUNT: u8 = 15;

/// The least of a page's counts.
fn least_at(counts: &[u8], at: Places) -> u8
    requires first { at.first < length counts.now }
    requires second { at.second < length counts.now }
    requires third { at.third < length counts.now }
    requires fourth { at.fourth < length counts.now }
    ensures { result ≡ least_at at counts.now }
{
    let (first, second) = (counts[at.first], counts[at.second]);
    let (third, fourth) = (counts[at.third], counts[at.fourth]);
    first.min(second).min(third.min(fourth))
}

/// A count, one higher where it is the least one.
fn higher(count: u8, least: u8) -> u8
    requires { least < 15 }
    ensures { result ≡ cond (count == least) (least + 1) count }
{
    if count == least { least + 1 } else { count }
}

/// A count that is the least one grows. It is written in any case, so that no branch has to be foretold.
#[tactic(auto, using(crate::proofs::SketchLaws::raised_as))]
fn raise(counts: &mut [u8], at: usize, least: u8)
    requires inside { at < length counts.old }
    requires few { least < 15 }
    ensures counts { counts.new ≡ raised least at counts.old }
    ensures size { length counts.new ≡ length counts.old }
{
    counts[at] = higher(counts[at], least);
}

/// The least of a page's counts grow.
fn raise_all(counts: &mut [u8], at: Places, least: u8)
    requires first { at.first < length counts.old }
    requires second { at.second < length counts.old }
    requires third { at.third < length counts.old }
    requires fourth { at.fourth < length counts.old }
    requires few { least < 15 }
    ensures counts { counts.new ≡ all_raised least at counts.old }
    ensures size { length counts.new ≡ length counts.old }
{
    raise(counts, at.first, least);
    raise(counts, at.second, least);
    raise(counts, at.third, least);
    raise(counts, at.fourth, least);
}

/// A page was used.
fn note(counts: &mut [u8], at: Places)
    requires first { at.first < length counts.old }
    requires second { at.second < length counts.old }
    requires third { at.third < length counts.old }
    requires fourth { at.fourth < length counts.old }
    ensures counts { counts.new ≡ noted at counts.old }
    ensures size { length counts.new ≡ length counts.old }
{
    let least = least_at(counts, at);
    if least < MOST_COUNT {
        raise_all(counts, at, least);
    }
}

/// Each count is halved.
fn halve(counts: &mut [u8])
    ensures counts { counts.new ≡ map (λ n. n / 2) counts.old }
    ensures size { length counts.new ≡ length counts.old }
{
    'counts: for at in 0..counts.len() {
        counts[at] /= 2;
    }
}

impl Sketch {
    /// With no use, rows of so many counts, which are halved after so many uses.
    pub(crate) fn new(alloc: Global, width: usize, sample: usize) -> Result<Sketch, AllocError>
        requires some { 1 ≤ width }
        requires most { width ≤ most_width }
        requires uses { 1 ≤ sample }
        ensures width { IfOk result (λ sketch. sketch.width ≡ width) }
        ensures sample { IfOk result (λ sketch. sketch.sample ≡ sample) }
        ensures counts { IfOk result (λ sketch. sketch.counts.items ≡ replicate (4 * width) 0) }
        ensures added { IfOk result (λ sketch. sketch.added ≡ 0) }
    {
        let counts = vec![in alloc; 0u8; 4 * width]?;
        Ok(Sketch {
            width,
            sample,
            counts,
            added: 0,
        })
    }

    /// How often a page was used, as its counts estimate it.
    pub(crate) fn estimate(&self, page: Key) -> u8
        ensures { result ≡ estimate self.now.width page self.now.counts.items }
    {
        least_at(self.counts.as_slice(), places_of(self.width, page))
    }

    /// A page was used.
    pub(crate) fn add(&mut self, page: Key)
        ensures sketch { sketch_of self.new ≡ counted self.old.width self.old.sample page (sketch_of
            self.old) }
        ensures width { self.new.width ≡ self.old.width }
        ensures sample { self.new.sample ≡ self.old.sample }
    {
        let at = places_of(self.width, page);
        note(self.counts.as_mut_slice(), at);
        if self.added + 1 < self.sample {
            self.added += 1;
        } else {
            halve(self.counts.as_mut_slice());
            self.added = (self.added + 1) / 2;
        }
    }
}
