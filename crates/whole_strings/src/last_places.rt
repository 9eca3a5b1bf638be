//! Places of a string that count while they are the last use of their page.

ghost use Rattle.std.specs.Prelude.{◌≡◌, ◌+◌, ◌-◌, ◌%◌, ◌<◌, ◌^◌, min, take, drop, length, replicate, slice_index_or, IfOk};
ghost use Rattle.whole_strings.specs.LastPlaces.{total, sum_from, lowered, AreSummed, Adds, Removes};

use crate::lru_depths::note_hit;
use std::alloc::{AllocError, Global};

/// How many counts are added up to one.
const BLOCK: usize = 256;

/// How often each place of a string counts, once or not at all, added up by blocks of 256 places, and those by groups of 256 blocks.
#[derive(Drop)]
pub(crate) struct LastPlaces {
    places: Vec<usize>,
    blocks: Vec<usize>,
    groups: Vec<usize>,
}

fn sum_of(counts: &[usize]) -> usize
    requires { total counts.now < 2 ^ 63 }
    ensures { result ≡ total counts.now }
{
    let mut sum = 0;
    'counts: for at in 0..counts.len() {
        sum += counts[at];
    }
    sum
}

/// The sum of the counts after a place, up to the end of its block.
fn sum_in_block(counts: &[usize], at: usize) -> usize
    requires inside { at < length counts.now }
    requires small { total counts.now < 2 ^ 63 }
    ensures { result ≡ total (take (min (length (drop (at + 1) counts.now)) (255 - at % 256))
        (drop (at + 1) counts.now)) }
{
    let rest = &counts[at + 1..];
    let most = rest.len().min(BLOCK - 1 - at % BLOCK);
    sum_of(&rest[..most])
}

/// One less in this place.
fn lower(counts: &mut [usize], at: usize)
    requires inside { at < length counts.old }
    requires some { 0 < slice_index_or counts.old at 0 }
    ensures { counts.new ≡ lowered at counts.old }
{
    counts[at] -= 1;
}

/// So many counts, of nothing.
fn no_counts(alloc: Global, count: usize) -> Result<Vec<usize>, AllocError>
    ensures { IfOk result (λ counts. counts.items ≡ replicate count 0) }
{
    vec![in alloc; 0; count]
}

impl LastPlaces {
    /// So many places, none of which counts.
    pub(crate) fn new(alloc: Global, count: usize) -> Result<Self, AllocError>
        ensures places { IfOk result (λ c. c.places.items ≡ replicate count 0) }
        ensures sums { IfOk result AreSummed }
    {
        let blocks = count / BLOCK + 1;
        Ok(LastPlaces {
            places: no_counts(alloc, count)?,
            blocks: no_counts(alloc, blocks)?,
            groups: no_counts(alloc, blocks / BLOCK + 1)?,
        })
    }

    /// A place counts.
    pub(crate) fn add(&mut self, at: usize)
        requires inside { at < length self.old.places.items }
        requires sums { AreSummed self.old }
        requires small { sum_from 0 self.old.places.items < 2 ^ 63 }
        ensures { Adds at self.old self.new }
    {
        let block = at / BLOCK;
        note_hit(self.places.as_mut_slice(), at);
        note_hit(self.blocks.as_mut_slice(), block);
        note_hit(self.groups.as_mut_slice(), block / BLOCK);
    }

    /// A place that counts does so no more.
    pub(crate) fn remove(&mut self, at: usize)
        requires inside { at < length self.old.places.items }
        requires some { 0 < slice_index_or self.old.places.items at 0 }
        requires sums { AreSummed self.old }
        ensures { Removes at self.old self.new }
    {
        let block = at / BLOCK;
        lower(self.places.as_mut_slice(), at);
        lower(self.blocks.as_mut_slice(), block);
        lower(self.groups.as_mut_slice(), block / BLOCK);
    }

    /// How many places after this one count.
    pub(crate) fn behind(&self, at: usize) -> usize
        requires inside { at < length self.now.places.items }
        requires sums { AreSummed self.now }
        requires small { sum_from 0 self.now.places.items < 2 ^ 63 }
        ensures { result ≡ sum_from (at + 1) self.now.places.items }
    {
        let block = at / BLOCK;
        let group = block / BLOCK;
        let near = sum_in_block(self.places.as_slice(), at);
        let middle = sum_in_block(self.blocks.as_slice(), block);
        let far = sum_of(&self.groups.as_slice()[group + 1..]);
        near + middle + far
    }
}
