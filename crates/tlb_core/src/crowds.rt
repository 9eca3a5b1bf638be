//! How many cached entries share the low 8 bits of their page numbers: if none does, no search is needed.

ghost use Rattle.std.specs.Prelude.{◌≡◌, ◌+◌, ◌-◌, ◌%◌, ◌<◌, ◌==◌, ◌≤◌, [], length, slice_index_or, slice_set};
ghost use Rattle.tlb_core.specs.Crowds.{Counts, pages_of};

use crate::translation::Translation;

/// How many counts there are: as many pages in a row have one each.
const CROWDS: usize = 256;

/// How many entries have pages of the same low bits. Where none has, a page is known to have no entry.
#[derive(Clone, Copy)]
pub(crate) struct Crowds {
    pub(crate) counts: [u8; CROWDS],
}

impl Crowds {
    /// There is no entry.
    pub(crate) fn new() -> Crowds
        ensures { Counts result.counts [] }
    {
        Crowds {
            counts: [0; CROWDS],
        }
    }

    /// Whether no entry has a page with the low bits of this one.
    #[inline]
    pub(crate) fn lack(&self, page: u32) -> bool
        ensures { result ≡ (slice_index_or self.now.counts (page % 256) 0 == 0) }
    {
        self.counts[(page as usize) % CROWDS] == 0
    }

    /// The entry of a page comes.
    pub(crate) fn come(&mut self, page: u32)
        requires { slice_index_or self.old.counts (page % 256) 0 < 255 }
        ensures { self.new.counts ≡ slice_set self.old.counts (page % 256)
            (slice_index_or self.old.counts (page % 256) 0 + 1) }
    {
        self.counts[(page as usize) % CROWDS] += 1;
    }

    /// The entry of a page goes.
    pub(crate) fn go(&mut self, page: u32)
        requires { 0 < slice_index_or self.old.counts (page % 256) 0 }
        ensures { self.new.counts ≡ slice_set self.old.counts (page % 256)
            (slice_index_or self.old.counts (page % 256) 0 - 1) }
    {
        self.counts[(page as usize) % CROWDS] -= 1;
    }
}

/// What entries make.
pub(crate) fn crowds_of(entries: &[Translation]) -> Crowds
    requires { length entries.now ≤ 16 }
    ensures { Counts result.counts (pages_of entries.now) }
{
    let mut crowds = Crowds::new();
    for entry in entries {
        crowds.come(entry.page);
    }
    crowds
}
