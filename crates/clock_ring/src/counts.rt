//! How many entries of each kind there are.

ghost use Rattle.std.specs.Prelude.{◌≤◌, ◌+◌};

use clock_policy::EntryKind;

#[derive(Clone, Copy, Debug)]
pub(crate) struct Counts {
    pub(crate) hot: usize,
    /// those that are resident and not hot
    pub(crate) cold: usize,
    pub(crate) shadows: usize,
}

impl Counts {
    ghost use Rattle.clock_ring.specs.RingState.{More, HasOne};

    /// An entry of this kind more.
    #[inline(always)]
    pub(crate) fn put(&mut self, kind: EntryKind)
        requires { self.old.hot + self.old.cold + self.old.shadows ≤ 8192 }
        ensures { More self.old self.new kind }
    {
        match kind {
            EntryKind::Hot => self.hot += 1,
            EntryKind::Test | EntryKind::Cold => self.cold += 1,
            EntryKind::Shadow => self.shadows += 1,
        }
    }

    /// An entry of this kind less.
    #[inline(always)]
    pub(crate) fn take(&mut self, kind: EntryKind)
        requires { HasOne self.old kind }
        ensures { More self.new self.old kind }
    {
        match kind {
            EntryKind::Hot => self.hot -= 1,
            EntryKind::Test | EntryKind::Cold => self.cold -= 1,
            EntryKind::Shadow => self.shadows -= 1,
        }
    }
}
