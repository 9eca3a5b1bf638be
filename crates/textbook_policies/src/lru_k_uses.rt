//! Which use LRU-K goes by.

/// A page's last use but so many less one is what it is ranked by.
#[derive(Clone, Copy, Debug, PartialEq, Eq)]
pub struct LruKUses {
    pub k: u32,
}

impl LruKUses {
    /// What its authors advise.
    pub const USUAL: LruKUses = LruKUses { k: 2 };

    /// The least and the greatest that may be asked for.
    pub const K: (u32, u32) = (1, 64);
}
