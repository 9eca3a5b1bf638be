//! How far a count is.

/// What a long count has come to.
#[derive(Clone, Copy, Debug, PartialEq, Eq)]
pub enum Stage {
    /// So many references are known.
    References(u64),
    /// So many rows are counted of so many.
    Rows(usize, usize),
}

/// A listener is informed how far a count is. It does not affect what is counted.
pub trait StageListener: Drop {
    fn tell(&mut self, stage: Stage);
}

/// Nobody.
#[derive(Drop)]
pub struct Quiet;

impl StageListener for Quiet {
    fn tell(&mut self, _: Stage) {}
}
