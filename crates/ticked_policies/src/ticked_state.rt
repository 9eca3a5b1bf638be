//! What a policy keeps that goes by ticks.

ghost use Rattle.std.specs.Prelude.{◌≤◌};

use crate::marks::Marks;
use crate::ticked_rule::TickedRule;
use clock_policy::Key;
use indexmap::IndexMap;

/// A policy that goes by ticks: NRU, or aging.
#[derive(Drop)]
pub struct Ticked {
    pub(crate) frames: usize,
    pub(crate) rule: TickedRule,
    /// A tick comes after so many references.
    pub(crate) every: u64,
    /// So many references come up to the next one.
    pub(crate) left: u64,
    pub(crate) pages: IndexMap<Key, Marks>,
    ghost some: { 1 ≤ frames },
}
