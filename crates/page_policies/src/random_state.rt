//! What random replacement keeps.

ghost use Rattle.std.specs.Prelude.{◌≤◌};

use clock_policy::Key;
use indexmap::IndexSet;
use rand_pcg::Pcg32;

/// Random replacement: a page that is drawn leaves. The seed is given, so that each run is the same.
#[derive(Drop)]
pub struct RandomPolicy {
    pub(crate) frames: usize,
    pub(crate) pages: IndexSet<Key>,
    pub(crate) generator: Pcg32,
    ghost some: { 1 ≤ frames },
}
