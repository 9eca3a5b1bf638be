//! An entry that was found in the replacement list, with its position.

use clock_policy::Entry;

/// An entry, and where it is: a place or a node, as the list counts.
#[derive(Clone, Copy, Debug)]
pub struct Found {
    pub at: usize,
    pub entry: Entry,
}
