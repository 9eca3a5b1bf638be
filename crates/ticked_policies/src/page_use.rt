//! Pages that are used.

use clock_policy::Key;

/// A page that is used, and whether it is written.
#[derive(Clone, Copy, Debug, PartialEq, Eq)]
pub struct PageUse {
    pub page: Key,
    pub is_written: bool,
}
