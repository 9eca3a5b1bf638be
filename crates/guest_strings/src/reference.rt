//! References.

ghost use Rattle.std.specs.Prelude.{◌≡◌};
ghost use Rattle.guest_strings.specs.References.{is_same_page, both};

use clock_policy::Key;

/// A page that is used.
#[derive(Clone, Copy, Debug, PartialEq, Eq)]
pub struct Reference {
    pub page: Key,
    pub is_written: bool,
}

impl Reference {
    /// Whether another reference is to the same page.
    pub(crate) fn is_to_page_of(self, other: Reference) -> bool
        ensures { result ≡ is_same_page self.page other.page }
    {
        self.page == other.page
    }

    /// This reference and the next one, to the same page, as one.
    pub(crate) fn and(self, next: Reference) -> Reference
        ensures { result ≡ both self next }
    {
        Reference {
            page: self.page,
            is_written: self.is_written || next.is_written,
        }
    }
}
