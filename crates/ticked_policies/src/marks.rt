//! What is kept of a page in a frame.

ghost use Rattle.std.specs.Prelude.{◌≡◌};
ghost use Rattle.ticked_policies.specs.Framed.{fresh, used_by};

/// The bits that hardware sets, and a number that the policy keeps.
#[derive(Clone, Copy, Debug, PartialEq, Eq)]
pub struct Marks {
    /// R: the page was used.
    pub(crate) used: bool,
    /// M: the page was changed.
    pub(crate) changed: bool,
    pub(crate) number: u64,
}

impl Marks {
    /// Of a page that comes in.
    pub(crate) fn fresh(is_written: bool, number: u64) -> Marks
        ensures { result ≡ fresh is_written number }
    {
        Marks {
            used: true,
            changed: is_written,
            number,
        }
    }

    /// After a reference to the page.
    pub(crate) fn used_by(self, is_written: bool) -> Marks
        ensures { result ≡ used_by is_written self }
    {
        Marks {
            used: true,
            changed: self.changed || is_written,
            number: self.number,
        }
    }
}
