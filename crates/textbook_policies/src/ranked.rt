//! A page in an order.

ghost use Rattle.std.specs.Prelude.{◌≡◌};
ghost use Rattle.textbook_policies.specs.Ranks.{page_of, ranked};

use clock_policy::Key;

/// A page, and the two numbers that it is ranked by.
#[derive(Clone, Copy, Debug, PartialEq, Eq, PartialOrd, Ord)]
pub(crate) struct Ranked {
    pub(crate) first: u64,
    pub(crate) second: u64,
    pub(crate) process: u32,
    pub(crate) vpn: u32,
}

impl Ranked {
    pub(crate) fn new(first: u64, second: u64, page: Key) -> Ranked
        ensures { result ≡ ranked first second page }
    {
        Ranked {
            first,
            second,
            process: page.process,
            vpn: page.vpn,
        }
    }

    pub(crate) fn page(self) -> Key
        ensures { result ≡ page_of self }
    {
        Key {
            process: self.process,
            vpn: self.vpn,
        }
    }
}
