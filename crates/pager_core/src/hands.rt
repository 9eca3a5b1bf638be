//! The hands of the replacement list, the share for cold pages, and the answers since the last victim.

ghost use Rattle.std.specs.Prelude.{◌≡◌};

use crate::pager::Pager;
use clock_policy::{Clock, Key};
use std::sync::ledger::Ledger;

/// What the replacement list remembers besides its entries.
#[derive(Clone, Copy, PartialEq, Eq, Debug)]
pub struct Hands {
    /// How many of the frames cold pages are to have.
    pub share: usize,
    /// How many answers came since the last victim.
    pub asked: usize,
    /// The page on whose entry the cold hand is, if there is an entry.
    pub cold: Option<Key>,
    /// The page on whose entry the test hand is, if there is an entry.
    pub test: Option<Key>,
}

impl<L: Ledger, C: Clock> Pager<L, C> {
    /// Where the list's hands are, and its two numbers.
    pub fn hands(&self) -> Hands
        ensures share { result.share ≡ self.now.list.share }
        ensures asked { result.asked ≡ self.now.list.asked }
        ensures cold { result.cold ≡ self.now.list.cold_hand }
        ensures test { result.test ≡ self.now.list.test_hand }
    {
        Hands {
            share: self.list.share(),
            asked: self.list.asked(),
            cold: self.list.cold_hand(),
            test: self.list.test_hand(),
        }
    }
}
