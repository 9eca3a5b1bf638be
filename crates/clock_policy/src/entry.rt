//! Entries of the replacement list: a page and its kind (hot, test, cold or shadow).

ghost use Rattle.std.specs.Prelude.{◌≡◌};
ghost use Rattle.clock_policy.specs.ClockPro.{has_key, is_hot, is_cold, is_shadow, is_in_test};

use crate::key::Key;
use std::fmt;

/// What the list knows of a page.
#[derive(Clone, Copy, Debug, PartialEq, Eq)]
pub enum EntryKind {
    /// resident, and used again within its test
    Hot,
    /// resident, cold, in its test
    Test,
    /// resident, cold, out of its test
    Cold,
    /// not resident, but still in its test
    Shadow,
}

impl fmt::Display for EntryKind {
    ghost use Rattle.std.specs.Prelude.{Some};
    ghost use Rattle.clock_policy.specs.Text.{entry_kind_text};

    ghost output = { λ k. Some (entry_kind_text k) };

    fn fmt<W: fmt::Write>(&self, f: &mut fmt::Formatter<W>) -> fmt::Result {
        f.write_str(match self {
            EntryKind::Hot => "hot",
            EntryKind::Test => "test",
            EntryKind::Cold => "cold",
            EntryKind::Shadow => "shadow",
        })
    }
}

impl EntryKind {
    pub fn is_hot(self) -> bool
        ensures { result ≡ is_hot self }
    {
        match self {
            EntryKind::Hot => true,
            EntryKind::Test | EntryKind::Cold | EntryKind::Shadow => false,
        }
    }

    /// Whether it is resident and not hot.
    pub fn is_cold(self) -> bool
        ensures { result ≡ is_cold self }
    {
        match self {
            EntryKind::Test | EntryKind::Cold => true,
            EntryKind::Hot | EntryKind::Shadow => false,
        }
    }

    pub fn is_shadow(self) -> bool
        ensures { result ≡ is_shadow self }
    {
        match self {
            EntryKind::Shadow => true,
            EntryKind::Hot | EntryKind::Test | EntryKind::Cold => false,
        }
    }

    pub fn is_in_test(self) -> bool
        ensures { result ≡ is_in_test self }
    {
        match self {
            EntryKind::Test | EntryKind::Shadow => true,
            EntryKind::Hot | EntryKind::Cold => false,
        }
    }
}

/// One place of the list.
#[derive(Clone, Copy, Debug, PartialEq, Eq)]
pub struct Entry {
    pub key: Key,
    pub kind: EntryKind,
}

impl Entry {
    pub fn has_key(&self, key: Key) -> bool
        ensures { result ≡ has_key key self.now }
    {
        self.key.process == key.process && self.key.vpn == key.vpn
    }
}
