//! The rights of a page (read, write, execute) as a set of bits.

ghost use Rattle.std.specs.Prelude.{⊤, ◌≡◌, [], ◌∷◌, codes, ℕ, Bool};
ghost use Rattle.page_memory.specs.Rights.{may, readable};

use crate::words::Access;
use bitflags::{Flag, Flags, bitflag_items};

/// What a page may be used for: a set of bits, as a segment or a page-table leaf gives it.
///
/// A page that may be written may be read too, wherever a memory or an image is made. The type itself
/// holds any set, as the bits of a file or a table may.
#[derive(Clone, Copy, PartialEq, Eq, Debug)]
pub struct Rights(u8);

bitflag_items! {
    impl Rights: u8 {
        const READ = 1;
        const WRITE = 2;
        const EXECUTE = 4;
    }
}

impl Flags for Rights {
    type Bits = u8;

    ghost exact = { ⊤ };

    ghost table = { (codes "READ", 1) ∷ (codes "WRITE", 2) ∷ (codes "EXECUTE", 4) ∷ [] };

    ghost set_of = { λ rights. rights.0 };

    fn flags<'a>() -> &'a [Flag<Rights>] {
        Rights::FLAGS
    }

    fn bits(&self) -> u8 {
        self.0
    }

    fn from_bits_retain(bits: u8) -> Rights {
        Rights(bits)
    }
}

/// All that a page may be used for.
const ALL: Rights = Rights(7);

impl Rights {
    /// The rights of data: to read and to write.
    pub const READ_WRITE: Rights = Rights(3);

    /// The rights of code: to read and to execute.
    pub const READ_EXECUTE: Rights = Rights(5);

    /// Whether a page with these rights may be used in this way.
    #[inline]
    pub fn allow(self, access: Access) -> bool
        ensures { result ≡ may access self }
    {
        self.contains(match access {
            Access::Fetch => Rights::EXECUTE,
            Access::Load => Rights::READ,
            Access::Store => Rights::WRITE,
        })
    }

    /// The rights to read, to write and to execute among these, and to read where they are to write.
    #[tactic(auto, unfolding(crate::specs::Rights::readable))]
    pub fn readable(self) -> Rights
        ensures { result ≡ readable self }
    {
        let known = self.intersection(ALL);
        if self.allow(Access::Store) {
            known.union(Rights::READ)
        } else {
            known
        }
    }
}
