//! One page-table entry of Sv32: its flags, its physical page number, and what the manual's walk asks of it.

ghost use Rattle.std.specs.Prelude.{⊤, ◌≡◌, ◌<◌, ◌^◌, true, false, [], ◌∷◌, codes, ℕ, if◌then◌else◌, IsTrue, ◌↔◌};
ghost use Rattle.sv32_table.specs.Entry.{entry_of, word_of, shape_of, has_reserved, allows, is_aligned, touched, leaf_entry, page_entry, pointer_entry, weigh};

use bitflags::{Flag, Flags, bitflag_items};
use page_memory::{Access, Rights};

/// A page-table entry: flags, and in bits 31 to 10 a physical page number (privileged manual, Sv32 page-table entry).
#[derive(Clone, Copy, PartialEq, Eq, Debug)]
pub struct Pte(pub u32);

bitflag_items! {
    impl Pte: u32 {
        const VALID = 1;
        const READ = 2;
        const WRITE = 4;
        const EXECUTE = 8;
        const USER = 16;
        const GLOBAL = 32;
        const ACCESSED = 64;
        const DIRTY = 128;
    }
}

impl Flags for Pte {
    type Bits = u32;

    ghost exact = { ⊤ };

    ghost table = { (codes "VALID", 1) ∷ (codes "READ", 2) ∷ (codes "WRITE", 4) ∷ (codes "EXECUTE", 8) ∷ (codes "USER", 16) ∷ (codes "GLOBAL", 32) ∷ (codes "ACCESSED", 64) ∷ (codes "DIRTY", 128) ∷ [] };

    ghost set_of = { λ pte. pte.0 };

    fn flags<'a>() -> &'a [Flag<Pte>] {
        Pte::FLAGS
    }

    fn bits(&self) -> u32 {
        self.0
    }

    fn from_bits_retain(bits: u32) -> Pte {
        Pte(bits)
    }
}

/// What an entry is, by its V, R, W and X.
#[derive(Clone, Copy, PartialEq, Eq, Debug)]
pub enum Shape {
    /// There is no entry.
    Invalid,
    /// It names the table of the next level.
    Pointer,
    /// It maps a page.
    Leaf,
}

impl Pte {
    /// The leaf of a user page: its physical page, its rights, and whether A is set. The rights' bits are the leaf's.
    #[tactic(auto, unfolding(crate::specs::Entry::leaf_entry, crate::specs::Entry::word_of))]
    pub fn leaf(ppn: u32, rights: Rights, accessed: bool) -> Pte
        requires { ppn < 2 ^ 22 }
        ensures { result.0 ≡ word_of (leaf_entry ppn rights accessed) }
    {
        let rights = weighed(rights.contains(Rights::READ), Pte::READ)
            + weighed(rights.contains(Rights::WRITE), Pte::WRITE)
            + weighed(rights.contains(Rights::EXECUTE), Pte::EXECUTE);
        Pte(Pte::VALID.0 + Pte::USER.0 + rights + weighed(accessed, Pte::ACCESSED) + 1024 * ppn)
    }

    /// The leaf of a user page with D as given.
    #[tactic(auto, using(crate::proofs::EntryLaws::leaf_with_dirty, crate::proofs::EntryLaws::leaf_without_dirty))]
    pub(crate) fn page(ppn: u32, rights: Rights, accessed: bool, dirty: bool) -> Pte
        requires { ppn < 2 ^ 22 }
        ensures { result.0 ≡ word_of (page_entry ppn rights accessed dirty) }
    {
        let leaf = Pte::leaf(ppn, rights, accessed);
        if dirty { leaf.with_dirty() } else { leaf }
    }

    /// The pointer to the table in a physical page.
    #[tactic(auto, unfolding(crate::specs::Entry::pointer_entry, crate::specs::Entry::word_of))]
    pub(crate) fn pointer(ppn: u32) -> Pte
        requires { ppn < 2 ^ 22 }
        ensures { result.0 ≡ word_of (pointer_entry ppn) }
    {
        Pte(Pte::VALID.0 + 1024 * ppn)
    }

    /// The physical page number.
    #[tactic(auto, using(crate::proofs::EntryWordLaws::ppn_part))]
    pub fn ppn(self) -> u32
        ensures ppn { result ≡ (entry_of self.0).ppn }
        ensures small { result < 2 ^ 22 }
    {
        self.0 / 1024
    }

    #[tactic(auto, using(crate::proofs::EntryWordLaws::valid_flag))]
    pub(crate) fn is_valid(self) -> bool
        ensures { result ≡ (entry_of self.0).valid }
    {
        self.contains(Pte::VALID)
    }

    #[tactic(auto, using(crate::proofs::EntryWordLaws::read_flag))]
    pub(crate) fn is_readable(self) -> bool
        ensures { result ≡ (entry_of self.0).read }
    {
        self.contains(Pte::READ)
    }

    #[tactic(auto, using(crate::proofs::EntryWordLaws::write_flag))]
    pub(crate) fn is_writable(self) -> bool
        ensures { result ≡ (entry_of self.0).write }
    {
        self.contains(Pte::WRITE)
    }

    #[tactic(auto, using(crate::proofs::EntryWordLaws::execute_flag))]
    pub(crate) fn is_executable(self) -> bool
        ensures { result ≡ (entry_of self.0).execute }
    {
        self.contains(Pte::EXECUTE)
    }

    #[tactic(auto, using(crate::proofs::EntryWordLaws::user_flag))]
    pub(crate) fn is_user(self) -> bool
        ensures { result ≡ (entry_of self.0).user }
    {
        self.contains(Pte::USER)
    }

    #[tactic(auto, using(crate::proofs::EntryWordLaws::accessed_flag))]
    pub fn is_accessed(self) -> bool
        ensures { result ≡ (entry_of self.0).accessed }
    {
        self.contains(Pte::ACCESSED)
    }

    #[tactic(auto, using(crate::proofs::EntryWordLaws::dirty_flag))]
    pub fn is_dirty(self) -> bool
        ensures { result ≡ (entry_of self.0).dirty }
    {
        self.contains(Pte::DIRTY)
    }

    /// What the entry is (translation process, steps 3 and 4).
    #[tactic(auto, unfolding(crate::specs::Entry::shape_of))]
    pub fn shape(self) -> Shape
        ensures { result ≡ shape_of (entry_of self.0) }
    {
        if !self.is_valid() || (self.is_writable() && !self.is_readable()) {
            Shape::Invalid
        } else if self.is_readable() || self.is_executable() {
            Shape::Leaf
        } else {
            Shape::Pointer
        }
    }

    #[inline]
    #[tactic(auto, unfolding(crate::specs::Entry::shape_of))]
    pub(crate) fn is_pointer(self) -> bool
        ensures { IsTrue result ↔ (shape_of (entry_of self.0) ≡ Shape.Pointer) }
    {
        self.is_valid() && !self.is_readable() && !self.is_writable() && !self.is_executable()
    }

    #[inline]
    #[tactic(auto, unfolding(crate::specs::Entry::shape_of))]
    pub(crate) fn is_leaf(self) -> bool
        ensures { IsTrue result ↔ (shape_of (entry_of self.0) ≡ Shape.Leaf) }
    {
        self.is_valid() && (self.is_readable() || (self.is_executable() && !self.is_writable()))
    }

    /// Whether a pointer has one of the bits U, A and D, which are reserved in it.
    #[tactic(auto, unfolding(crate::specs::Entry::has_reserved))]
    pub(crate) fn has_reserved(self) -> bool
        ensures { result ≡ has_reserved (entry_of self.0) }
    {
        self.is_user() || self.is_accessed() || self.is_dirty()
    }

    /// Whether a leaf allows an access in user mode (step 5).
    #[tactic(auto, unfolding(crate::specs::Entry::allows))]
    pub fn allows(self, access: Access) -> bool
        ensures { result ≡ allows access (entry_of self.0) }
    {
        self.is_user()
            && match access {
                Access::Fetch => self.is_executable(),
                Access::Load => self.is_readable(),
                Access::Store => self.is_writable(),
            }
    }

    /// Whether a level-1 leaf is aligned to the 4 MiB that it maps (step 6).
    #[tactic(auto, unfolding(crate::specs::Entry::is_aligned))]
    pub(crate) fn is_aligned(self) -> bool
        ensures { result ≡ is_aligned (entry_of self.0) }
    {
        self.ppn() % 1024 == 0
    }

    /// The entry with A set, and with D too after a store (step 7).
    #[tactic(auto, using(crate::proofs::EntryWordLaws::touched_by_store), unfolding(crate::specs::Entry::touched))]
    pub(crate) fn touched(self, access: Access) -> Pte
        ensures { result.0 ≡ word_of (touched access (entry_of self.0)) }
    {
        match access {
            Access::Store => self.with_accessed().with_dirty(),
            Access::Fetch | Access::Load => self.with_accessed(),
        }
    }

    #[tactic(auto, using(crate::proofs::EntryWordLaws::word_of_accessed))]
    fn with_accessed(self) -> Pte
        ensures { result.0 ≡ word_of (record (entry_of self.0) { accessed = true }) }
    {
        Pte(self.0 | Pte::ACCESSED.0)
    }

    #[tactic(auto, using(crate::proofs::EntryWordLaws::word_of_dirty))]
    fn with_dirty(self) -> Pte
        ensures { result.0 ≡ word_of (record (entry_of self.0) { dirty = true }) }
    {
        Pte(self.0 | Pte::DIRTY.0)
    }

    /// The entry with A clear.
    #[tactic(auto, using(crate::proofs::EntryWordLaws::word_of_not_accessed, crate::proofs::EntryWordLaws::same_accessed, crate::proofs::EntryWordLaws::accessed_room))]
    pub(crate) fn without_accessed(self) -> Pte
        ensures { result.0 ≡ word_of (record (entry_of self.0) { accessed = false }) }
    {
        if self.is_accessed() {
            Pte(self.0 - Pte::ACCESSED.0)
        } else {
            self
        }
    }

    /// The entry with D clear.
    #[tactic(auto, using(crate::proofs::EntryWordLaws::word_of_not_dirty, crate::proofs::EntryWordLaws::same_dirty, crate::proofs::EntryWordLaws::dirty_room))]
    pub(crate) fn without_dirty(self) -> Pte
        ensures { result.0 ≡ word_of (record (entry_of self.0) { dirty = false }) }
    {
        if self.is_dirty() {
            Pte(self.0 - Pte::DIRTY.0)
        } else {
            self
        }
    }
}

/// What a flag adds to its entry's word.
fn weighed(set: bool, flag: Pte) -> u32
    ensures weight { result ≡ weigh set flag.0 }
{
    if set { flag.0 } else { 0 }
}
