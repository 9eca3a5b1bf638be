//! The Sv32 page tables of one process, which form a tree: a call for one page leaves all other entries.

ghost use Rattle.std.specs.Prelude.{◌≡◌, ◌<◌, ◌/◌, ◌^◌, List, ℕ, true, false, IfNone, IfOk, IsErr, OnOk, OnErr};
ghost use Rattle.sv32_table.specs.Entry.{blank, entry_of, leaf_entry, page_entry};
ghost use Rattle.sv32_table.specs.EntryAt.{entry_at, ChangesEntry, walk_entry, walked_entry, valid_word, unmapped_entry, accessed_of, dirty_of, dirty_mark_of, unaccessed_entry, undirtied_entry, has_table, SameTables, AddsTable};
ghost use Rattle.sv32_table.specs.Leading.{LeadsByEntry};
ghost use Rattle.sv32_table.specs.TranslationProcess.{IsTranslation};

use crate::fault::{MapFault, WalkFault};
use crate::pte::Pte;
use crate::tables::Tables;
use crate::walk::Leaf;
use page_memory::{Access, Rights};
use std::alloc::{AllocError, Global};
use std::marker::Model;

/// The Sv32 page tables of one process, as only `map` makes them: they form a tree, so that each page has an entry of
/// its own, and a call for one page leaves the entries of the others.
#[derive(Drop)]
pub struct PageTables {
    tables: Tables,
}

impl Model for PageTables {
    ghost use Rattle.std.specs.Prelude.{List, ℕ};

    ghost Value = { List (List ℕ) };

    ghost use Rattle.sv32_table.specs.EntryAt.{IsTree};

    ghost view = { λ t. t.tables };

    ghost invariant = { λ t. IsTree t.tables };
}

impl PageTables {
    /// The root, with no table below it: no page has an entry.
    #[tactic(auto, using(crate::proofs::TreeCalls::IsTree_new, crate::proofs::TreeCalls::entry_at_new, crate::proofs::TreeCalls::no_table_new))]
    pub fn new(alloc: Global) -> Result<PageTables, AllocError>
        ensures entries { IfOk result (λ tables. (q : ℕ) → q < 2 ^ 20 →
            entry_at tables q ≡ blank) }
        ensures bare { IfOk result (λ tables. (q : ℕ) → q < 2 ^ 20 →
            has_table tables q ≡ false) }
    {
        Ok(PageTables {
            tables: Tables::new(alloc)?,
        })
    }

    /// Translates an address for an access in user mode, as `Tables::walk` does.
    #[inline(always)]
    #[tactic(auto, using(crate::proofs::TreeCalls::answer_of_walk, crate::proofs::TreeCalls::leaf_dirty, crate::proofs::TreeCalls::tree_after_walk, crate::proofs::TreeCalls::entries_after_walk, crate::proofs::TreeCalls::tables_after_walk))]
    pub fn walk(&mut self, address: u32, access: Access) -> Result<Leaf, WalkFault>
        ensures leaf { result ≡ walk_entry (entry_at self.old (address / 0x1000)) address access }
        ensures entries { ChangesEntry self.old self.new (address / 0x1000)
            (walked_entry (entry_at self.old (address / 0x1000)) access) }
        ensures tables { SameTables self.old self.new }
        ensures dirty { IfOk result (λ leaf. (entry_of leaf.pte.0).dirty ≡
            dirty_of (entry_at self.new (address / 0x1000))) }
        ensures manual { IsTranslation self.old address access result self.new }
    {
        self.tables.walk(address, access)
    }

    /// The manual's process over the words that the tables represent: each access leads where its page's entry says.
    /// It does nothing.
    #[tactic(auto, using(crate::proofs::TreeCalls::leads_by_entry))]
    pub fn translates(&self)
        ensures { LeadsByEntry self.now }
    {
        // For the proof only: a read shows its invariant.
        let _ = &self.tables;
    }

    /// Gives a page the leaf of this physical page with V, U, the rights, and A as given.
    ///
    /// It takes memory, and can be refused, only where the page has no table yet.
    #[tactic(auto, using(crate::proofs::TreeCalls::entries_after_map, crate::proofs::TreeCalls::tables_after_map, crate::proofs::TreeCalls::no_table, crate::proofs::TreeCalls::never_too_many))]
    pub fn map(
        &mut self,
        vpn: u32,
        ppn: u32,
        rights: Rights,
        accessed: bool,
    ) -> Result<(), AllocError>
        requires vpn { vpn < 2 ^ 20 }
        requires ppn { ppn < 2 ^ 22 }
        ensures ok { OnOk result (ChangesEntry self.old self.new vpn
            (leaf_entry ppn rights accessed)) }
        ensures tables { OnOk result (AddsTable self.old self.new vpn) }
        ensures no_memory { IsErr result → has_table self.old vpn ≡ false }
        ensures err { OnErr result (self.new ≡ self.old) }
    {
        match self.tables.map(vpn, ppn, rights, accessed) {
            Ok(()) => Ok(()),
            Err(MapFault::NoMemory) => Err(AllocError),
            // A tree has a table for each root word at most, and the root.
            Err(MapFault::TooManyTables) => unreachable!(),
        }
    }

    /// Gives a page that has a table the leaf of this physical page with V, U, the rights, and A and D as given. It takes
    /// no memory.
    #[tactic(auto, using(crate::proofs::TreeCalls::entries_after_remap, crate::proofs::TreeCalls::same_after_remap))]
    pub fn remap(&mut self, vpn: u32, ppn: u32, rights: Rights, accessed: bool, dirty: bool)
        requires vpn { vpn < 2 ^ 20 }
        requires ppn { ppn < 2 ^ 22 }
        requires table { has_table self.old vpn ≡ true }
        ensures entries { ChangesEntry self.old self.new vpn
            (page_entry ppn rights accessed dirty) }
        ensures tables { SameTables self.old self.new }
    {
        self.tables
            .put(vpn, Pte::page(ppn, rights, accessed, dirty));
    }

    /// Takes a page's entry away and answers it, or `None` where the page has none with V. It takes no memory.
    #[tactic(auto, using(crate::proofs::TreeCalls::found_entry, crate::proofs::TreeCalls::tables_after_mark, crate::proofs::TreeCalls::entries_after_unmap))]
    pub fn unmap(&mut self, vpn: u32) -> Option<Pte>
        requires { vpn < 2 ^ 20 }
        ensures answer { result ≡ valid_word (entry_at self.old vpn) }
        ensures entries { ChangesEntry self.old self.new vpn
            (unmapped_entry (entry_at self.old vpn)) }
        ensures tables { SameTables self.old self.new }
    {
        self.tables.unmap(vpn)
    }

    /// Clears A in a page's entry and answers what it was, or `None` where the page has none with V. It takes no memory.
    #[tactic(auto, using(crate::proofs::TreeCalls::accessed_found, crate::proofs::TreeCalls::tables_after_mark, crate::proofs::TreeCalls::entries_after_clear))]
    pub fn test_and_clear_accessed(&mut self, vpn: u32) -> Option<bool>
        requires { vpn < 2 ^ 20 }
        ensures answer { result ≡ accessed_of (entry_at self.old vpn) }
        ensures entries { ChangesEntry self.old self.new vpn (unaccessed_entry
            (entry_at self.old vpn)) }
        ensures tables { SameTables self.old self.new }
        ensures gone { IfNone result (self.new ≡ self.old) }
    {
        self.tables.test_and_clear_accessed(vpn)
    }

    /// Clears D in a page's entry and answers what it was, or `None` where the page has none with V. It takes no memory.
    #[tactic(auto, using(crate::proofs::TreeCalls::dirty_mark_found, crate::proofs::TreeCalls::tables_after_mark, crate::proofs::TreeCalls::entries_after_clean))]
    pub fn clear_dirty(&mut self, vpn: u32) -> Option<bool>
        requires { vpn < 2 ^ 20 }
        ensures answer { result ≡ dirty_mark_of (entry_at self.old vpn) }
        ensures entries { ChangesEntry self.old self.new vpn (undirtied_entry
            (entry_at self.old vpn)) }
        ensures tables { SameTables self.old self.new }
        ensures gone { IfNone result (self.new ≡ self.old) }
    {
        self.tables.clear_dirty(vpn)
    }

    /// A page's entry, or `None` where it has none with V.
    #[tactic(auto, using(crate::proofs::TreeCalls::found_entry))]
    pub fn lookup(&self, vpn: u32) -> Option<Pte>
        requires { vpn < 2 ^ 20 }
        ensures { result ≡ valid_word (entry_at self.now vpn) }
    {
        self.tables.lookup(vpn)
    }

    /// The words of all tables, the root's first.
    pub fn words(&self) -> &[[u32; 1024]]
        ensures { result.now ≡ self.now }
    {
        self.tables.words()
    }

    /// Whether a page's entry has A, or `None` where the page has none with V.
    #[tactic(auto, using(crate::proofs::TreeCalls::accessed_word, crate::proofs::TreeCalls::none_accessed))]
    pub fn accessed(&self, vpn: u32) -> Option<bool>
        requires { vpn < 2 ^ 20 }
        ensures { result ≡ accessed_of (entry_at self.now vpn) }
    {
        match self.lookup(vpn) {
            Some(pte) => Some(pte.is_accessed()),
            None => None,
        }
    }

    /// Whether a page's entry has D. Where the page has none with V, it has not.
    #[tactic(auto, using(crate::proofs::TreeCalls::dirty_found, crate::proofs::TreeCalls::none_dirty))]
    pub fn is_dirty(&self, vpn: u32) -> bool
        requires { vpn < 2 ^ 20 }
        ensures { result ≡ dirty_of (entry_at self.now vpn) }
    {
        match self.lookup(vpn) {
            Some(pte) => pte.is_dirty(),
            None => false,
        }
    }
}
