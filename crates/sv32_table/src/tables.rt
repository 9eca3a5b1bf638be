//! Sv32 page tables that may hold any words: mapping a page, changing its entry, and the walk in user mode.

ghost use Rattle.std.specs.Prelude.{◌≡◌, ◌<◌, ◌≤◌, ◌+◌, ◌/◌, ◌%◌, ◌^◌, ◌∷◌, ◌++◌, [], List, ℕ, true, length, IfOk, IfSome, IsErr, IsErrOf, OnOk, OnErr, ◌↔◌, None, option_map, false, IfNone};
ghost use Rattle.sv32_table.specs.Entry.{Entry, entry_of, word_of, leaf_entry};
ghost use Rattle.sv32_table.specs.EntryAt.{has_table};
ghost use Rattle.sv32_table.specs.TranslationProcess.{IsTranslation};
ghost use Rattle.sv32_table.specs.Tables.{word_in, with_word, table_of, walk_end, root_step, walked, physical_of, permits, zero_table, mapped, marked, found, table_for, with_table};

use crate::fault::{MapFault, NoTable, WalkFault};
use crate::pte::{Pte, Shape};
use crate::walk::{Leaf, LeafPlace};
use page_memory::{Access, Rights};
use std::alloc::{AllocError, Global};
use std::marker::Model;

/// The physical page of the root table; table k is k pages after it.
pub const TABLE_PPN: u32 = 0x20_0000;

/// The most tables that a process can have.
pub const MAX_TABLES: usize = 0x20_0000;

/// The Sv32 page tables of one process.
#[derive(Drop)]
pub struct Tables {
    tables: Vec<[u32; 1024]>,
}

impl Model for Tables {
    ghost use Rattle.std.specs.Prelude.{List, ℕ};

    ghost Value = { List (List ℕ) };

    ghost use Rattle.sv32_table.specs.Tables.{IsSized};

    ghost view = { λ t. t.tables.items };

    ghost invariant = { λ t. IsSized t.tables.items };
}

impl Tables {
    /// A root table of zeros.
    #[tactic(auto, unfolding(crate::specs::Tables::zero_table))]
    pub fn new(alloc: Global) -> Result<Tables, AllocError>
        ensures { IfOk result (λ tables. tables ≡ zero_table ∷ []) }
    {
        let mut tables = Vec::new(alloc);
        tables.push([0; 1024])?;
        Ok(Tables { tables })
    }

    /// Writes a word of a table.
    pub fn set(&mut self, table: usize, index: usize, word: u32) -> Result<(), NoTable>
        requires { index < 1024 }
        ensures ok { OnOk result (self.new ≡ with_word self.old table index word) }
        ensures no_table { IsErr result ↔ (length self.old ≤ table) }
        ensures err { OnErr result (self.new ≡ self.old) }
    {
        if table >= self.tables.len() {
            return Err(NoTable);
        }
        self.write(table, index, word);
        Ok(())
    }

    /// Maps a page: its word becomes the leaf of this physical page with V, U, the rights, and A as given.
    ///
    /// A new table is put where the page's root word is no pointer to one; only then memory is taken.
    #[tactic(auto, unfolding(crate::specs::Tables::mapped, crate::specs::Tables::mapped_from))]
    pub fn map(
        &mut self,
        vpn: u32,
        ppn: u32,
        rights: Rights,
        accessed: bool,
    ) -> Result<(), MapFault>
        requires vpn { vpn < 2 ^ 20 }
        requires ppn { ppn < 2 ^ 22 }
        ensures ok { OnOk result (self.new ≡ mapped self.old vpn
            (word_of (leaf_entry ppn rights accessed))) }
        ensures too_many { IsErrOf result MapFault.TooManyTables ↔
            ((table_for self.old vpn ≡ None) × (length self.old ≡ MAX_TABLES)) }
        ensures no_memory { IsErrOf result MapFault.NoMemory → table_for self.old vpn ≡ None }
        ensures room { IsErrOf result MapFault.NoMemory → length self.old < MAX_TABLES }
        ensures err { OnErr result (self.new ≡ self.old) }
    {
        let leaf = Pte::leaf(ppn, rights, accessed);
        let table = match self.table_for(vpn) {
            Some(table) => table,
            None => match self.add_table(vpn / 1024) {
                Ok(table) => table,
                Err(fault) => return Err(fault),
            },
        };
        self.write(table, (vpn % 1024) as usize, leaf.0);
        Ok(())
    }

    /// Writes the word of a page that has a table. It takes no memory.
    #[tactic(auto, unfolding(crate::specs::Tables::mapped, crate::specs::Tables::mapped_from, crate::specs::EntryAt::has_table))]
    pub(crate) fn put(&mut self, vpn: u32, pte: Pte)
        requires vpn { vpn < 2 ^ 20 }
        requires table { has_table self.old vpn ≡ true }
        ensures { self.new ≡ mapped self.old vpn pte.0 }
    {
        if let Some(table) = self.table_for(vpn) {
            self.write(table, (vpn % 1024) as usize, pte.0);
        }
    }

    /// Takes a page's word away and answers it, or `None` where the page has no word with V. It takes no memory.
    #[tactic(auto, unfolding(crate::specs::Tables::marked, crate::specs::Tables::marked_from, crate::specs::Tables::found, crate::specs::Tables::found_from, crate::specs::Tables::word_if_valid))]
    pub fn unmap(&mut self, vpn: u32) -> Option<Pte>
        requires { vpn < 2 ^ 20 }
        ensures answer { result ≡ found self.old vpn }
        ensures words { self.new ≡ marked self.old vpn (λ _. 0) }
    {
        let table = self.table_for(vpn)?;
        let index = (vpn % 1024) as usize;
        let pte = Pte(self.word(table, index));
        if !pte.is_valid() {
            return None;
        }
        self.write(table, index, 0);
        Some(pte)
    }

    /// Clears A in a page's word and answers what it was, or `None` where the page has no word with V. It takes no memory.
    #[tactic(auto, unfolding(crate::specs::Tables::marked, crate::specs::Tables::marked_from, crate::specs::Tables::found, crate::specs::Tables::found_from, crate::specs::Tables::word_if_valid))]
    pub fn test_and_clear_accessed(&mut self, vpn: u32) -> Option<bool>
        requires { vpn < 2 ^ 20 }
        ensures answer { result ≡ option_map (λ pte. (entry_of pte.0).accessed)
            (found self.old vpn) }
        ensures words { self.new ≡ marked self.old vpn (λ e.
            word_of (record e { accessed = false })) }
        ensures gone { IfNone result (self.new ≡ self.old) }
    {
        let table = self.table_for(vpn)?;
        let index = (vpn % 1024) as usize;
        let pte = Pte(self.word(table, index));
        if !pte.is_valid() {
            return None;
        }
        self.write(table, index, pte.without_accessed().0);
        Some(pte.is_accessed())
    }

    /// Clears D in a page's word and answers what it was, or `None` where the page has no word with V. It takes no memory.
    #[tactic(auto, unfolding(crate::specs::Tables::marked, crate::specs::Tables::marked_from, crate::specs::Tables::found, crate::specs::Tables::found_from, crate::specs::Tables::word_if_valid))]
    pub fn clear_dirty(&mut self, vpn: u32) -> Option<bool>
        requires { vpn < 2 ^ 20 }
        ensures answer { result ≡ option_map (λ pte. (entry_of pte.0).dirty)
            (found self.old vpn) }
        ensures words { self.new ≡ marked self.old vpn (λ e.
            word_of (record e { dirty = false })) }
        ensures gone { IfNone result (self.new ≡ self.old) }
    {
        let table = self.table_for(vpn)?;
        let index = (vpn % 1024) as usize;
        let pte = Pte(self.word(table, index));
        if !pte.is_valid() {
            return None;
        }
        self.write(table, index, pte.without_dirty().0);
        Some(pte.is_dirty())
    }

    /// A page's word, or `None` where it has none with V.
    #[tactic(auto, unfolding(crate::specs::Tables::found, crate::specs::Tables::found_from, crate::specs::Tables::word_if_valid))]
    pub fn lookup(&self, vpn: u32) -> Option<Pte>
        requires { vpn < 2 ^ 20 }
        ensures { result ≡ found self.now vpn }
    {
        let table = self.table_for(vpn)?;
        let pte = Pte(self.word(table, (vpn % 1024) as usize));
        if pte.is_valid() { Some(pte) } else { None }
    }

    /// The table of a page's word.
    #[tactic(auto, unfolding(crate::specs::Tables::table_for, crate::specs::Tables::pointed_by))]
    fn table_for(&self, vpn: u32) -> Option<usize>
        requires { vpn < 2 ^ 20 }
        ensures table { result ≡ table_for self.now vpn }
        ensures within { IfSome result (λ table. table < length self.now) }
    {
        // For the proof only: a read shows its invariant.
        let _ = &self.tables;
        let root = Pte(self.word(0, (vpn / 1024) as usize));
        match root.shape() {
            Shape::Pointer if !root.has_reserved() => self.table_at(root.ppn()),
            _ => None,
        }
    }

    /// Puts a new table of zeros after the others, and makes a root word point to it.
    #[tactic(auto, unfolding(crate::specs::Tables::with_table, crate::specs::Tables::zero_table))]
    fn add_table(&mut self, index: u32) -> Result<usize, MapFault>
        requires { index < 1024 }
        ensures ok { OnOk result (self.new ≡ with_table self.old index) }
        ensures table { IfOk result (λ table. (table ≡ length self.old) ×
            (table < length self.new)) }
        ensures too_many { IsErrOf result MapFault.TooManyTables ↔ (length self.old ≡ MAX_TABLES) }
        ensures room { IsErrOf result MapFault.NoMemory → length self.old < MAX_TABLES }
        ensures err { OnErr result (self.new ≡ self.old) }
    {
        let table = self.tables.len();
        if table == MAX_TABLES {
            return Err(MapFault::TooManyTables);
        }
        let pointer = Pte::pointer(TABLE_PPN + table as u32);
        if self.tables.push([0; 1024]).is_err() {
            return Err(MapFault::NoMemory);
        }
        self.write(0, index as usize, pointer.0);
        Ok(table)
    }

    /// The words of all tables, the root's first.
    pub fn words(&self) -> &[[u32; 1024]]
        ensures { result.now ≡ self.now }
    {
        self.tables.as_slice()
    }

    #[tactic(auto, unfolding(crate::specs::Tables::word_in))]
    fn word(&self, table: usize, index: usize) -> u32
        requires table { table < length self.now }
        requires index { index < 1024 }
        ensures { result ≡ word_in self.now table index }
    {
        self.tables[table][index]
    }

    #[tactic(auto, unfolding(crate::specs::Tables::with_word))]
    fn write(&mut self, table: usize, index: usize, word: u32)
        requires table { table < length self.old }
        requires index { index < 1024 }
        ensures words { self.new ≡ with_word self.old table index word }
        ensures count { length self.new ≡ length self.old }
    {
        self.tables[table][index] = word;
    }

    /// The table in the physical page of this number.
    #[tactic(auto, unfolding(crate::specs::Tables::table_of))]
    fn table_at(&self, ppn: u32) -> Option<usize>
        ensures table { result ≡ table_of (length self.now) ppn }
        ensures within { IfSome result (λ table. table < length self.now) }
    {
        let table = ppn.checked_sub(TABLE_PPN)? as usize;
        if table < self.tables.len() {
            Some(table)
        } else {
            None
        }
    }

    /// Where a walk for an address ends (translation process, steps 2 to 4).
    #[tactic(auto, unfolding(crate::specs::Tables::walk_end, crate::specs::Tables::root_step))]
    fn walk_end(&self, address: u32) -> Result<LeafPlace, WalkFault>
        ensures place { result ≡ walk_end self.now address }
        ensures within { IfOk result (λ place. (place.table < length self.now) ×
            (place.index < 1024)) }
    {
        // For the proof only: a read shows its invariant.
        let _ = &self.tables;
        let index = (address / 0x40_0000) as usize;
        let root = Pte(self.word(0, index));
        // Most walks go on to a table, so that this is tested first.
        if root.is_pointer() {
            return self.pointer_end(root, address);
        }
        if !root.is_leaf() {
            return Err(WalkFault::PageFault);
        }
        Ok(LeafPlace {
            table: 0,
            index,
            superpage: true,
        })
    }

    /// Where a walk ends that this pointer leads on.
    #[tactic(auto, unfolding(crate::specs::Tables::root_step, crate::specs::Tables::next_step, crate::specs::Tables::last_step))]
    fn pointer_end(&self, root: Pte, address: u32) -> Result<LeafPlace, WalkFault>
        ensures place { result ≡ root_step self.now address (entry_of root.0) Shape.Pointer }
        ensures within { IfOk result (λ place. (place.table < length self.now) ×
            (place.index < 1024)) }
    {
        if root.has_reserved() {
            return Err(WalkFault::PageFault);
        }
        let Some(table) = self.table_at(root.ppn()) else {
            return Err(WalkFault::AccessFault);
        };
        let index = (address / 0x1000 % 1024) as usize;
        if !Pte(self.word(table, index)).is_leaf() {
            return Err(WalkFault::PageFault);
        }
        Ok(LeafPlace {
            table,
            index,
            superpage: false,
        })
    }

    /// Translates an address for an access in user mode (privileged manual, Sv32 virtual address translation process).
    ///
    /// It sets the leaf's A, and D too for a store; a fault changes nothing. It takes no memory.
    #[inline(always)]
    #[tactic(auto, using(crate::proofs::Translation::walk_translates))]
    pub fn walk(&mut self, address: u32, access: Access) -> Result<Leaf, WalkFault>
        ensures leaf { result ≡ (walked self.old address access).0 }
        ensures words { self.new ≡ (walked self.old address access).1 }
        ensures manual { IsTranslation self.old address access result self.new }
    {
        // For the proof only: a read shows its invariant.
        let _ = &self.tables;
        self.walk_tables(address, access)
    }

    #[inline]
    #[tactic(auto, unfolding(crate::specs::Tables::walked, crate::specs::Tables::walked_from, crate::specs::Tables::translated, crate::specs::Tables::physical_of))]
    fn walk_tables(&mut self, address: u32, access: Access) -> Result<Leaf, WalkFault>
        ensures leaf { result ≡ (walked self.old address access).0 }
        ensures words { self.new ≡ (walked self.old address access).1 }
    {
        let place = match self.walk_end(address) {
            Ok(place) => place,
            Err(fault) => return Err(fault),
        };
        let pte = Pte(self.word(place.table, place.index));
        if !permits(pte, access, place.superpage) {
            return Err(WalkFault::PageFault);
        }
        let physical = physical(place.superpage, pte.ppn(), address);
        let pte = pte.touched(access);
        self.write(place.table, place.index, pte.0);
        Ok(Leaf { pte, physical })
    }
}

/// Whether a leaf allows an access in user mode (steps 5 and 6).
#[tactic(auto, unfolding(crate::specs::Tables::permits))]
fn permits(pte: Pte, access: Access, superpage: bool) -> bool
    ensures { result ≡ permits superpage access (entry_of pte.0) }
{
    pte.allows(access) && (!superpage || pte.is_aligned())
}

/// The physical address (step 8).
#[tactic(auto, unfolding(crate::specs::Tables::physical_of))]
fn physical(superpage: bool, ppn: u32, address: u32) -> u64
    ensures { result ≡ physical_of superpage ppn address }
{
    if superpage {
        u64::from(ppn / 1024) * 0x40_0000 + u64::from(address % 0x40_0000)
    } else {
        u64::from(ppn) * 0x1000 + u64::from(address % 0x1000)
    }
}
