//! Tables of symbols.

ghost use Rattle.std.specs.Prelude.{◌≡◌, ℕ, ◌+◌, ◌*◌, ◌≤◌, IfOk, IfSome, IfNone, OnOk, None, length, position, slice_get, ◌==◌};
ghost use Rattle.elf_symbols.specs.Nearest.{IsNearest, standing, symbol_name};
ghost use Rattle.elf_symbols.specs.SymbolTables.{begins_name, entry_at, entry_of, file_name, is_in_section, is_of_assembler, name_at, names_place, table_name, with_entry};

use crate::place::Place;
use crate::reading::{half_at, word_at};
use crate::section::symbol_tables;
use std::alloc::{AllocError, AllocFailed, Global};
use std::collections::BTreeMap;

/// How many bytes a symbol has.
pub(crate) const SYMBOL_SIZE: usize = 16;

/// What kind of symbol a function is.
const FUNCTION: u8 = 2;

/// The first of the section numbers that represent something other than a section.
const RESERVED: u16 = 0xFF00;

/// The symbols of a program that name code or places in it, one for each address.
#[derive(Drop)]
pub struct Symbols<'f> {
    names: &'f [u8],
    by_address: BTreeMap<u32, Named>,
}

/// Where the name of a symbol begins.
#[derive(Clone, Copy, Debug)]
struct Named {
    name: u32,
    is_function: bool,
}

/// A symbol of a file.
#[derive(Clone, Copy, Debug)]
struct Entry {
    address: u32,
    named: Named,
}

impl<'f> Symbols<'f> {
    /// The symbols of a file: none where it has no table of symbols, or one that is not as it has to be.
    pub fn read(alloc: Global, file: &'f [u8]) -> Result<Self, AllocError>
        ensures { IfOk result (λ symbols. (address : ℕ) →
            symbol_name symbols address ≡ file_name file.now address) }
    {
        match symbol_tables(file) {
            Some((table, names)) => Symbols::of_table(alloc, table, names),
            None => Ok(Symbols::none(alloc)),
        }
    }

    /// No symbol.
    pub fn none(alloc: Global) -> Self
        ensures { (address : ℕ) → symbol_name result address ≡ None }
    {
        Symbols {
            names: &[],
            by_address: BTreeMap::new(alloc),
        }
    }

    /// The nearest symbol at or below an address, if there is one.
    pub fn nearest(&self, address: u32) -> Option<Place<'f>>
        ensures found { IfSome result (IsNearest self.now address) }
        ensures none { IfNone result ((at : ℕ) → at ≤ address → symbol_name self.now at ≡ None) }
    {
        let (at, named) = self.by_address.range(..=address).next_back()?;
        let at = *at;
        Some(Place {
            name: name_at(self.names, named.name as usize),
            address: at,
            offset: address - at,
        })
    }

    /// The symbols of a table, of which these are the names.
    fn of_table(alloc: Global, table: &[u8], names: &'f [u8]) -> Result<Self, AllocError>
        ensures { IfOk result (λ symbols. (address : ℕ) →
            symbol_name symbols address ≡ table_name (table.now, names.now) address) }
    {
        let mut symbols = Symbols {
            names,
            by_address: BTreeMap::new(alloc),
        };
        'symbols: for number in 0..table.len() / SYMBOL_SIZE {
            if let Some(entry) = entry_at(table, names, number) {
                symbols.add(entry)?;
            }
        }
        Ok(symbols)
    }

    /// Takes a symbol in. Of several symbols at one address it keeps the first function, else the first symbol.
    fn add(&mut self, entry: Entry) -> Result<(), AllocError>
        ensures added { OnOk result ((address : ℕ) → standing self.new address ≡
            with_entry entry address (standing self.old address)) }
        ensures names { self.new.names ≡ self.old.names }
    {
        if let Some(there) = self.by_address.get(&entry.address) {
            if there.is_function || !entry.named.is_function {
                return Ok(());
            }
        }
        self.by_address
            .insert(entry.address, entry.named)
            .map_err(AllocError::from)?;
        Ok(())
    }
}

/// The symbol of a number, where it names code or a place in it.
fn entry_at(table: &[u8], names: &[u8], number: usize) -> Option<Entry>
    requires { 16 * number + 16 ≤ length table.now }
    ensures { result ≡ entry_at table.now names.now number }
{
    entry_of(&table[SYMBOL_SIZE * number..], names)
}

/// The symbol that 16 bytes are, where it names code or a place in it. It is a function or of no kind, and has a section of the program
/// and a name. It is no mapping symbol, which only separates code from data (`$x`, `$d` and longer ones), and no assembler label (`.L3`).
#[tactic(auto, unfolding(crate::specs::SymbolTables::entry_of))]
fn entry_of(symbol: &[u8], names: &[u8]) -> Option<Entry>
    requires { 16 ≤ length symbol.now }
    ensures { result ≡ entry_of names.now symbol.now }
{
    let name = word_at(symbol, 0);
    let kind = symbol[12] % 16;
    if !names_place(kind)
        || !is_in_section(half_at(symbol, 14))
        || !begins_name(names, name as usize)
        || is_of_assembler(names, name)
    {
        return None;
    }
    Some(Entry {
        address: word_at(symbol, 4),
        named: Named {
            name,
            is_function: kind == FUNCTION,
        },
    })
}

/// Whether a symbol of a kind may name a place: a function, or one of no kind.
fn names_place(kind: u8) -> bool
    ensures { result ≡ names_place kind }
{
    kind == 0 || kind == FUNCTION
}

/// Whether the number of a section is that of one of the file's.
pub(crate) fn is_in_section(section: u16) -> bool
    ensures { result ≡ is_in_section section }
{
    section > 0 && section < RESERVED
}

/// Whether a name that represents a place begins at an offset.
fn begins_name(names: &[u8], offset: usize) -> bool
    ensures { result ≡ begins_name (slice_get names.now offset) }
{
    match names.get(offset) {
        Some(byte) => *byte != 0 && *byte != b'$',
        None => false,
    }
}

/// Whether the name of a label of the assembler's own begins at an offset.
fn is_of_assembler(names: &[u8], offset: u32) -> bool
    ensures { result ≡ is_of_assembler (slice_get names.now offset) (slice_get names.now
        (offset + 1)) }
{
    let Some(byte) = names.get(offset as usize) else {
        return false;
    };
    let Some(next) = names.get(offset as usize + 1) else {
        return false;
    };
    *byte == b'.' && *next == b'L'
}

/// The name that begins at an offset: up to the next byte 0.
#[tactic(auto, unfolding(crate::specs::SymbolTables::name_at))]
pub(crate) fn name_at(names: &[u8], offset: usize) -> &[u8]
    ensures { result.now ≡ name_at names.now offset }
{
    if offset > names.len() {
        return &[];
    }
    let rest = &names[offset..];
    match end_of_name(rest) {
        Some(end) => &rest[..end],
        None => rest,
    }
}

/// Where the first byte 0 is.
fn end_of_name(rest: &[u8]) -> Option<usize>
    ensures { result ≡ position (λ byte. byte == 0) rest.now }
{
    rest.iter().position(|byte| *byte == 0)
}
