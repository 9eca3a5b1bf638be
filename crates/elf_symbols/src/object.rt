//! Objects of a program, by their names.

ghost use Rattle.std.specs.Prelude.{◌≡◌, ◌+◌, ◌*◌, ◌/◌, ◌≤◌, IfSome, length};
ghost use Rattle.elf_symbols.specs.Objects.{LiesIn, called_from, is_called, object_named, object_of, place_in};

use crate::reading::{half_at, word_at};
use crate::section::{Section, section_of, symbol_tables};
use crate::symbols::{SYMBOL_SIZE, is_in_section, name_at};

/// What kind of section has no bytes in the file.
const NO_BYTES: u32 = 8;

/// Where an object is.
#[derive(Clone, Copy, PartialEq, Eq, Debug)]
pub struct ObjectPlace {
    /// In memory.
    pub address: u32,
    /// In the file.
    pub offset: usize,
    /// How many bytes it has.
    pub size: u32,
}

/// The object of the first symbol of a name, if the file has its bytes.
pub fn find_object(file: &[u8], name: &[u8]) -> Option<ObjectPlace>
    ensures found { result ≡ object_named name.now file.now }
    ensures lies { IfSome result (λ place. LiesIn place (length file.now)) }
{
    let (table, names) = symbol_tables(file)?;
    let number = symbol_called(name, table, names)?;
    object_of(file, &table[SYMBOL_SIZE * number..])
}

/// The number of the first symbol of a name.
#[tactic(auto, using(crate::proofs::CalledSymbols::called_found, crate::proofs::CalledSymbols::called_passed, crate::proofs::CalledSymbols::none_called))]
fn symbol_called(name: &[u8], table: &[u8], names: &[u8]) -> Option<usize>
    ensures found { result ≡ called_from name.now table.now names.now 0 (length table.now / 16) }
    ensures there { IfSome result (λ number. 16 * number + 16 ≤ length table.now) }
{
    'symbols: for number in 0..table.len() / SYMBOL_SIZE {
        if is_called(name, table, names, number) {
            return Some(number);
        }
    }
    None
}

/// Whether the symbol of a number has this name.
fn is_called(name: &[u8], table: &[u8], names: &[u8], number: usize) -> bool
    requires { 16 * number + 16 ≤ length table.now }
    ensures { result ≡ is_called name.now table.now names.now number }
{
    name_at(names, word_at(table, SYMBOL_SIZE * number) as usize) == name
}

/// The object of 16 bytes of a table.
#[tactic(auto, unfolding(crate::specs::Objects::object_of))]
fn object_of(file: &[u8], symbol: &[u8]) -> Option<ObjectPlace>
    requires { 16 ≤ length symbol.now }
    ensures found { result ≡ object_of file.now symbol.now }
    ensures lies { IfSome result (λ place. LiesIn place (length file.now)) }
{
    let number = half_at(symbol, 14);
    if !is_in_section(number) {
        return None;
    }
    let section = section_of(file, number as usize)?;
    place_in(file.len(), word_at(symbol, 4), word_at(symbol, 8), section)
}

/// Where so many bytes of memory are in a file of this length, if the section has them.
#[tactic(auto, unfolding(crate::specs::Objects::place_in, crate::specs::Objects::holds))]
fn place_in(file_length: usize, address: u32, size: u32, section: Section) -> Option<ObjectPlace>
    ensures found { result ≡ place_in file_length address size section }
    ensures lies { IfSome result (λ place. LiesIn place file_length) }
{
    if section.kind == NO_BYTES || address < section.address {
        return None;
    }
    let before = address - section.address;
    let end = u64::from(address) + u64::from(size);
    if u64::from(section.address) + u64::from(section.size) < end {
        return None;
    }
    let file_end = u64::from(section.offset) + u64::from(section.size);
    if file_end > file_length as u64 || end > u64::from(u32::MAX) {
        return None;
    }
    Some(ObjectPlace {
        address,
        offset: section.offset as usize + before as usize,
        size,
    })
}
