//! The functions of a profile: where they begin, and what they are called.

use elf_symbols::Symbols;
use guest_profile::{CallSite, Profile};
use std::alloc::{AllocError, AllocFailed, Global};
use std::collections::BTreeMap;
use std::io;
use std::io::Write;

/// The level of a call within a call of the same function.
pub(crate) const INNER: u32 = 2;

/// How many bytes a page has.
const PAGE: u32 = 4096;

/// The functions of a profile. One begins at each symbol and at each address that was called.
#[derive(Drop)]
pub(crate) struct FunctionNames<'f> {
    symbols: Symbols<'f>,
    /// The addresses that were called, and of each whether a call of it was an inner one.
    called: BTreeMap<u32, bool>,
    /// The functions that have their name with others, and so are called by their address too.
    shared: BTreeMap<u32, bool>,
}

impl<'f> FunctionNames<'f> {
    /// The functions that were called.
    pub(crate) fn of(
        alloc: Global,
        profile: &Profile,
        symbols: Symbols<'f>,
    ) -> Result<Self, AllocError> {
        let mut called = BTreeMap::new(alloc);
        for call in profile.calls(alloc)?.as_slice() {
            let was_inner = is_true(&called, call.callee);
            called
                .insert(call.callee, was_inner || call.level == INNER)
                .map_err(AllocError::from)?;
        }
        Ok(FunctionNames {
            symbols,
            called,
            shared: BTreeMap::new(alloc),
        })
    }

    /// Marks those of some functions, each given once, that have the same name.
    pub(crate) fn tell_apart(&mut self, functions: &[u32]) -> Result<(), AllocError> {
        for (place, one) in functions.iter().enumerate() {
            for other in &functions[place..] {
                if one != other && self.have_one_name(*one, *other) {
                    self.shared.insert(*one, true).map_err(AllocError::from)?;
                    self.shared.insert(*other, true).map_err(AllocError::from)?;
                }
            }
        }
        Ok(())
    }

    fn have_one_name(&self, one: u32, other: u32) -> bool {
        match (self.symbols.nearest(one), self.symbols.nearest(other)) {
            (Some(one), Some(other)) => {
                one.offset == 0 && other.offset == 0 && one.name == other.name
            }
            _ => false,
        }
    }

    /// The address at which the function of an instruction begins; where none is known, that of the instruction's page.
    pub(crate) fn function_of(&self, address: u32) -> u32 {
        let called = self.called.range(..=address).next_back();
        match (self.symbols.nearest(address), called) {
            (Some(place), Some((start, _))) => place.address.max(*start),
            (Some(place), None) => place.address,
            (None, Some((start, _))) => *start,
            (None, None) => address - address % PAGE,
        }
    }

    /// Whether a function was called within itself.
    pub(crate) fn has_inner(&self, function: u32) -> bool {
        is_true(&self.called, function)
    }

    /// The level that is printed for a call's caller: that of its steps, where the function was called within itself.
    pub(crate) fn caller_level(&self, call: CallSite) -> u32 {
        if self.has_inner(self.function_of(call.site)) {
            call.from_level
        } else {
            1
        }
    }

    /// Writes a function's name: that of its symbol, with the address where others have the same, or the address. Inner calls have `'2`
    /// after the name.
    pub(crate) fn write_name<O: Write>(
        &self,
        function: u32,
        level: u32,
        out: &mut O,
    ) -> io::Result<()> {
        match self.symbols.nearest(function) {
            Some(place) => {
                write!(out, "{place}")?;
                if is_true(&self.shared, function) {
                    write!(out, "@0x{function:08X}")?;
                }
            }
            None => write!(out, "0x{function:08X}")?,
        }
        if level == INNER {
            write!(out, "'2")?;
        }
        Ok(())
    }

    /// Writes a place: its function, and how far into it the place is.
    pub(crate) fn write_place<O: Write>(
        &self,
        address: u32,
        level: u32,
        out: &mut O,
    ) -> io::Result<()> {
        let function = self.function_of(address);
        self.write_name(function, level, out)?;
        let offset = address.saturating_sub(function);
        if offset > 0 {
            write!(out, " + {offset}")?;
        }
        Ok(())
    }
}

/// Whether an address is marked.
fn is_true(marks: &BTreeMap<u32, bool>, address: u32) -> bool {
    match marks.get(&address) {
        Some(is_marked) => *is_marked,
        None => false,
    }
}
