//! The program that the first pass collects: items in order, places of labels, and sizes of sections.

ghost use Rattle.std.specs.Prelude.{◌≡◌, ◌<◌, ◌≤◌, ◌+◌, ◌^◌, ◌==◌, IfOk, IfErr, IfSome, option_map, ℕ, List};
ghost use Rattle.asm_lines.specs.Faults.{RefusesLine};
ghost use Rattle.page_memory.specs.MemoryMap.{text_start};
ghost use Rattle.rv_asm.specs.Program.{label_place, size, address_of, section_start, section_of_label, most_text, most_data};
ghost use Rattle.rv_asm.specs.Listing.{entry_point_of};
ghost use Rattle.rv_asm.specs.FirstPass.{no_lines, with_label, with_item};
ghost use Rattle.asm_statements.specs.declared.section.Section.TheVariants.{Text, Data};
ghost use Rattle.rv_asm.specs.declared.item.Item.TheVariants.{InText, InData};

use crate::item::Item;
use crate::label_place::LabelPlace;
use asm_lines::{FaultKind, LineRefusal, Span};
use asm_statements::{CodePart, Section};
use asm_values::Datum;
use elf_image::TEXT_START;
use page_memory::PAGE_SIZE;
use std::alloc::Global;
use std::collections::HashMap;
use std::marker::Model;

/// How many bytes a page has.
const PAGE: u32 = PAGE_SIZE as u32;

/// The most bytes that the text may have: 65536 words.
const MOST_TEXT: u32 = 0x4_0000;

/// The most bytes that the data may have.
const MOST_DATA: u32 = 0x10_0000;

/// A program as far as its source is read: its items in the order of the source, the section to which the next line
/// belongs, where each name is, and how many bytes each section has.
#[derive(Drop)]
pub(crate) struct Program<'a> {
    section: Section,
    items: Vec<Item<'a>>,
    places: HashMap<&'a [u8], LabelPlace>,
    text_size: u32,
    data_size: u32,
}

impl<'a> Model for Program<'a> {
    ghost use Rattle.rv_asm.specs.FirstPass.{Progress};

    ghost Value = { Progress };

    ghost use Rattle.rv_asm.specs.Counted.{IsCounted};

    ghost view = { λ program. record { section = program.section; items = program.items.items } };

    ghost invariant = { λ program. IsCounted program.items.items program.places program.text_size program.data_size };
}

impl<'a> Program<'a> {
    /// The program of no lines.
    pub(crate) fn new(alloc: Global) -> Self
        ensures { result ≡ no_lines }
    {
        Program {
            section: Section::Text,
            items: Vec::new(alloc),
            places: HashMap::new(alloc),
            text_size: 0,
            data_size: 0,
        }
    }

    /// The section to which the next line belongs.
    pub(crate) fn section(&self) -> Section
        ensures { result ≡ self.now.section }
    {
        self.section
    }

    /// The items, in the order of the source.
    pub(crate) fn items(&self) -> &[Item<'a>]
        ensures items { result.now ≡ self.now.items }
        ensures text_fits { size Text self.now.items ≤ most_text }
        ensures data_fits { size Data self.now.items ≤ most_data }
    {
        self.items.as_slice()
    }

    /// The same program, where the next line belongs to a section.
    pub(crate) fn entered(mut self, section: Section) -> Self
        ensures { result ≡ record self.entry { section = section } }
    {
        self.section = section;
        self
    }

    /// Where the next item of a section goes.
    fn end(&self, section: Section) -> LabelPlace
        ensures { result ≡ record { section = section; offset = size section self.now.items } }
    {
        let offset = match section {
            Section::Text => self.text_size,
            Section::Data => self.data_size,
        };
        LabelPlace { section, offset }
    }

    /// The place of a name.
    fn place(&self, name: &[u8]) -> Option<LabelPlace>
        ensures place { result ≡ label_place self.now.items name.now }
        ensures low { IfSome result (λ place. place.offset ≤ most_data) }
    {
        self.places.get(name).copied()
    }

    /// The address at which a section begins: the text at 0x00010000, the data at the next multiple of 4096 after it.
    pub(crate) fn start(&self, section: Section) -> u32
        ensures start { result ≡ section_start self.now.items section }
        ensures below { result ≤ text_start + most_text + 4096 }
    {
        match section {
            Section::Text => TEXT_START,
            Section::Data => (TEXT_START + self.text_size).div_ceil(PAGE) * PAGE,
        }
    }

    /// Whether the text has no word.
    pub(crate) fn has_no_text(&self) -> bool
        ensures { result ≡ (size Text self.now.items == 0) }
    {
        self.text_size == 0
    }

    /// The entry: the label `_start`, where it is in the text before its end; else where the text begins.
    #[tactic(auto, unfolding(crate::specs::Listing::entry_point_of))]
    pub(crate) fn entry(&self) -> u32
        ensures { result ≡ entry_point_of self.now.items }
    {
        match self.place(b"_start") {
            Some(
                LabelPlace {
                    section: Section::Text,
                    offset,
                },
            ) if offset < self.text_size => TEXT_START + offset,
            _ => TEXT_START,
        }
    }

    /// The address of a label, if it is anywhere.
    #[tactic(auto, unfolding(crate::specs::Program::address_of))]
    pub(crate) fn address_of(&self, name: &[u8]) -> Option<u32>
        ensures address { result ≡ address_of self.now.items name.now }
        ensures below { IfSome result (λ address. address < 2 ^ 31) }
    {
        match self.place(name) {
            Some(place) => Some(self.start(place.section) + place.offset),
            None => None,
        }
    }

    /// The program with one more label, at the end of the section.
    pub(crate) fn with_label(mut self, name: Span<'a>) -> Result<Self, LineRefusal>
        ensures program { IfOk result (λ program. with_label self.entry name.entry ≡ Ok program) }
        ensures refusal { IfErr result (RefusesLine (with_label self.entry name.entry)) }
    {
        if self.place(name.bytes()).is_some() {
            return Err(LineRefusal::Fault(FaultKind::LabelTwice));
        }
        let section = self.section;
        let place = self.end(section);
        self.places.insert(name.bytes(), place)?;
        self.items.push(Item::Label { section, name })?;
        Ok(self)
    }

    /// The program with one more part of its text, from a line.
    pub(crate) fn with_code(self, line: usize, code: CodePart<'a>) -> Result<Self, LineRefusal>
        ensures program { IfOk result (λ program. with_item self.entry (InText line code.entry) ≡
            Ok program) }
        ensures refusal { IfErr result (RefusesLine (with_item self.entry
            (InText line code.entry))) }
    {
        self.with_item(Item::InText { line, code })
    }

    /// The program with one more part of its data, from a line.
    pub(crate) fn with_datum(self, line: usize, datum: Datum<'a>) -> Result<Self, LineRefusal>
        ensures program { IfOk result (λ program. with_item self.entry (InData line datum.entry) ≡
            Ok program) }
        ensures refusal { IfErr result (RefusesLine (with_item self.entry
            (InData line datum.entry))) }
    {
        self.with_item(Item::InData { line, datum })
    }

    /// The program with one more part, where there is room for it.
    fn with_item(mut self, item: Item<'a>) -> Result<Self, LineRefusal>
        requires { (name : List ℕ) → section_of_label name item ≡ None }
        ensures program { IfOk result (λ program. with_item self.entry item.entry ≡ Ok program) }
        ensures refusal { IfErr result (RefusesLine (with_item self.entry item.entry)) }
    {
        let text = item.length(Section::Text);
        let data = item.length(Section::Data);
        if text > MOST_TEXT - self.text_size || data > MOST_DATA - self.data_size {
            return Err(LineRefusal::Fault(FaultKind::TooLong));
        }
        self.items.push(item)?;
        self.text_size += text;
        self.data_size += data;
        Ok(self)
    }
}
