//! The second pass: the words of text and the bytes of data that the program's items put there, in order.

ghost use Rattle.std.specs.Prelude.{◌≡◌, ◌<◌, ◌≤◌, ◌+◌, ◌*◌, ◌++◌, ◌∷◌, [], ◌^◌, IfOk, IfErr, length, map, replicate};
ghost use Rattle.rv_asm.specs.Steps.{Fails, map_value, on_line};
ghost use Rattle.rv_asm.specs.Program.{address_of};
ghost use Rattle.rv_asm.specs.SecondPass.{no_sections, next_address, put, words_list, datum_bytes};
ghost use Rattle.rv_asm.specs.Words.{Spell, instruction_of};
ghost use Rattle.rv_asm.specs.declared.item.Item.TheVariants.{InText, InData};

use crate::code_words::code_words;
use crate::fault::AsmError;
use crate::item::Item;
use crate::program::Program;
use crate::word::{TextWord, Words};
use asm_lines::FaultKind;
use asm_statements::CodePart;
use asm_values::Datum;
use elf_image::TEXT_START;
use rv_isa::Insn;
use std::alloc::{AllocError, Global};
use std::marker::Model;

/// The words of a program's text and the bytes of its data, as far as they are put.
#[derive(Drop)]
pub(crate) struct Sections {
    words: Vec<u32>,
    instructions: Vec<Option<Insn>>,
    bytes: Vec<u8>,
}

impl Model for Sections {
    ghost use Rattle.rv_asm.specs.SecondPass.{Sections as Content};

    ghost Value = { Content };

    ghost use Rattle.rv_asm.specs.Words.{words_from, AreWords};

    ghost view = { λ sections. record { text = words_from sections.words.items sections.instructions.items; bytes = sections.bytes.items } };

    ghost invariant = { λ sections. AreWords sections.words.items sections.instructions.items };
}

impl Sections {
    /// Sections with nothing in them.
    pub(crate) fn new(alloc: Global) -> Self
        ensures { result ≡ no_sections }
    {
        Sections {
            words: Vec::new(alloc),
            instructions: Vec::new(alloc),
            bytes: Vec::new(alloc),
        }
    }

    /// The words of the text, the instruction of each, and the bytes of the data.
    pub(crate) fn into_parts(self) -> (Vec<u32>, Vec<Option<Insn>>, Vec<u8>)
        ensures words { Spell result.0.items self.text }
        ensures instructions { result.1.items ≡ map instruction_of self.text }
        ensures bytes { result.2.items ≡ self.bytes }
    {
        (self.words, self.instructions, self.bytes)
    }

    /// The sections with what one more item of the program puts there.
    pub(crate) fn with_item(self, program: &Program<'_>, item: &Item<'_>) -> Result<Self, AsmError>
        requires { length self.text ≤ 65536 }
        ensures sections { IfOk result (λ sections. put program.now.items self item.now ≡
            Ok sections) }
        ensures refusal { IfErr result (Fails (put program.now.items self item.now)) }
    {
        match item {
            Item::Label { .. } => Ok(self),
            Item::InText { line, code } => self.with_code(*line, program, code),
            Item::InData { line, datum } => self.with_datum(*line, program, datum),
        }
    }

    /// The sections with the words of one more part of the text.
    #[tactic(auto, unfolding(crate::specs::SecondPass::put))]
    fn with_code(
        self,
        line: usize,
        program: &Program<'_>,
        code: &CodePart<'_>,
    ) -> Result<Self, AsmError>
        requires { length self.text ≤ 65536 }
        ensures sections { IfOk result (λ sections.
            put program.now.items self (InText line code.now) ≡ Ok sections) }
        ensures refusal { IfErr result (Fails (put program.now.items self (InText line code.now))) }
    {
        match code_words(program, self.next_address(), code) {
            Ok(words) => Ok(self.with_words(words)?),
            Err(kind) => Err(AsmError::Fault { line, kind }),
        }
    }

    /// Where the next word of text goes.
    fn next_address(&self) -> u32
        requires { length self.now.text ≤ 65536 }
        ensures { result ≡ next_address self.now }
    {
        TEXT_START + 4 * self.count() as u32
    }

    /// How many words the text has.
    fn count(&self) -> usize
        ensures { result ≡ length self.now.text }
    {
        self.words.len()
    }

    /// The sections with more words of text.
    fn with_words(self, words: Words) -> Result<Self, AllocError>
        ensures { IfOk result (λ sections. sections ≡ record self {
          text = self.text ++
              words_list words;
        }) }
    {
        match words {
            Words::One(word) => self.with_word(word),
            Words::Two(first, second) => self.with_word(first)?.with_word(second),
        }
    }

    /// The sections with one more word of text.
    fn with_word(mut self, word: TextWord) -> Result<Self, AllocError>
        ensures { IfOk result (λ sections. sections ≡ record self {
          text = self.text ++
              word ∷ [];
        }) }
    {
        self.words.push(word.number())?;
        self.instructions.push(word.instruction())?;
        Ok(self)
    }

    /// The sections with the bytes of one more part of the data.
    #[tactic(auto, unfolding(crate::specs::SecondPass::put, crate::specs::SecondPass::datum_bytes))]
    fn with_datum(
        self,
        line: usize,
        program: &Program<'_>,
        datum: &Datum<'_>,
    ) -> Result<Self, AsmError>
        ensures sections { IfOk result (λ sections.
            put program.now.items self (InData line datum.now) ≡ Ok sections) }
        ensures refusal { IfErr result (Fails (put program.now.items self
            (InData line datum.now))) }
    {
        let more = match datum {
            Datum::Word(number) => self.with_bytes(&number.to_le_bytes())?,
            Datum::Pointer(label) => match program.address_of(label.bytes()) {
                Some(address) => self.with_bytes(&address.to_le_bytes())?,
                None => return Err(AsmError::Fault {
                    line,
                    kind: FaultKind::NoLabel,
                }),
            },
            Datum::Half(number) => self.with_bytes(&number.to_le_bytes())?,
            Datum::Byte(number) => self.with_bytes(&[*number])?,
            Datum::Zeros(count) => self.with_zeros(*count)?,
        };
        Ok(more)
    }

    /// The sections with more bytes of data.
    fn with_bytes(mut self, bytes: &[u8]) -> Result<Self, AllocError>
        ensures { IfOk result (λ sections. sections ≡ record self {
          bytes = self.bytes ++
              bytes.now;
        }) }
    {
        self.bytes.extend_from_slice(bytes)?;
        Ok(self)
    }

    /// The sections with so many zeros more in the data.
    fn with_zeros(mut self, count: u32) -> Result<Self, AllocError>
        ensures { IfOk result (λ sections. sections ≡ record self {
          bytes = self.bytes ++
              replicate count 0;
        }) }
    {
        for _ in 0..count {
            self.bytes.push(0)?;
        }
        Ok(self)
    }
}
