//! A page of code, decoded.

ghost use Rattle.std.specs.Prelude.{◌≡◌, ◌%◌, ◌<◌, ◌≤◌, IfOk, length};
ghost use Rattle.page_memory.specs.declared.rights.Rights.{Rights};
ghost use Rattle.decoded_pages.specs.Classes.{class_of, EndsLine};
ghost use Rattle.decoded_pages.specs.Code.{IsDecoded};
ghost use Rattle.decoded_pages.specs.Lines.{LinesFrom};

use crate::instruction::DecodedInstruction;
use crate::operation::Operation;
use page_memory::{Width, number};
use std::alloc::{AllocError, Global};

/// How many instructions a page has.
pub const PAGE_WORDS: u32 = 1024;

/// The decoded instructions of a page.
#[derive(Drop)]
pub struct DecodedPage {
    /// The page's first address.
    pub start: u32,
    /// Its instructions. The end of the page follows the last of them.
    pub instructions: Vec<DecodedInstruction>,
    /// By the number of an instruction: how far a straight line goes from it at most, to the number of the first instruction that is not
    /// done in it.
    pub ends: Vec<u32>,
}

impl DecodedPage {
    /// The page of these bytes that starts there.
    pub fn of_bytes(alloc: Global, start: u32, bytes: &[u8]) -> Result<Self, AllocError>
        requires page { start % 4096 ≡ 0 }
        requires whole { length bytes.now ≡ 4096 }
        ensures start { IfOk result (λ page. page.start ≡ start) }
        ensures decoded { (rights : Rights) → IfOk result (λ page.
            IsDecoded page (record { rights = rights; bytes = bytes.now })) }
    {
        let mut instructions = Vec::with_capacity(alloc, PAGE_WORDS as usize + 1)?;
        for place in 0..PAGE_WORDS {
            let word = number(bytes, Width::Word, start + place * 4);
            instructions.push_reserved(DecodedInstruction::of_word(start, place, word));
        }
        instructions.push_reserved(DecodedInstruction::page_end());
        let ends = line_ends(alloc, instructions.as_slice())?;
        Ok(DecodedPage {
            start,
            instructions,
            ends,
        })
    }
}

/// How far straight lines go, from each instruction of a page.
fn line_ends(alloc: Global, instructions: &[DecodedInstruction]) -> Result<Vec<u32>, AllocError>
    requires whole { length instructions.now ≡ 1025 }
    ensures counted { IfOk result (λ ends. length ends.items ≡ 1025) }
    ensures lines { IfOk result (λ ends. LinesFrom 0 instructions.now ends.items) }
{
    let mut ends = Vec::from_elem(alloc, PAGE_WORDS, PAGE_WORDS as usize + 1)?;
    let mut place = PAGE_WORDS;
    let mut end = PAGE_WORDS;
    while place != 0 {
        place -= 1;
        end = line_end(instructions[place as usize].operation, place, end);
        ends[place as usize] = end;
    }
    Ok(ends)
}

/// How far a straight line goes from an instruction, where one from the next goes that far.
fn line_end(operation: Operation, place: u32, next: u32) -> u32
    requires after { place < next }
    ensures line { EndsLine (class_of operation) place result next }
    ensures from { place ≤ result }
    ensures within { result ≤ next }
{
    match operation {
        Operation::ByWord | Operation::PageEnd => place,
        Operation::JumpAndLink
        | Operation::Jump
        | Operation::JumpAndLinkRegister
        | Operation::JumpRegister => place + 1,
        _ => next,
    }
}
