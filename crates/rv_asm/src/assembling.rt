//! From a source to its listing.

ghost use Rattle.std.specs.Prelude.{◌≡◌, ◌<◌, IfOk, IfErr, Ok, Err, ℕ, ◌⊎◌};
ghost use Rattle.rv_asm.specs.Steps.{Fails};
ghost use Rattle.rv_asm.specs.Program.{size};
ghost use Rattle.asm_statements.specs.declared.section.Section.TheVariants.{Text};
ghost use Rattle.rv_asm.specs.SecondPass.{second_pass};
ghost use Rattle.rv_asm.specs.declared.fault.AsmError.{AsmError};
ghost use Rattle.asm_lines.specs.declared.fault.FaultKind.{FaultKind};
ghost use Rattle.rv_asm.specs.Assembly.{Assembles, FirstFault, IsFirstFault};
ghost use Rattle.rv_asm.specs.Listing.{Lists, ListsTold, assembled};

use crate::fault::AsmError;
use crate::first_pass::read_source;
use crate::listing::Listing;
use crate::program::Program;
use crate::second_pass::fill_sections;
use crate::sections::Sections;
use asm_lines::FaultKind;
use asm_statements::Section;
use elf_image::{Image, TEXT_START, bytes_of_words, with_pages};
use page_memory::{Rights, page_of};
use std::alloc::{AllocError, Global};

/// Assembles a source.
///
/// Refused with its first fault, as [`FaultKind`] orders them. First is the fault of the first line that has one in its form, its
/// statement, its labels or its size. Next, where there is no word of text, is `Empty` at line 0. Third is the fault of the first
/// part of the text or the data whose label is not defined or is out of reach. Lack of memory comes last.
pub fn assemble(alloc: Global, source: &str) -> Result<Listing, AsmError>
    ensures listing { IfOk result (Assembles source.now) }
    ensures refusal { IfErr result (IsFirstFault source.now) }
    ensures exact { (line : ℕ) (kind : FaultKind) → FirstFault source.now line kind →
        (result ≡ Err (AsmError.Fault line kind)) ⊎ (result ≡ Err AsmError.NoMemory) }
{
    assemble_in_passes(alloc, source)
}

/// Assembles a source in two passes.
fn assemble_in_passes(alloc: Global, source: &str) -> Result<Listing, AsmError>
    ensures listing { IfOk result (ListsTold (assembled source.now)) }
    ensures refusal { IfErr result (Fails (assembled source.now)) }
{
    let program = read_source(alloc, source.as_bytes())?;
    if program.has_no_text() {
        return Err(AsmError::Fault {
            line: 0,
            kind: FaultKind::Empty,
        });
    }
    let sections = fill_sections(alloc, &program)?;
    Ok(make_listing(alloc, &program, sections)?)
}

/// The listing of a program and its sections.
fn make_listing(
    alloc: Global,
    program: &Program<'_>,
    sections: Sections,
) -> Result<Listing, AllocError>
    requires put { second_pass program.now.items ≡ Ok sections }
    requires some { 0 < size Text program.now.items }
    ensures { IfOk result (Lists (record { items = program.now.items; sections = sections })) }
{
    // Only for the proof: a read shows that what is read is lawful.
    let _ = program.items();
    let (words, instructions, bytes) = sections.into_parts();
    let code = bytes_of_words(alloc, &words)?;
    let pages = with_pages(
        alloc,
        Vec::new(alloc),
        page_of(TEXT_START),
        Rights::READ_EXECUTE,
        &code,
    )?;
    let first = page_of(program.start(Section::Data));
    let pages = with_pages(alloc, pages, first, Rights::READ_WRITE, &bytes)?;
    let image = Image::from_parts(program.entry(), pages).unwrap();
    Ok(Listing::new(image, words, instructions, bytes.len() as u32))
}
