//! `paged asm`: a source made into an ELF file.

ghost use Rattle.std.specs.Prelude.{OnOk};
ghost use Rattle.elf_image.specs.WrittenFiles.{elf_file};
ghost use Rattle.flat_commands.specs.AsmRun.{AsmAsAsked};

use command_line::AsmRequest;
use elf_image::write_elf;
use image_files::{Fault, Folder, read_source};
use rv_asm::Listing;
use std::io::Write;

/// Writes the ELF file of a source, and what it holds: its words of text, its bytes of data before padding, its entry.
pub fn run_asm<'a, R: Folder + AllocGlobal, W: Write>(
    rt: &R,
    request: &AsmRequest<'a>,
    out: &mut W,
) -> Result<(), Fault<'a>>
    ensures { OnOk result (AsmAsAsked R.gives R.accepts request.now) }
{
    let listing = read_source(rt, request.source)?;
    write_file(rt, request.target, &listing)?;
    tell(&listing, out)
}

/// Writes the ELF file of a listing.
fn write_file<'a, R: Folder + AllocGlobal>(
    rt: &R,
    target: &'a str,
    listing: &Listing,
) -> Result<(), Fault<'a>>
    ensures { OnOk result (R.accepts target.now (elf_file listing.now.image)) }
{
    let file = write_elf(rt.alloc(), listing.image())?;
    rt.write(target, file.as_slice())
}

/// Writes what a listing holds.
fn tell<'a, W: Write>(listing: &Listing, out: &mut W) -> Result<(), Fault<'a>> {
    writeln!(
        out,
        "words {} data {} entry 0x{:08X}",
        listing.words().len(),
        listing.data_bytes(),
        listing.image().entry()
    )?;
    Ok(())
}
