//! From an ELF file to its image, or to the file's first fault.

ghost use Rattle.std.specs.Prelude.{◌≡◌, ◌≢◌, None, Some, IfOk, IfErr, OnOk};
ghost use Rattle.std.specs.List.Sorted.{IsPermutation, IsNonDecreasingBy};
ghost use Rattle.elf_image.specs.ElfFiles.{file_fault, file_image, early_fault, header_fault, program_fault, loading_fault, segments};
ghost use Rattle.elf_image.specs.declared.fault.ElfFault.{ElfFault};
ghost use Rattle.elf_image.specs.declared.fault.ElfFault.TheVariants.{NoMemory};

use crate::fault::ElfFault;
use crate::file_header::{entry, header_fault};
use crate::header_checks::program_fault;
use crate::image::Image;
use crate::loading::load_pages;
use crate::program_header::ProgramHeader;
use crate::segments::{do_overlap, sorted_segments};
use crate::touched::touched_pages;
use std::alloc::Global;

/// The image that an ELF file holds.
///
/// Refused with the first fault of the file, or with `NoMemory`. No memory is taken before the faults
/// up to `Range` are tested.
pub fn read_elf(alloc: Global, file: &[u8]) -> Result<Image, ElfFault>
    ensures image { IfOk result (λ image. image ≡ file_image file.now) }
    ensures accepted { OnOk result (file_fault file.now ≡ None) }
    ensures refused { IfErr result (λ fault. fault ≢ NoMemory → file_fault file.now ≡ Some fault) }
    ensures early { (fault : ElfFault) → early_fault file.now ≡ Some fault → result ≡ Err fault }
{
    if let Some(fault) = header_fault(file) {
        return Err(fault);
    }
    if let Some(fault) = program_fault(file) {
        return Err(fault);
    }
    load(alloc, file)
}

/// The image of a file whose headers have no fault.
fn load(alloc: Global, file: &[u8]) -> Result<Image, ElfFault>
    requires header { header_fault file.now ≡ None }
    requires program { program_fault file.now ≡ None }
    ensures image { IfOk result (λ image. image ≡ file_image file.now) }
    ensures accepted { OnOk result (loading_fault file.now ≡ None) }
    ensures refused { IfErr result (λ fault. fault ≢ NoMemory →
        loading_fault file.now ≡ Some fault) }
{
    let loaded = sorted_segments(alloc, file)?;
    load_segments(alloc, file, &loaded)
}

/// The same from the file's segments by address.
fn load_segments(alloc: Global, file: &[u8], loaded: &[ProgramHeader]) -> Result<Image, ElfFault>
    requires header { header_fault file.now ≡ None }
    requires program { program_fault file.now ≡ None }
    requires permutation { IsPermutation (segments file.now) loaded.now }
    requires sorted { IsNonDecreasingBy (λ segment. segment.address) loaded.now }
    ensures image { IfOk result (λ image. image ≡ file_image file.now) }
    ensures accepted { OnOk result (loading_fault file.now ≡ None) }
    ensures refused { IfErr result (λ fault. fault ≢ NoMemory →
        loading_fault file.now ≡ Some fault) }
{
    if do_overlap(loaded) {
        return Err(ElfFault::Overlap);
    }
    let numbers = touched_pages(alloc, loaded)?;
    let pages = load_pages(alloc, file, loaded, &numbers)?;
    Image::from_parts(entry(file), pages)
}
