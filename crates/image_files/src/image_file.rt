//! Images and sources in files.

ghost use Rattle.std.specs.Prelude.{◌≡◌, None, Ok, IfErr, IfOk, length, map, option_map};
ghost use Rattle.elf_image.specs.Start.{start_of};
ghost use Rattle.image_files.specs.FileFaults.{HasElfFault, HasFault, HasSourceFault, HasWordsFault};
ghost use Rattle.image_files.specs.Faults.{IsOfNoLine};
ghost use Rattle.image_files.specs.Reading.{AreGiven, GivesImage, GivesListing, HoldsImage, IsElfImage, IsListing, IsSourceImage, IsWordsImage};
ghost use Rattle.image_files.specs.Refused.{GivesNoImage, GivesNoListing, StopsAtImage, StopsReading};
ghost use Rattle.image_files.specs.Told.{TellsElfFault};

use crate::fault::Fault;
use crate::files::{Folder, read_input, text_of};
use crate::image_kind::{ImageKind, kind_of_file};
use crate::words_file::{WordsError, words_of_file};
use elf_image::{ElfFault, Image, read_elf};
use rv_asm::{AsmError, Listing, assemble};
use std::alloc::Global;

/// The image that a file holds.
pub fn read_image<'a, R: Folder + AllocGlobal>(rt: &R, name: &'a str) -> Result<Image, Fault<'a>>
    ensures image { IfOk result (GivesImage R.gives name.now) }
    ensures fault { IfErr result IsOfNoLine }
    ensures refused { IfErr result (GivesNoImage R.gives R.withholds name.now) }
{
    let file = rt.read(name)?;
    image_in(rt.alloc(), file, name)
}

/// The image that the bytes of a file are. A fault gives the file's name.
pub fn image_in<'a>(alloc: Global, file: Vec<u8>, name: &'a str) -> Result<Image, Fault<'a>>
    ensures image { IfOk result (HoldsImage file.items) }
    ensures fault { IfErr result IsOfNoLine }
    ensures refused { IfErr result (HasFault name.now file.items) }
{
    match kind_of_file(file.as_slice()) {
        ImageKind::Elf => image_of_elf(alloc, file.as_slice(), name),
        ImageKind::Words => image_of_words(alloc, file.as_slice(), name),
        ImageKind::Source => image_of_source(alloc, file, name),
    }
}

/// What the processes of a machine are to run: for each file the image that it holds, the first on an input and the others on
/// none. The images are read before the input.
pub fn read_processes<'a, R: Folder + AllocGlobal>(
    rt: &R,
    images: &[&'a str],
    input: Option<&'a str>,
) -> Result<Vec<(Image, Vec<u8>)>, Fault<'a>>
    ensures many { IfOk result (λ processes. length processes.items ≡ length images.now) }
    ensures given { IfOk result (λ processes. AreGiven R.gives (option_map (λ s.
        s.now) input.entry) (map (λ s. s.now) images.now) (map (λ start.
        start_of start.0 start.1.items) processes.items)) }
    ensures fault { IfErr result IsOfNoLine }
    ensures refused { IfErr result (StopsReading R.gives R.withholds (option_map (λ s.
        s.now) input.entry) (map (λ s. s.now) images.now)) }
{
    let mut processes = read_images(rt, images)?;
    let input = read_input(rt, input)?;
    if processes.is_empty() {
        return Ok(processes);
    }
    processes[0].1 = input;
    Ok(processes)
}

/// For each file the image that it holds, each on no input.
fn read_images<'a, R: Folder + AllocGlobal>(
    rt: &R,
    images: &[&'a str],
) -> Result<Vec<(Image, Vec<u8>)>, Fault<'a>>
    ensures read { IfOk result (λ processes. AreGiven R.gives None (map (λ s. s.now) images.now)
        (map (λ start. start_of start.0 start.1.items) processes.items)) }
    ensures fault { IfErr result IsOfNoLine }
    ensures refused { IfErr result (StopsAtImage R.gives R.withholds (map (λ s. s.now) images.now)) }
{
    let mut processes = Vec::new(rt.alloc());
    for name in images {
        let image = read_image(rt, name)?;
        if processes.push((image, Vec::new(rt.alloc()))).is_err() {
            return Err(Fault::NoMemory);
        }
    }
    Ok(processes)
}

/// The listing of the source that a file holds, whatever it begins with.
pub fn read_source<'a, R: Folder + AllocGlobal>(rt: &R, name: &'a str) -> Result<Listing, Fault<'a>>
    ensures listing { IfOk result (GivesListing R.gives name.now) }
    ensures fault { IfErr result IsOfNoLine }
    ensures refused { IfErr result (GivesNoListing R.gives R.withholds name.now) }
{
    listing_of(rt.alloc(), rt.read(name)?, name)
}

/// What the bytes of a file, as a source, are assembled to.
fn listing_of<'a>(alloc: Global, file: Vec<u8>, name: &'a str) -> Result<Listing, Fault<'a>>
    ensures listing { IfOk result (IsListing file.items) }
    ensures fault { IfErr result IsOfNoLine }
    ensures refused { IfErr result (HasSourceFault name.now file.items) }
{
    let source = text_of(file, name)?;
    match assemble(alloc, source.as_str()) {
        Ok(listing) => Ok(listing),
        Err(AsmError::Fault { line, kind }) => Err(Fault::Source(name, line, kind.number())),
        Err(AsmError::NoMemory) => Err(Fault::NoMemory),
    }
}

fn image_of_source<'a>(alloc: Global, file: Vec<u8>, name: &'a str) -> Result<Image, Fault<'a>>
    ensures image { IfOk result (IsSourceImage file.items) }
    ensures fault { IfErr result IsOfNoLine }
    ensures refused { IfErr result (HasSourceFault name.now file.items) }
{
    match listing_of(alloc, file, name) {
        Ok(listing) => Ok(listing.into_image()),
        Err(fault) => Err(fault),
    }
}

fn image_of_words<'a>(alloc: Global, file: &[u8], name: &'a str) -> Result<Image, Fault<'a>>
    ensures image { IfOk result (IsWordsImage file.now) }
    ensures fault { IfErr result IsOfNoLine }
    ensures refused { IfErr result (HasWordsFault name.now file.now) }
{
    match words_of_file(alloc, file) {
        Ok(words) => image_or_fault(Image::from_words(alloc, words.as_slice()), name),
        Err(WordsError::BadWords) => Err(Fault::BadWords(name)),
        Err(WordsError::NoMemory) => Err(Fault::NoMemory),
    }
}

fn image_of_elf<'a>(alloc: Global, file: &[u8], name: &'a str) -> Result<Image, Fault<'a>>
    ensures image { IfOk result (IsElfImage file.now) }
    ensures fault { IfErr result IsOfNoLine }
    ensures refused { IfErr result (HasElfFault name.now file.now) }
{
    image_or_fault(read_elf(alloc, file), name)
}

/// An image that was made of a file, or why it was not.
fn image_or_fault(made: Result<Image, ElfFault>, name: &str) -> Result<Image, Fault<'_>>
    ensures image { IfOk result (λ image. made ≡ Ok image) }
    ensures fault { IfErr result IsOfNoLine }
    ensures refused { IfErr result (TellsElfFault name.now made) }
{
    match made {
        Ok(image) => Ok(image),
        Err(ElfFault::NoMemory) => Err(Fault::NoMemory),
        Err(fault) => Err(Fault::ElfFault(name, fault.number())),
    }
}
