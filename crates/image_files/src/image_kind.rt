//! The ways in which files hold images.

ghost use Rattle.std.specs.Prelude.{◌≡◌, ◌↔◌};
ghost use Rattle.image_files.specs.ImageKind.{BeginsAsElf, BeginsAsWords};

use elf_image::begins_as_elf;
use text_lines::next_line;

/// What the file of an image is.
#[derive(Clone, Copy, Debug, PartialEq, Eq)]
pub enum ImageKind {
    /// An ELF file.
    Elf,
    /// A line `.words`, then words in hexadecimal digits.
    Words,
    /// The source of a program.
    Source,
}

/// What a file is: an ELF file by its first four bytes, words by its first line, and else a source.
pub fn kind_of_file(file: &[u8]) -> ImageKind
    ensures elf { (result ≡ ImageKind.Elf) ↔ BeginsAsElf file.now }
    ensures words { (result ≡ ImageKind.Words) ↔ ((¬ BeginsAsElf file.now) ×
        BeginsAsWords file.now) }
{
    if begins_as_elf(file) {
        return ImageKind::Elf;
    }
    match next_line(file) {
        Some((first, _)) if first == b".words".as_slice() => ImageKind::Words,
        _ => ImageKind::Source,
    }
}
