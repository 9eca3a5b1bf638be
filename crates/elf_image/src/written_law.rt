//! The law of written files: reading one gives back the image that it was written from.

ghost use Rattle.std.specs.Prelude.{◌≡◌, None};
ghost use Rattle.elf_image.specs.Image.{ImageContent};
ghost use Rattle.elf_image.specs.ElfFiles.{file_fault, file_image};
ghost use Rattle.elf_image.specs.WrittenFiles.{elf_file, IsHeld};

/// The file that is written of an image has no fault, and its image is that image.
#[tactic(auto, using(crate::proofs::WrittenImages::no_fault, crate::proofs::WrittenImages::same_image))]
pub fn written_files_are_read_back()
    ensures fault { (image : ImageContent) → IsHeld image → file_fault (elf_file image) ≡ None }
    ensures image { (image : ImageContent) → IsHeld image → file_image (elf_file image) ≡ image }
{}
