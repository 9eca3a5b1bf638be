//! The maker of the files of slots, as a trait; an operating system with files is one.

ghost use Rattle.std.specs.Prelude.{ℕ, ⊤, List, IfNone, IfSome};

use std::fs::OpenOptions;
use std::io::{Read, Seek, Write};
use std::rt::Files;

/// Where files of slots are made.
pub trait FileMaker {
    /// An open file.
    type File: Read + Write + Seek + Drop;

    /// Whether an open file may be one that was made anew, empty, under this name.
    ghost makes: { List ℕ → Self.File → Type 0 };

    /// Whether it may be that no file of this name can be made.
    ghost refuses: { List ℕ → Type 0 };

    /// Makes a file anew, empty, and opens it: what a file of that name held is gone. There is none where it can't be made.
    fn make_file(&self, name: &str) -> Option<Self::File>
        ensures made { IfSome result (makes name.now) }
        ensures refused { IfNone result (refuses name.now) };
}

/// The system reports neither which file an open one is, nor why one is not made.
impl<R: Files> FileMaker for R {
    type File = R::File;

    ghost makes = { λ _ _. ⊤ };

    ghost refuses = { λ _. ⊤ };

    fn make_file(&self, name: &str) -> Option<R::File> {
        OpenOptions::new()
            .read(true)
            .write(true)
            .create(true)
            .truncate(true)
            .open(self, name)
            .ok()
    }
}
