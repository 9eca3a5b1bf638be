//! Files that are there whole, or not at all.

ghost use Rattle.std.specs.Prelude.{ℕ, List, ⊤, IfErr, OnOk};
ghost use Rattle.image_files.specs.Faults.{IsUnread};
ghost use Rattle.image_files.specs.WholeBytes.{AreTaken};

use image_files::{Fault, Folder};
use std::alloc::AllocError;
use std::fs;
use std::fs::File;
use std::io::ErrorKind;
use std::rt::Files;

/// Where files are made whole.
pub trait WholeFiles {
    /// Whether a file of this name was made of these bytes.
    ghost takes: { List ℕ → List ℕ → Type 0 };

    /// Makes a file of these bytes in the place of one that was there. Under its name there is never a part of them.
    fn put<'a>(&self, name: &'a str, bytes: &[u8]) -> Result<(), Fault<'a>>
        ensures taken { OnOk result (takes name.now bytes.now) }
        ensures refused { IfErr result (IsUnread (λ _. ⊤) name.now) };

    /// Tries whether a file of this name could be made now. Nothing is left of the trial.
    fn try_put<'a>(&self, name: &'a str) -> Result<(), Fault<'a>>
        ensures refused { IfErr result (IsUnread (λ _. ⊤) name.now) };
}

/// Of the system's files no name is known, but an open one took the bytes. They go to a file NAME.new, which then gets the name: of a link, the name
/// of the file to which it leads. What is no plain file, as a device, keeps its name, and takes the bytes itself.
impl<R: Files + AllocGlobal> WholeFiles for R {
    ghost takes = { λ _ bytes. AreTaken R.File.contents bytes };

    fn put<'a>(&self, name: &'a str, bytes: &[u8]) -> Result<(), Fault<'a>> {
        let Some(target) = target_of(self, name)? else {
            return match self.write(name, bytes) {
                Ok(()) => Ok(()),
                Err(_) => Err(Fault::CannotRead(name)),
            };
        };
        let new = format!(in self.alloc(); "{target}.new")?;
        if self.write(new.as_str(), bytes).is_err() {
            return Err(Fault::CannotRead(name));
        }
        match fs::rename(self, new.as_str(), target.as_str()) {
            Ok(()) => Ok(()),
            Err(_) => {
                let _ = fs::remove_file(self, new.as_str());
                Err(Fault::CannotRead(name))
            }
        }
    }

    fn try_put<'a>(&self, name: &'a str) -> Result<(), Fault<'a>> {
        let is_open = match target_of(self, name)? {
            Some(target) => {
                let new = format!(in self.alloc(); "{target}.new")?;
                can_make(self, new.as_str())
            }
            None => !is_folder(self, name),
        };
        if is_open {
            Ok(())
        } else {
            Err(Fault::CannotRead(name))
        }
    }
}

/// The name of the plain file that a name leads to, or of one that is to be made; `None` for anything else.
fn target_of<R: Files + AllocGlobal>(rt: &R, name: &str) -> Result<Option<String>, AllocError> {
    let Ok(metadata) = fs::symlink_metadata(rt, name) else {
        return Ok(Some(format!(in rt.alloc(); "{name}")?));
    };
    if metadata.is_file() {
        return Ok(Some(format!(in rt.alloc(); "{name}")?));
    }
    let Ok(path) = fs::canonicalize(rt, name) else {
        return Ok(None);
    };
    let path = path.into_string();
    if is_plain(rt, path.as_str()) {
        Ok(Some(path))
    } else {
        Ok(None)
    }
}

fn is_plain<R: Files>(rt: &R, name: &str) -> bool {
    match fs::symlink_metadata(rt, name) {
        Ok(metadata) => metadata.is_file(),
        Err(_) => false,
    }
}

fn is_folder<R: Files>(rt: &R, name: &str) -> bool {
    match fs::metadata(rt, name) {
        Ok(metadata) => metadata.is_dir(),
        Err(_) => false,
    }
}

/// Whether a file of this name is there, or can be made. It is removed again.
fn can_make<R: Files>(rt: &R, name: &str) -> bool {
    match File::create_new(rt, name) {
        Ok(_) => {
            let _ = fs::remove_file(rt, name);
            true
        }
        Err(error) => error.kind() == ErrorKind::AlreadyExists && is_plain(rt, name),
    }
}
