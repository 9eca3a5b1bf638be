//! Files that commands read and write whole, and files of slots.

ghost use Rattle.std.specs.Prelude.{◌≡◌, ◌≤◌, ℕ, ⊤, List, [], false, is_some, IfErr, IfOk, OnOk, option_map, vec_len};
ghost use Rattle.std.specs.Str.{IsUtf8};
ghost use Rattle.image_files.specs.FileFaults.{IsNoText};
ghost use Rattle.image_files.specs.Faults.{IsOfNoLine, IsUnread, IsUnwritten};
ghost use Rattle.image_files.specs.Reading.{GivesInput};
ghost use Rattle.image_files.specs.Refused.{GivesNoInput, GivesNoText};
ghost use Rattle.image_files.specs.SlotFiles.{AreNewFiles, AreNoNewFiles};
ghost use Rattle.image_files.specs.WholeBytes.{AreRead, AreTaken, AreWhole};

use crate::fault::Fault;
use crate::system_files::{MOST_BYTES, open_to_read, write_file};
use file_slots::{FileMaker, FileSlot, make_file_slots};
use std::alloc::Global;
use std::io::{ErrorKind, Read};
use std::rt::Files;

/// Where files are read and written, and slots' files are made.
pub trait Folder: FileMaker {
    /// Whether a file of this name may be found to hold these bytes.
    ghost gives: { List ℕ → List ℕ → Type 0 };

    /// Whether it may be found that a file of this name can't be read.
    ghost withholds: { List ℕ → Type 0 };

    /// Whether a file of this name may be made of these bytes.
    ghost accepts: { List ℕ → List ℕ → Type 0 };

    /// The bytes of a file.
    fn read<'a>(&self, name: &'a str) -> Result<Vec<u8>, Fault<'a>>
        ensures bytes { IfOk result (λ bytes. gives name.now bytes.items) }
        ensures fault { IfErr result IsOfNoLine }
        ensures unread { IfErr result (IsUnread withholds name.now) };

    /// Makes a file anew of these bytes. Where it takes none, no file is left that was not there before.
    fn write<'a>(&self, name: &'a str, bytes: &[u8]) -> Result<(), Fault<'a>>
        ensures accepted { OnOk result (accepts name.now bytes.now) }
        ensures fault { IfErr result IsOfNoLine }
        ensures unwritten { IfErr result (IsUnwritten name.now) };

    /// So many slots, but 512 at most, each in a file of its own that is made anew: `PREFIX.0`, `PREFIX.1` and so on.
    fn make_slots<'a>(
        &self,
        prefix: &'a str,
        count: u32,
    ) -> Result<Vec<FileSlot<Self::File>>, Fault<'a>>
        ensures made { IfOk result (λ slots. AreNewFiles Self.makes prefix.now count slots.items) }
        ensures refused { IfErr result (AreNoNewFiles Self.makes Self.refuses prefix.now count) };
}

/// Of the system's files no name is known, before they are read, nor which of them can be. What is read is all that an open one still has,
/// and what is written an open one takes whole.
impl<R: Files + AllocGlobal> Folder for R {
    ghost gives = { λ _ bytes. AreRead R.File.remaining bytes };

    ghost withholds = { λ _. ⊤ };

    ghost accepts = { λ _ bytes. AreTaken R.File.contents bytes };

    fn read<'a>(&self, name: &'a str) -> Result<Vec<u8>, Fault<'a>> {
        read_file(self, name)
    }

    fn write<'a>(&self, name: &'a str, bytes: &[u8]) -> Result<(), Fault<'a>> {
        match write_file(self, name, bytes) {
            Ok(()) => Ok(()),
            Err(_) => Err(Fault::CannotRead(name)),
        }
    }

    fn make_slots<'a>(
        &self,
        prefix: &'a str,
        count: u32,
    ) -> Result<Vec<FileSlot<R::File>>, Fault<'a>> {
        Ok(make_file_slots(self, prefix, count)?)
    }
}

/// The bytes of a file.
pub fn read_file<'a, R: Files + AllocGlobal>(rt: &R, name: &'a str) -> Result<Vec<u8>, Fault<'a>>
    ensures read { IfOk result (λ bytes. AreRead R.File.remaining bytes.items) }
    ensures few { IfOk result (λ bytes. vec_len bytes ≤ MOST_BYTES) }
    ensures fault { IfErr result IsOfNoLine }
    ensures unread { IfErr result (IsUnread (λ _. ⊤) name.now) }
{
    match open_to_read(rt, name) {
        Some(file) => read_whole(rt.alloc(), file, name),
        None => Err(Fault::CannotRead(name)),
    }
}

/// All bytes of an input. A fault gives the input's name.
pub fn read_whole<'a, I: Read + Drop>(
    alloc: Global,
    input: I,
    name: &'a str,
) -> Result<Vec<u8>, Fault<'a>>
    ensures whole { IfOk result (λ bytes. AreWhole (I.remaining input) bytes.items) }
    ensures few { IfOk result (λ bytes. vec_len bytes ≤ MOST_BYTES) }
    ensures fault { IfErr result IsOfNoLine }
    ensures unread { IfErr result (IsUnread (λ _. ⊤) name.now) }
{
    let mut bytes = Vec::new(alloc);
    if let Err(error) = input.take(MOST_BYTES as u64 + 1).read_to_end(&mut bytes) {
        return match error.kind() {
            ErrorKind::OutOfMemory => Err(Fault::NoMemory),
            _ => Err(Fault::CannotRead(name)),
        };
    }
    if bytes.len() > MOST_BYTES {
        return Err(Fault::CannotRead(name));
    }
    Ok(bytes)
}

/// The input of a process: the bytes of a file, or none where no file is named.
pub fn read_input<'a, R: Folder + AllocGlobal>(
    rt: &R,
    name: Option<&'a str>,
) -> Result<Vec<u8>, Fault<'a>>
    ensures none { IfOk result (λ bytes. is_some name.entry ≡ false → bytes.items ≡ []) }
    ensures given { IfOk result (λ bytes. GivesInput R.gives (option_map (λ s.
        s.now) name.entry) bytes.items) }
    ensures fault { IfErr result IsOfNoLine }
    ensures refused { IfErr result (GivesNoInput R.gives R.withholds (option_map (λ s.
        s.now) name.entry)) }
{
    match name {
        Some(name) => rt.read(name),
        None => Ok(Vec::new(rt.alloc())),
    }
}

/// The text of a file, which has to be UTF-8.
pub fn read_text<'a, R: Folder>(rt: &R, name: &'a str) -> Result<String, Fault<'a>>
    ensures text { IfOk result (λ text. R.gives name.now text.bytes.items) }
    ensures utf8 { IfOk result (λ text. IsUtf8 text.bytes.items) }
    ensures fault { IfErr result IsOfNoLine }
    ensures refused { IfErr result (GivesNoText R.gives R.withholds name.now) }
{
    text_of(rt.read(name)?, name)
}

/// The text that a file's bytes are.
pub fn text_of(bytes: Vec<u8>, name: &str) -> Result<String, Fault<'_>>
    ensures text { IfOk result (λ text. text.bytes.items ≡ bytes.items) }
    ensures utf8 { IfOk result (λ text. IsUtf8 text.bytes.items) }
    ensures fault { IfErr result IsOfNoLine }
    ensures refused { IfErr result (IsNoText name.now bytes.items) }
{
    match String::from_utf8(bytes) {
        Ok(text) => {
            let _text = text.as_str();
            Ok(text)
        }
        Err(_) => Err(Fault::CannotRead(name)),
    }
}
