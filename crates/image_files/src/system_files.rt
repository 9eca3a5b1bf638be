//! Files of the system: which are not read, and what is left of one that can't be written.

ghost use Rattle.std.specs.Prelude.{◌≡◌, ◌<◌, ◌⊎◌, ◌↔◌, IsTrue, OnOk};
ghost use Rattle.std.specs.Fs.{file_type, metadata_len, IsDir};
ghost use Rattle.image_files.specs.WholeBytes.{AreTaken};

use std::fs::{File, Metadata, OpenFile, OpenOptions};
use std::io::{ErrorKind, Write};
use std::os::unix::fs::FileTypeExt;
use std::rt::Files;
use std::{fs, io};

/// The most bytes that a file may have.
pub const MOST_BYTES: usize = 33_554_432;

/// Opens a file to read it whole, unless its kind or its length shows that it can't be. A named pipe is not opened, since that waits
/// for a writer, who may never come.
pub fn open_to_read<R: Files>(rt: &R, name: &str) -> Option<R::File> {
    if is_named_pipe(rt, name) {
        return None;
    }
    let Ok(file) = fs::open(rt, name) else {
        return None;
    };
    match file.metadata() {
        Ok(metadata) if !is_refused(&metadata) => Some(file),
        _ => None,
    }
}

/// Whether a name is that of a pipe itself. A pipe that is a link's target, as of a shell's `<(..)` or `/dev/stdin`, has its other end.
fn is_named_pipe<R: Files>(rt: &R, name: &str) -> bool {
    match fs::symlink_metadata(rt, name) {
        Ok(metadata) => metadata.file_type().is_fifo(),
        Err(_) => false,
    }
}

/// Whether a file is not read: a folder, or one that is known to have more bytes than a file may have.
pub fn is_refused(metadata: &Metadata) -> bool
    ensures { IsTrue result ↔ (IsDir (file_type metadata.now) ⊎
        (MOST_BYTES < metadata_len metadata.now)) }
{
    metadata.is_dir() || metadata.len() > MOST_BYTES as u64
}

/// Makes a file anew of these bytes. Where they can't be written, a file that was not there before is removed. Nothing is written to a
/// named pipe, which may have no reader.
pub fn write_file<R: Files>(rt: &R, name: &str, bytes: &[u8]) -> io::Result<()>
    ensures { OnOk result (AreTaken R.File.contents bytes.now) }
{
    if is_named_pipe(rt, name) {
        return Err(io::Error::from(ErrorKind::Unsupported));
    }
    match File::create_new(rt, name) {
        Ok(file) => {
            let written = write_bytes(file, bytes);
            if written.is_err() {
                let _ = fs::remove_file(rt, name);
            }
            written
        }
        Err(error) if error.kind() == ErrorKind::AlreadyExists => {
            let file = OpenOptions::new()
                .write(true)
                .create(true)
                .truncate(true)
                .open(rt, name)?;
            write_bytes(file, bytes)
        }
        Err(error) => Err(error),
    }
}

/// Writes bytes to an open file, all of them.
fn write_bytes<W: Write + Drop>(mut file: W, bytes: &[u8]) -> io::Result<()>
    ensures { OnOk result (AreTaken W.contents bytes.now) }
{
    file.write_all(bytes)
}
