//! A slot in an open file: the page is the file's first 4096 bytes, and calls that fail are counted.

ghost use Rattle.std.specs.Prelude.{◌≡◌, ◌+◌, ◌-◌, ◌^◌, ◌≤◌, ◌↔◌, [], min, Ok, Err, IfOk, IsErr, OnOk, OnErr, false};
ghost use Rattle.std.specs.Io.KnownBytes.{Appends, Consumes};
ghost use Rattle.file_slots.specs.FromStart.{FromStart};
ghost use Rattle.swap_slots.specs.Slot.{Rose};

use std::io;
use std::io::{Read, Seek, Write};
use std::marker::Model;
use swap_slots::{SlotFault, SwapSlot};

/// A slot in an open file, which is to be its own: the page is the file's first 4096 bytes.
///
/// A call that the file refuses, or that ends in the middle of a page, is a failure of the device. Nothing is claimed of what the
/// file holds.
#[derive(Drop)]
pub struct FileSlot<F> {
    number: u32,
    file: F,
    failures: u64,
}

impl<F> Model for FileSlot<F> {
    ghost use Rattle.file_slots.specs.FileSlotValue.{FileSlotValue};

    ghost Value = { FileSlotValue F };

    ghost view = { λ s. record { number = s.number; file = s.file; failures = s.failures } };
}

impl<F> FileSlot<F> {
    /// The slot of this number, in this file.
    pub fn new(number: u32, file: F) -> FileSlot<F>
        ensures { result ≡ record { number = number; file = file; failures = 0 } }
    {
        FileSlot {
            number,
            file,
            failures: 0,
        }
    }

    /// Which slot it is, of those that were made together.
    pub fn number(&self) -> u32
        ensures { result ≡ self.now.number }
    {
        self.number
    }

    /// Counts a failure, where a call on the file came to one.
    fn told(&mut self, done: io::Result<()>) -> Result<(), SlotFault>
        ensures fails { IsErr result ↔ IsErr done }
        ensures number { self.new.number ≡ self.old.number }
        ensures file { self.new.file ≡ self.old.file }
        ensures passed { OnOk result (self.new.failures ≡ self.old.failures) }
        ensures failed { OnErr result (self.new.failures ≡ min (self.old.failures + 1)
            (2 ^ 64 - 1)) }
        ensures fault { OnErr result (Rose self.old.failures self.new.failures) }
        ensures counted { self.old.failures ≤ self.new.failures }
    {
        if done.is_err() {
            self.failures = self.failures.saturating_add(1);
            return Err(SlotFault);
        }
        Ok(())
    }
}

impl<F: Read + Write + Seek + Drop> SwapSlot for FileSlot<F> {
    // What a file holds is not known. Nothing follows from what is claimed here, since the kind is not honest.
    ghost content = { λ _. [] };

    ghost failures = { λ slot. slot.failures };

    ghost called = { λ _ _. Unit {0} };

    ghost honest = { ⊥ };

    fn is_known_honest() -> bool
        ensures known { result ≡ false }
    {
        false
    }

    fn save(&mut self, page: &[u8; 4096]) -> Result<(), SlotFault>
        ensures written { OnOk result (FromStart F.stream_position (λ start end.
            Appends (F.contents start) (F.contents end) page.now) self.old.file self.new.file) }
        ensures number { self.new.number ≡ self.old.number }
        ensures passed { OnOk result (self.new.failures ≡ self.old.failures) }
        ensures failed { OnErr result (self.new.failures ≡ min (self.old.failures + 1)
            (2 ^ 64 - 1)) }
        ensures fault { OnErr result (Rose self.old.failures self.new.failures) }
        ensures counted { self.old.failures ≤ self.new.failures }
    {
        let written = write_page(&mut self.file, page);
        self.told(written)
    }

    fn load(&mut self, page: &mut [u8; 4096]) -> Result<(), SlotFault>
        ensures read { OnOk result (FromStart F.stream_position (λ start end.
            Consumes (F.remaining start) (F.remaining end) page.new) self.old.file self.new.file) }
        ensures number { self.new.number ≡ self.old.number }
        ensures passed { OnOk result (self.new.failures ≡ self.old.failures) }
        ensures failed { OnErr result (self.new.failures ≡ min (self.old.failures + 1)
            (2 ^ 64 - 1)) }
        ensures fault { OnErr result (Rose self.old.failures self.new.failures) }
        ensures counted { self.old.failures ≤ self.new.failures }
    {
        let read = read_page(&mut self.file, page);
        self.told(read)
    }

    fn failures(&self) -> u64 {
        self.failures
    }
}

/// Writes a page to a file, from its start on and whole.
fn write_page<F: Write + Seek>(file: &mut F, page: &[u8; 4096]) -> io::Result<()>
    ensures { OnOk result (FromStart F.stream_position (λ start end.
        Appends (F.contents start) (F.contents end) page.now) file.old file.new) }
{
    file.rewind()?;
    write_whole(file, page)
}

/// Writes a page at a file's position: a short write goes on, and one that is interrupted is tried again.
#[tactic(auto, using(crate::proofs::Flushed::still_appended))]
fn write_whole<F: Write>(file: &mut F, page: &[u8; 4096]) -> io::Result<()>
    ensures { OnOk result (Appends (F.contents file.old) (F.contents file.new) page.now) }
{
    file.write_all(page)?;
    file.flush()
}

/// Reads a page from a file, from its start on and whole: a short read goes on, and one that is interrupted is tried again. A file
/// that ends before is an error.
fn read_page<F: Read + Seek>(file: &mut F, page: &mut [u8; 4096]) -> io::Result<()>
    ensures { OnOk result (FromStart F.stream_position (λ start end. Consumes (F.remaining start)
        (F.remaining end) page.new) file.old file.new) }
{
    file.rewind()?;
    file.read_exact(page)
}
