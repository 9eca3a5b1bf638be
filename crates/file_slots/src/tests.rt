//! Tests of slots in files: short, interrupted and failing calls, short files, and files that can't be made.

use crate::{FileName, FileSlot, FilesFault, make_file_slots};
use std::alloc::Global;
use std::io::{Cursor, ErrorKind, Read, Seek, SeekFrom, Write};
use std::process::Abort;
use std::rt::Files;
use std::{env, fs, io, process};
use swap_slots::{SlotFault, SwapSlot};

/// A file in memory of which a call gives or takes only a few bytes, and of whose calls one fails.
#[derive(Drop)]
struct Reluctant {
    bytes: Cursor<Vec<u8>>,
    most: usize,
    failing: u32,
    kind: ErrorKind,
}

impl Reluctant {
    /// An empty file. Of its calls, counted from 1, the one of this number fails in this way.
    fn new(alloc: Global, most: usize, failing: u32, kind: ErrorKind) -> Reluctant {
        Reluctant {
            bytes: Cursor::new(Vec::new(alloc)),
            most,
            failing,
            kind,
        }
    }

    fn passes(&mut self) -> io::Result<()> {
        let fails = self.failing == 1;
        self.failing = self.failing.saturating_sub(1);
        if fails {
            return Err(io::Error::from(self.kind));
        }
        Ok(())
    }
}

impl Read for Reluctant {
    fn read(&mut self, buf: &mut [u8]) -> io::Result<usize> {
        self.passes()?;
        let most = self.most.min(buf.len());
        self.bytes.read(&mut buf[..most])
    }
}

impl Write for Reluctant {
    fn write(&mut self, buf: &[u8]) -> io::Result<usize> {
        self.passes()?;
        let most = self.most.min(buf.len());
        self.bytes.write(&buf[..most])
    }

    fn flush(&mut self) -> io::Result<()> {
        self.passes()
    }
}

impl Seek for Reluctant {
    fn seek(&mut self, to: SeekFrom) -> io::Result<u64> {
        self.passes()?;
        self.bytes.seek(to)
    }
}

/// A page of which no two neighbours are alike.
fn page_from(first: u8) -> [u8; 4096] {
    let mut page = [0; 4096];
    let mut byte = first;
    for place in &mut page {
        *place = byte;
        byte = byte.wrapping_add(7);
    }
    page
}

/// What a load answers.
fn loaded<S: SwapSlot>(slot: &mut S) -> Result<[u8; 4096], SlotFault> {
    let mut page = [0; 4096];
    slot.load(&mut page)?;
    Ok(page)
}

fn prefix_of(rt: &HostRuntime, test: &str) -> io::Result<String> {
    let id = process::id(rt.process());
    let name = format!(in rt.alloc(); "file_slots-{test}-{id}")?;
    let folder = env::temp_dir(rt)?;
    let path = folder.join(rt.alloc(), name.as_str())?;
    Ok(String::from_str(rt.alloc(), path.as_path().as_str())?)
}

fn path_of(rt: &impl Abort, alloc: Global, prefix: &str, number: u32) -> String {
    format!(in alloc; "{}", FileName { prefix, number }).expect(rt, "no path")
}

/// Whether a file has these bytes, and no more.
fn has_bytes<R: Files + AllocGlobal + Abort>(rt: &R, path: &str, bytes: &[u8]) -> bool {
    let found = fs::read(rt, path).expect(rt, "not read");
    found.as_slice() == bytes
}

fn remove_files<R: Files + AllocGlobal + Abort>(rt: &R, prefix: &str, count: u32) {
    for number in 0..count {
        let path = path_of(rt, rt.alloc(), prefix, number);
        fs::remove_file(rt, path.as_str()).expect(rt, "not removed");
    }
}

/// An empty slot fails to load; then it answers each page that it is given, which its file has too.
fn keeps_pages<S: SwapSlot, R: Files + AllocGlobal + Abort>(rt: &R, slot: &mut S, path: &str) {
    assert!(rt; loaded(slot) == Err(SlotFault));
    for first in [1, 100] {
        let page = page_from(first);
        assert!(rt; slot.save(&page) == Ok(()));
        assert!(rt; has_bytes(rt, path, &page));
        assert!(rt; loaded(slot) == Ok(page));
    }
    assert!(rt; slot.failures() == 1);
}

/// Slots have their numbers by their places, and the middle one, whose file this is, keeps pages.
fn are_slots<F: Read + Write + Seek + Drop, R: Files + AllocGlobal + Abort>(
    rt: &R,
    slots: &mut Vec<FileSlot<F>>,
    middle: &str,
) {
    for (place, slot) in slots.iter().enumerate() {
        assert!(rt; slot.number() as usize == place);
    }
    let slot = slots.get_mut(1).expect(rt, "no slot");
    keeps_pages(rt, slot, middle);
}

/// Makes three slots: the middle one's file is empty, whatever it held.
fn makes_three<R: Files + AllocGlobal + Abort>(rt: &R, prefix: &str) {
    let middle = path_of(rt, rt.alloc(), prefix, 1);
    fs::write(rt, middle.as_str(), "what was there".as_bytes()).expect(rt, "not written");
    let mut slots = make_file_slots(rt, prefix, 3).expect(rt, "no slots");
    assert!(rt; has_bytes(rt, middle.as_str(), &[]));
    are_slots(rt, &mut slots, middle.as_str());
}

#[test]
fn keeps_a_page_in_its_file(rt: HostRuntime) {
    let prefix = prefix_of(&rt, "keeps").expect(&rt, "no prefix");
    makes_three(&rt, prefix.as_str());
    remove_files(&rt, prefix.as_str(), 3);
    let next = path_of(&rt, rt.alloc(), prefix.as_str(), 3);
    assert!(rt; !fs::exists(&rt, next.as_str()).expect(&rt, "not known"));
}

/// Of four slots the file of this number is not made.
fn is_not_made<R: Files + AllocGlobal + Abort>(rt: &R, prefix: &str, number: u32) {
    let fault = make_file_slots(rt, prefix, 4).err().expect(rt, "no fault");
    assert!(rt; fault == FilesFault::CannotMake(FileName { prefix, number }));
    let wanted = format!(in rt.alloc(); "{prefix}.{number}: cannot read").expect(rt, "no text");
    let told = format!(in rt.alloc(); "{fault}").expect(rt, "no text");
    assert!(rt; told == wanted);
}

#[test]
fn names_the_file_that_is_not_made(rt: HostRuntime) {
    let prefix = prefix_of(&rt, "names").expect(&rt, "no prefix");
    let folder = path_of(&rt, rt.alloc(), prefix.as_str(), 2);
    fs::create_dir(&rt, folder.as_str()).expect(&rt, "no folder");
    is_not_made(&rt, "no/such/folder/swap", 0);
    is_not_made(&rt, prefix.as_str(), 2);
    fs::remove_dir(&rt, folder.as_str()).expect(&rt, "not removed");
    remove_files(&rt, prefix.as_str(), 2);
}

/// A slot answers the page that it is given, and has failed in this many calls by then.
fn keeps<F: Read + Write + Seek + Drop>(
    rt: &impl Abort,
    slot: &mut FileSlot<F>,
    page: &[u8; 4096],
    failures: u64,
) {
    assert!(rt; slot.save(page) == Ok(()));
    assert!(rt; loaded(slot) == Ok(*page));
    assert!(rt; slot.failures() == failures);
}

/// A save by parts of 1000 bytes seeks, writes five times and flushes, and a load seeks and reads five times.
#[test]
fn goes_on_after_short_and_interrupted_calls(rt: HostRuntime) {
    let page = page_from(3);
    for (most, interrupted) in [
        (1, 0),
        (4095, 0),
        (1000, 2),
        (1000, 6),
        (1000, 9),
        (1000, 13),
    ] {
        let file = Reluctant::new(rt.alloc(), most, interrupted, ErrorKind::Interrupted);
        let mut slot = FileSlot::new(0, file);
        keeps(&rt, &mut slot, &page, 0);
    }
}

/// The save or the load fails in which the call of this number is, and then both go well.
fn fails_once(rt: &impl Abort, slot: &mut FileSlot<Reluctant>, page: &[u8; 4096], failing: u32) {
    let saved = slot.save(page);
    assert!(rt; saved.is_err() == (failing < 7), "call {failing}");
    let lost = failing >= 7 || failing < 6;
    assert!(rt; loaded(slot).is_err() == lost, "call {failing}");
    assert!(rt; slot.save(page) == Ok(()));
    assert!(rt; loaded(slot) == Ok(*page));
}

/// A save seeks, writes in four parts and flushes; a load seeks and reads in four parts.
#[test]
fn fails_where_its_file_does(rt: HostRuntime) {
    let page = page_from(5);
    for failing in 1..12 {
        let file = Reluctant::new(rt.alloc(), 1024, failing, ErrorKind::StorageFull);
        let mut slot = FileSlot::new(0, file);
        fails_once(&rt, &mut slot, &page, failing);
    }
}

#[test]
fn fails_at_an_end_in_the_middle_of_a_page(rt: HostRuntime) {
    let page = page_from(9);
    for length in [0, 1, 4095] {
        let bytes = Vec::from_slice(rt.alloc(), &page[..length]).expect(&rt, "no bytes");
        let mut slot = FileSlot::new(0, Cursor::new(bytes));
        fails_then_keeps(&rt, &mut slot, &page);
    }
}

/// A slot whose file ends too early fails to load, until a page is saved.
fn fails_then_keeps(rt: &impl Abort, slot: &mut FileSlot<Cursor<Vec<u8>>>, page: &[u8; 4096]) {
    assert!(rt; loaded(slot) == Err(SlotFault));
    assert!(rt; slot.failures() == 1);
    keeps(rt, slot, page, 1);
}
