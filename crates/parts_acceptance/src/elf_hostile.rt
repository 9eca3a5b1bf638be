//! An ELF file that is cut off anywhere, or has another byte anywhere in its headers.

use elf_image::{Image, read_elf, write_elf};
use std::alloc::Global;
use std::test::Fail;
use test_guests::WRITES_A_LINE;

/// How many bytes the two headers have.
const HEADERS: usize = 84;

/// What a file is read as.
#[derive(Clone, Copy, PartialEq, Eq, Debug)]
enum Told {
    /// The number of its first fault.
    Fault(u8),
    /// How many pages its image has.
    Pages(usize),
}

/// The file of the program: both headers, and from 4096 on its page, which is mapped at 0x00010000.
fn file_of_nine_words(alloc: Global) -> Result<Vec<u8>, Fail> {
    let image = Image::from_words(alloc, &WRITES_A_LINE)?;
    Ok(write_elf(alloc, &image)?)
}

fn read_as(alloc: Global, file: &[u8]) -> Told {
    match read_elf(alloc, file) {
        Ok(image) => Told::Pages(image.pages().len()),
        Err(fault) => Told::Fault(fault.number()),
    }
}

/// What the file is read as with another value of one byte of the file's own header, by the rules of ELF files.
fn told_of_file_header(place: usize, value: u8) -> Told {
    match place {
        // The magic number; the class, the order of bytes and the version.
        0..=3 => Told::Fault(2),
        4..=6 => Told::Fault(3),
        // The type and the version, and the machine.
        16 | 17 | 20..=23 => Told::Fault(4),
        18 | 19 => Told::Fault(5),
        // The entry: within the same page, or in one that is not mapped.
        25 => in_page(value, Told::Pages(1)),
        26 | 27 => Told::Fault(15),
        // Where the program header is: at other bytes of the file, or past its end.
        28 => at_other_header(value),
        29 if value < 32 => Told::Fault(15),
        29..=31 => Told::Fault(7),
        // Flags: the lowest four ask for what is not there.
        36 if value % 16 != 0 => Told::Fault(6),
        // The size of a program header. How many there are: none, so many that all but the first are skipped, or too many.
        42 | 43 | 45 => Told::Fault(7),
        44 if value == 0 => Told::Fault(15),
        44 if value == 255 => Told::Fault(7),
        // What is not looked at.
        _ => Told::Pages(1),
    }
}

/// A field whose second byte this is: it stays in its page, or leaves it.
fn in_page(value: u8, inside: Told) -> Told {
    if value < 16 { inside } else { Told::Fault(15) }
}

/// At 20 a program header can be read of 0x200034 bytes from address 20 on, which is executable; at 44 and 62 of bytes that are not in
/// the file; elsewhere of bytes that are not executable, or of a type that is skipped.
fn at_other_header(value: u8) -> Told {
    match value {
        20 => Told::Pages(513),
        44 | 62 => Told::Fault(9),
        _ => Told::Fault(15),
    }
}

/// The same of one byte of the program header.
fn told_of_program_header(place: usize, value: u8) -> Told {
    let high = usize::from(value);
    match place {
        // The type: a dynamic one, or one that is skipped.
        0 if value == 2 || value == 3 => Told::Fault(8),
        0..=3 => Told::Fault(15),
        // Where the bytes are in the file, and how many there are: 4096 from 4096 on are the whole rest of the file.
        5 | 17 if value <= 16 => Told::Pages(1),
        4..=7 | 16..=19 => Told::Fault(9),
        // The address: into the next page, in another page, past the top.
        8 | 20 => Told::Pages(2),
        9 => in_page(value, Told::Pages(2)),
        11 if value >= 0x70 => Told::Fault(11),
        10 | 11 => Told::Fault(15),
        // The size in memory: below that in the file, so many pages, too many of them, past the top.
        21 if value < 16 => Told::Fault(10),
        21 => Told::Pages(high.div_ceil(16)),
        22 if value < 252 => Told::Pages(1 + 16 * high),
        22 => Told::Fault(13),
        23 if value < 0x70 => Told::Fault(13),
        23 => Told::Fault(11),
        // The rights.
        24 if value % 2 == 0 => Told::Fault(15),
        _ => Told::Pages(1),
    }
}

#[test]
fn each_prefix_has_its_fault(rt: HostRuntime) -> Result<(), Fail> {
    let alloc = rt.alloc();
    let file = file_of_nine_words(alloc)?;
    assert!(rt; file.len() == 8192);
    for length in 0..8192usize {
        let fault = match length {
            0..=51 => 1,
            52..=83 => 7,
            _ => 9,
        };
        let Some(prefix) = file.get(..length) else {
            return Err(Fail::from("a prefix"));
        };
        assert!(rt;
            read_as(alloc, prefix) == Told::Fault(fault),
            "{length} bytes"
        );
    }
    Ok(())
}

#[test]
fn each_byte_of_the_headers_is_looked_at(rt: HostRuntime) -> Result<(), Fail> {
    let alloc = rt.alloc();
    let mut file = file_of_nine_words(alloc)?;
    for place in 0..HEADERS {
        let Some(own) = file.get(place).copied() else {
            return Err(Fail::from("a header"));
        };
        for value in 0..=255u8 {
            let rule = if value == own {
                Told::Pages(1)
            } else if place < 52 {
                told_of_file_header(place, value)
            } else {
                told_of_program_header(place - 52, value)
            };
            set(&mut file, place, value);
            assert!(rt; read_as(alloc, &file) == rule, "byte {place} is {value}");
        }
        set(&mut file, place, own);
    }
    Ok(())
}

fn set(file: &mut Vec<u8>, place: usize, value: u8) {
    if let Some(byte) = file.get_mut(place) {
        *byte = value;
    }
}
