//! Records that are read, written and replayed. The digests are those of another program.

use elf_image::Image;
use flat_machine::{End, FlatProcess};
use guest_records::{RunSize, Way, explore_run, measure_runs};
use run_records::{
    Record, RecordFault, ReplayFault, read_record, replay, take_fingerprint, write_record,
};
use std::alloc::Global;
use std::process::Abort;

/// A record of a program `words` and a line feed, on no input, with the output `hi` and a line feed.
const LINES: [&[u8]; 9] = [
    b"guest-record 1\n",
    b"image ff646650bc064e5981d37e75caf62e8551f146dff3b8967dd9cf36d263480e3a 6\n",
    b"input e3b0c44298fc1c149afbf4c8996fb92427ae41e4649b934ca495991b7852b855 0\n",
    b"0 1000\n",
    b"1 4294967295\n",
    b"0 7\n",
    b"trapped 1 13 65536 4294967295\n",
    b"steps 4294968302\n",
    b"output 98ea6e4f216f2fb4b69fff9b3a44842c38686ca685f3f55dc48c5d3fb1107be4 3\n",
];

/// The number of a line of that record, from 0, the text that replaces the line, and why the whole text is then no record.
const CHANGES: [(usize, &[u8], RecordFault); 16] = [
    (0, b"guest-record 2\n", RecordFault::NotARecord),
    (0, b"", RecordFault::NotARecord),
    (
        1,
        b"IMAGE FF646650BC064E5981D37E75CAF62E8551F146DFF3B8967DD9CF36D263480E3A 6\n",
        RecordFault::BadLine(2),
    ),
    (
        2,
        b"input e3b0c44298fc1c149afbf4c8996fb92427ae41e4649b934ca495991b78 0\n",
        RecordFault::BadLine(3),
    ),
    (3, b"0 01000\n", RecordFault::BadLine(4)),
    (3, b"0  1000\n", RecordFault::BadLine(4)),
    (3, b"0 1000\r\n", RecordFault::BadLine(4)),
    (4, b"1 0\n", RecordFault::BadLine(5)),
    (4, b"1 4294967296\n", RecordFault::BadLine(5)),
    (
        6,
        b"trapped 1 14 65536 4294967295\n",
        RecordFault::BadLine(7),
    ),
    (6, b"", RecordFault::BadLine(7)),
    (7, b"steps 18446744073709551616\n", RecordFault::BadLine(8)),
    (8, b"", RecordFault::BadLine(9)),
    (
        8,
        b"output 98ea6e4f216f2fb4b69fff9b3a44842c38686ca685f3f55dc48c5d3fb1107be4 3",
        RecordFault::Cut,
    ),
    (
        8,
        b"output 98ea6e4f216f2fb4b69fff9b3a44842c38686ca685f3f55dc48c5d3fb1107be4 3\nmore\n",
        RecordFault::BadLine(10),
    ),
    (
        8,
        b"output 98ea6e4f216f2fb4b69fff9b3a44842c38686ca685f3f55dc48c5d3fb1107be4 3\n\n",
        RecordFault::BadLine(10),
    ),
];

/// The record, with another text in the place of a line.
fn changed(alloc: Global, place: usize, line: &[u8]) -> Vec<u8> {
    let mut text = Vec::new(alloc);
    for at in 0..LINES.len() {
        let part = if at == place { line } else { LINES[at] };
        let _ = text.extend_from_slice(part);
    }
    text
}

#[test]
fn each_change_is_refused(rt: HostRuntime) {
    for (place, line, fault) in CHANGES {
        let text = changed(rt.alloc(), place, line);
        assert!(rt; read_record(rt.alloc(), text.as_slice()).err() == Some(fault));
    }
}

/// The lines of a record.
fn written(rt: &impl Abort, alloc: Global, record: &Record) -> Vec<u8> {
    let mut out = Vec::new(alloc);
    write_record(record, &mut out).expect(rt, "not written");
    out
}

/// The record that has these lines.
fn read(rt: &impl Abort, alloc: Global, text: &[u8]) -> Record {
    read_record(alloc, text).expect(rt, "not a record")
}

/// A record has the turns and the steps of the lines, and is written as it was read.
fn is_of_the_lines(rt: &impl Abort, alloc: Global, record: &Record, text: &[u8]) {
    assert!(rt; record.turns.len() == 3);
    assert!(rt; record.closing.steps == 4_294_968_302);
    assert!(rt; written(rt, alloc, record).as_slice() == text);
}

#[test]
fn what_is_read_is_written(rt: HostRuntime) {
    let text = changed(rt.alloc(), 0, LINES[0]);
    let record = read(&rt, rt.alloc(), text.as_slice());
    is_of_the_lines(&rt, rt.alloc(), &record, text.as_slice());
}

/// Writes `hi` and a line feed, and exits with 0: nine instructions, and then the text.
const WORDS: [u32; 10] = [
    66999, 38110611, 1049875, 3147283, 67111059, 115, 1299, 98568339, 115, 682344,
];

const OUTPUT_DIGEST: [u8; 32] = [
    152, 234, 110, 79, 33, 111, 47, 180, 182, 159, 255, 155, 58, 68, 132, 44, 56, 104, 108, 166,
    133, 243, 245, 93, 196, 140, 93, 63, 177, 16, 123, 228,
];

/// What a record of the program may claim: the hart and the steps of its one turn, and the steps, the exit status and the length of the
/// output that it closes with.
#[derive(Clone, Copy)]
struct Claim {
    hart: u32,
    count: u32,
    steps: u64,
    status: u32,
    length: u64,
}

/// What the program's run comes to.
const RIGHT: Claim = Claim {
    hart: 0,
    count: 9,
    steps: 9,
    status: 0,
    length: 3,
};

/// Other claims, and what is found of each where it is replayed.
const WRONG: [(Claim, ReplayFault); 6] = [
    (Claim { steps: 8, ..RIGHT }, ReplayFault::OtherSteps),
    (Claim { status: 1, ..RIGHT }, ReplayFault::OtherEnd),
    (Claim { length: 4, ..RIGHT }, ReplayFault::OtherOutput),
    (Claim { hart: 1, ..RIGHT }, ReplayFault::NotLive(0)),
    (
        Claim {
            count: 12,
            steps: 12,
            ..RIGHT
        },
        ReplayFault::HasEnded(9),
    ),
    (
        Claim {
            count: 5,
            steps: 5,
            ..RIGHT
        },
        ReplayFault::OtherEnd,
    ),
];

/// Makes a record of one turn claim this.
fn make_claim(rt: &impl Abort, record: &mut Record, claim: Claim) {
    let turn = record.turns.first_mut().expect(rt, "no turn");
    turn.hart = claim.hart;
    turn.count = claim.count;
    record.closing.steps = claim.steps;
    record.closing.end = End::Exited(claim.status);
    record.closing.output.length = claim.length;
}

/// A record is of one turn of nine instructions, and of the output.
fn is_of_the_program(rt: &impl Abort, record: &Record) {
    assert!(rt; record.closing.steps == 9);
    assert!(rt; record.closing.end == End::Exited(0));
    assert!(rt; record.closing.output.digest == OUTPUT_DIGEST);
    assert!(rt; record.turns.len() == 1);
}

fn replays_as_it_claims(rt: &impl Abort, alloc: Global, image: &Image, record: &mut Record) {
    for (claim, fault) in WRONG {
        make_claim(rt, record, claim);
        assert!(rt; tried(rt, alloc, image, record) == Err(fault));
    }
}

/// The image of the program.
fn image_of_words(rt: &impl Abort, alloc: Global) -> Image {
    Image::from_words(alloc, WORDS.as_slice()).expect(rt, "no image")
}

#[test]
fn explored_replays(rt: HostRuntime) {
    let alloc = rt.alloc();
    let image = image_of_words(&rt, alloc);
    let mut record = explored(&rt, alloc, &image, Way::Turns);
    is_of_the_program(&rt, &record);
    let out = written(&rt, alloc, &record);
    let again = read(&rt, alloc, out.as_slice());
    assert!(rt; tried(&rt, alloc, &image, &again) == Ok(()));
    replays_as_it_claims(&rt, alloc, &image, &mut record);
}

/// A record of the program, whose harts run in this way.
fn explored(rt: &impl Abort, alloc: Global, image: &Image, way: Way) -> Record {
    let file = take_fingerprint(b"file");
    explore_run(alloc, image, file, Vec::new(alloc), 7, way, 1000).expect(rt, "no record")
}

/// What runs of the program are like, of at most so many instructions.
fn measured(rt: &impl Abort, alloc: Global, image: &Image, limit: u64) -> RunSize {
    measure_runs(alloc, image, &[], limit).expect(rt, "not measured")
}

fn ends_in_one_turn(rt: &impl Abort, alloc: Global, image: &Image, record: &Record) {
    assert!(rt; record.closing.end == End::Exited(0));
    assert!(rt; record.turns.len() == 1);
    assert!(rt; tried(rt, alloc, image, record) == Ok(()));
}

#[test]
fn one_hart_has_one_turn(rt: HostRuntime) {
    let alloc = rt.alloc();
    let image = image_of_words(&rt, alloc);
    let whole = RunSize {
        harts: 1,
        steps: 9,
        has_ended: true,
    };
    let part = RunSize {
        harts: 1,
        steps: 5,
        has_ended: false,
    };
    assert!(rt; measured(&rt, alloc, &image, 1000) == whole);
    assert!(rt; measured(&rt, alloc, &image, 5) == part);
    assert!(rt; whole.patience(1000) == 72);
    assert!(rt; whole.patience(80) == 10);
    assert!(rt; whole.patience(8) == 9);
    let way = Way::Priorities {
        depth: 3,
        steps: 9,
        patience: 72,
    };
    let record = explored(&rt, alloc, &image, way);
    ends_in_one_turn(&rt, alloc, &image, &record);
}

/// What a replay of the program answers.
fn tried(
    rt: &impl Abort,
    alloc: Global,
    image: &Image,
    record: &Record,
) -> Result<(), ReplayFault> {
    let mut process = FlatProcess::new(alloc, image, Vec::new(alloc)).expect(rt, "no process");
    replay(alloc, &mut process, record)
}
