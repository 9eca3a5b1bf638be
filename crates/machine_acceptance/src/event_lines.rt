//! The lines of a drive script.

use clock_policy::Key;
use event_scripts::{ReplyLine, event_on_line, read_drive_script};
use flat_machine::KillCause;
use machine_core::{Event, EventRefusal, Reply};
use text_lines::BadLine;

/// Page 16 of process 0.
const KEY: Key = Key {
    process: 0,
    vpn: 16,
};

/// Lines of every event, with numbers in all forms.
const LINES: [(&str, Event); 11] = [
    (
        "step 0 1",
        Event::Step {
            process: 0,
            hart: 1,
        },
    ),
    (
        "\tnotice 0  7 ",
        Event::Notice {
            process: 0,
            hart: 7,
        },
    ),
    ("sweep", Event::Sweep),
    ("collect 0 0x10", Event::Collect(KEY)),
    ("saved 00 16", Event::Saved(KEY)),
    ("pagein 0 0016", Event::PageIn(KEY)),
    (
        "kill 4294967295 6",
        Event::Kill {
            process: u32::MAX,
            cause: KillCause::Limit,
        },
    ),
    ("purge 0xFFFFFFFF", Event::Purge { process: u32::MAX }),
    ("clean 0 16", Event::Clean(KEY)),
    ("copy\t0x0 0x10", Event::Copy(KEY)),
    ("cleaned 0 16", Event::Cleaned(KEY)),
];

#[test]
fn lines_are_events(rt: HostRuntime) {
    for (line, event) in LINES {
        assert!(rt; event_on_line(line.as_bytes()) == Ok(Some(event)), "{line}");
    }
    assert!(rt; event_on_line(b"#sweep".as_slice()) == Ok(None));
    for line in ["kill 0 7", "step 4294967296 0", "clean 0", "copied 0 16"] {
        assert!(rt; event_on_line(line.as_bytes()) == Err(BadLine), "{line}");
    }
}

#[test]
fn a_bad_line_ends_the_script(rt: HostRuntime) {
    let text = "sweep\n\n# one\npurge 1\nsweep 1\nsweep";
    let script = read_drive_script(rt.alloc(), text.as_bytes()).expect(&rt, "no script");
    let before = [Event::Sweep, Event::Purge { process: 1 }];
    let events = script.events.as_slice();
    assert!(rt; events == before.as_slice() && script.bad_line == Some(5));
}

#[test]
fn a_script_ends_with_its_last_line(rt: HostRuntime) {
    let script = read_drive_script(rt.alloc(), b"sweep\n".as_slice()).expect(&rt, "no script");
    assert!(rt; script.events.len() == 1 && script.bad_line == None);
}

#[test]
fn replies_to_cleaning_are_lines(rt: HostRuntime) {
    for (reply, line) in [
        (Reply::Cleaning, "cleaning"),
        (Reply::Stored, "stored"),
        (Reply::Copied, "copied"),
        (Reply::Cleaned, "clean"),
        (Reply::Refused(EventRefusal::NotResident), "refused 13"),
        (Reply::Refused(EventRefusal::NotChanged), "refused 14"),
        (Reply::Refused(EventRefusal::AlreadyCleaning), "refused 15"),
        (Reply::Refused(EventRefusal::NotCleaning), "refused 16"),
        (Reply::Refused(EventRefusal::NotCopied), "refused 17"),
    ] {
        let told = format!(in rt.alloc(); "{}", ReplyLine(reply)).expect(&rt, "no memory");
        assert!(rt; told.as_str() == line);
    }
}
