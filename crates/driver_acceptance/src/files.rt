//! A guest over slots in files: on a disk that takes what is written, and on one that is full.

use crate::endings::tells;
use crate::machine::{played, processes};
use file_slots::FileSlot;
use flat_machine::{End, KillCause};
use machine_core::Report;
use std::alloc::Global;
use std::io::Cursor;
use std::process::Abort;
use test_guests::WRITES_A_SUM;

/// More events than a run takes.
const AMPLE: u64 = 100_000;

/// A file for each page that it changes.
const FILES: u32 = 11;

/// The process has ended so, after so many instructions, page-ins and saves.
fn tells_of_pages(
    rt: &impl Abort,
    alloc: Global,
    report: &Report,
    pages: (u64, u64),
    told: (Option<End>, u64),
) {
    assert!(rt; (report.page_ins, report.saves) == pages);
    tells(rt, alloc, report, &[told]);
}

#[test]
fn files_take_pages(rt: HostRuntime) {
    let alloc = rt.alloc();
    let mut slots = Vec::new(alloc);
    for number in 0..FILES {
        let slot = FileSlot::new(number, Cursor::new(Vec::<u8>::new(alloc)));
        slots.push(slot).expect(&rt, "no slots");
    }
    let starts = processes(&rt, alloc, 1, WRITES_A_SUM);
    let report = played(&rt, alloc, slots, starts, 1000, AMPLE);
    tells_of_pages(&rt, alloc, &report, (25, 11), (Some(End::Exited(0)), 114));
}

/// No file grows past 100 bytes: each save fails.
#[test]
fn a_full_disk_takes_none(rt: HostRuntime) {
    let alloc = rt.alloc();
    let mut slots = Vec::new(alloc);
    for number in 0..FILES {
        let slot = FileSlot::new(number, Cursor::new([0u8; 100]));
        slots.push(slot).expect(&rt, "no slots");
    }
    let starts = processes(&rt, alloc, 1, WRITES_A_SUM);
    let report = played(&rt, alloc, slots, starts, 1000, AMPLE);
    let end = Some(End::Killed(KillCause::NoSwap));
    tells_of_pages(&rt, alloc, &report, (5, 0), (end, 16));
}
