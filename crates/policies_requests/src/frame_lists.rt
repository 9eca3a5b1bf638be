//! Lists of numbers of frames.

use crate::percents::part_in;
use miss_counts::TableSize;
use page_policies::Frames;
use std::alloc::{AllocError, Global};
use text_lines::numeral;

/// How many numbers of frames a list may have.
const MOST_NUMBERS: usize = 4096;

/// The most frames that a number of them may be.
const MOST_FRAMES: u32 = 16_777_216;

/// Why a list is none.
#[derive(Debug, Drop)]
pub(crate) enum ListFault<'a> {
    NoMemory,
    /// A word that is no number of frames, and no range.
    Word(&'a str),
    /// More numbers than a list may have.
    TooMany,
}

impl From<AllocError> for ListFault<'_> {
    fn from(_: AllocError) -> Self {
        ListFault::NoMemory
    }
}

/// Numbers of frames, ranges of them, and parts of a string's pages, parted by commas. A range is `4-64`, each number of it, or `4-64x2`,
/// each twice as many as the one before; a part is `0.1%`.
pub(crate) fn sizes_in<'a>(alloc: Global, list: &'a str) -> Result<Vec<TableSize>, ListFault<'a>> {
    let mut all = Vec::new(alloc);
    add_list(&mut all, list)?;
    Ok(all)
}

fn add_list<'a>(all: &mut Vec<TableSize>, list: &'a str) -> Result<(), ListFault<'a>> {
    for word in list.split(',') {
        if let Some(part) = part_in(word) {
            add_size(all, TableSize::Part(part))?;
            continue;
        }
        match range_of(word) {
            Some((from, to, times)) if 1 <= from && from <= to => {
                add_range(all, from, to, times)?;
            }
            _ => return Err(ListFault::Word(word)),
        }
    }
    Ok(())
}

/// A word's least number, its greatest, and by what each is multiplied to have the next; 1 where each number is meant.
fn range_of(word: &str) -> Option<(u32, u32, u32)> {
    let Some((from, rest)) = word.split_once('-') else {
        let number = frames_of(word)?;
        return Some((number, number, 1));
    };
    let from = frames_of(from)?;
    let Some((to, times)) = rest.split_once('x') else {
        return Some((from, frames_of(rest)?, 1));
    };
    let to = frames_of(to)?;
    let times = frames_of(times)?;
    if times < 2 {
        return None;
    }
    Some((from, to, times))
}

/// A number up to the most frames that a policy may have.
fn frames_of(word: &str) -> Option<u32> {
    numeral(word.as_bytes(), 10, MOST_FRAMES)
}

/// Adds a number, where the list may have one more.
fn add_size<'a>(all: &mut Vec<TableSize>, size: TableSize) -> Result<(), ListFault<'a>> {
    if all.len() >= MOST_NUMBERS {
        return Err(ListFault::TooMany);
    }
    match all.push(size) {
        Ok(()) => Ok(()),
        Err(_) => Err(ListFault::NoMemory),
    }
}

fn add_range<'a>(
    all: &mut Vec<TableSize>,
    from: u32,
    to: u32,
    times: u32,
) -> Result<(), ListFault<'a>> {
    let mut next = from;
    for _ in 0..MOST_NUMBERS {
        let Some(frames) = Frames::new(next as usize) else {
            return Ok(());
        };
        add_size(all, TableSize::Frames(frames))?;
        next = if times == 1 {
            next.saturating_add(1)
        } else {
            next.saturating_mul(times)
        };
        if next > to {
            return Ok(());
        }
    }
    Err(ListFault::TooMany)
}
