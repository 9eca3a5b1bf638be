//! A picture as JSON.

use crate::json_text::OrNull;
use crate::picture::Picture;
use crate::process_json::write_processes;
use crate::shown_page::ShownPage;
use clock_policy::{Entry, Key};
use page_store::PageState;
use paged_memory::PageStatus;
use std::io::Write;
use std::{fmt, io};

/// Writes the part of a scene after its event, and ends its line: the picture, or its differences from the one before it, if there is one.
pub(crate) fn write_picture<W: Write>(
    picture: &Picture,
    before: Option<&Picture>,
    out: &mut W,
) -> io::Result<()> {
    write_pages(picture.pages.as_slice(), pages_before(before), out)?;
    if !before.is_some_and(|old| has_same_list(picture, old)) {
        write_list(picture, out)?;
    }
    if !before.is_some_and(|old| picture.counts == old.counts) {
        write_counts(picture, out)?;
    }
    if !before.is_some_and(|old| picture.written == old.written) {
        write_written(picture.written.as_slice(), out)?;
    }
    if !before.is_some_and(|old| picture.processes == old.processes) {
        write!(out, ",\"processes\":[")?;
        write_processes(picture.processes.as_slice(), before, out)?;
        write!(out, "]")?;
    }
    writeln!(out, "}}")
}

fn pages_before(before: Option<&Picture>) -> &[ShownPage] {
    match before {
        Some(picture) => picture.pages.as_slice(),
        None => [].as_slice(),
    }
}

fn has_same_list(picture: &Picture, old: &Picture) -> bool {
    picture.entries == old.entries && picture.hands == old.hands
}

fn write_written<W: Write>(written: &[usize], out: &mut W) -> io::Result<()> {
    write!(out, ",\"written\":[")?;
    let mut comma = "";
    for count in written {
        write!(out, "{comma}{count}")?;
        comma = ",";
    }
    write!(out, "]")
}

/// The first page, if there is one, and those after it.
fn first_of(pages: &[ShownPage]) -> (Option<&ShownPage>, &[ShownPage]) {
    match pages.split_first() {
        Some((first, others)) => (Some(first), others),
        None => (None, pages),
    }
}

/// Writes the pages that are not as in the picture before, if there are any. A page keeps its place in a film.
fn write_pages<W: Write>(pages: &[ShownPage], old: &[ShownPage], out: &mut W) -> io::Result<()> {
    if pages == old && !old.is_empty() {
        return Ok(());
    }
    write!(out, ",\"pages\":[")?;
    let mut comma = "";
    let mut rest = old;
    for page in pages {
        let (before, others) = first_of(rest);
        if before != Some(page) {
            write!(out, "{comma}")?;
            write_page(*page, out)?;
            comma = ",";
        }
        rest = others;
    }
    write!(out, "]")
}

/// A page's row: its key, and where it is mapped its state, its frame, its two bits, whether it counts as changed, and how far its
/// cleaning is.
fn write_page<W: Write>(page: ShownPage, out: &mut W) -> io::Result<()> {
    write!(out, "[\"{}\"", page.key)?;
    if let Some(status) = page.status {
        let state = word_of(status.state);
        let (frame, accessed) = (OrNull(status.frame), OrNull(status.accessed));
        let dirty = status.dirty;
        let (changed, cleaning) = (status.changed, cleaning_of(status));
        write!(
            out,
            ",\"{state}\",{frame},{accessed},{dirty},{changed},\"{cleaning}\""
        )?;
    }
    write!(out, "]")
}

fn cleaning_of(status: PageStatus) -> &'static str {
    if status.cleaning {
        "being cleaned"
    } else if status.copied {
        "a copy is out"
    } else {
        ""
    }
}

fn word_of(state: PageState) -> &'static str {
    match state {
        PageState::Fresh => "fresh",
        PageState::Resident => "resident",
        PageState::Leaving => "leaving",
        PageState::Saving => "saving",
        PageState::Away => "away",
        PageState::Purged => "purged",
    }
}

fn write_list<W: Write>(picture: &Picture, out: &mut W) -> io::Result<()> {
    let hands = picture.hands;
    let (cold, test) = (Hand(hands.cold), Hand(hands.test));
    write!(
        out,
        ",\"share\":{},\"asked\":{},\"cold\":{cold},\"test\":{test},\"entries\":[",
        hands.share, hands.asked
    )?;
    let mut comma = "";
    for entry in picture.entries.as_slice() {
        write_entry(*entry, comma, out)?;
        comma = ",";
    }
    write!(out, "]")
}

fn write_entry<W: Write>(entry: Entry, comma: &str, out: &mut W) -> io::Result<()> {
    write!(out, "{comma}[\"{}\",\"{}\"]", entry.key, entry.kind)
}

fn write_counts<W: Write>(picture: &Picture, out: &mut W) -> io::Result<()> {
    let counts = picture.counts;
    let tallies = counts.pager.tallies;
    write!(
        out,
        ",\"free\":{},\"page_ins\":{},\"victims\":{},\"saves\":{},\"drops\":{},\"questions\":{}",
        counts.pager.free,
        tallies.page_ins,
        tallies.victims,
        counts.saves,
        counts.drops,
        tallies.questions
    )
}

/// A hand of the list, which is on a page or on none.
#[derive(Clone, Copy)]
struct Hand(Option<Key>);

impl fmt::Display for Hand {
    fn fmt<W: fmt::Write>(&self, f: &mut fmt::Formatter<W>) -> fmt::Result {
        match self.0 {
            Some(key) => write!(f, "\"{key}\""),
            None => f.write_str("null"),
        }
    }
}
