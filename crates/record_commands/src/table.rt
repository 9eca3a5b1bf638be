//! Rows, each of another ending or output, in the order in which they came.

ghost use Rattle.std.specs.Prelude.{◌≡◌, ◌<◌, ◌^◌, ◌↔◌, false, length, IsTrue, IfOk, OnOk, MatchOption};
ghost use Rattle.record_commands.specs.Rows.{AreUnlike, Counts, IsFirstLike, times_of};

use crate::row::Row;
use run_records::Closing;
use std::alloc::AllocError;

/// Counts a run in the row that it is like, or begins a row after the others. Returns whether it began one.
pub(crate) fn count(rows: &mut Vec<Row>, seed: u64, closing: &Closing) -> Result<bool, AllocError>
    requires few { times_of rows.old.items < 2 ^ 63 }
    ensures counts { OnOk result (Counts seed closing.now rows.old.items rows.new.items) }
    ensures again { IfOk result (λ began. began ≡ false → length rows.new.items ≡ length
        rows.old.items) }
{
    match place_of(rows.as_slice(), closing) {
        Some(place) => {
            count_again(rows, seed, closing, place);
            Ok(false)
        }
        None => {
            rows.push(Row::of(seed, closing))?;
            Ok(true)
        }
    }
}

/// Where the row is that a run is like.
fn place_of(rows: &[Row], closing: &Closing) -> Option<usize>
    ensures { MatchOption result (AreUnlike closing.now rows.now) (λ place. IsFirstLike closing.now
        rows.now place) }
{
    'rows: for (place, row) in rows.iter().enumerate() {
        if row.is_like(closing) {
            return Some(place);
        }
    }
    None
}

/// Counts a run in the row at a place, which it is like.
fn count_again(rows: &mut Vec<Row>, seed: u64, closing: &Closing, place: usize)
    requires few { times_of rows.old.items < 2 ^ 63 }
    requires like { IsFirstLike closing.now rows.old.items place }
    ensures counts { Counts seed closing.now rows.old.items rows.new.items }
    ensures many { length rows.new.items ≡ length rows.old.items }
{
    rows[place].times += 1;
}
