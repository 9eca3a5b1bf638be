//! Numbers as columns show them.

ghost use Rattle.std.specs.Prelude.{◌≡◌, ◌+◌, ◌*◌, ◌/◌, ◌<◌};

use std::io;
use std::io::Write;

/// Which part of the references missed, in parts of ten thousand that are rounded to the nearest; of none, none.
pub(crate) fn write_ratio<W: Write>(misses: u64, references: u64, out: &mut W) -> io::Result<()> {
    let parts = part_of(misses, references, 10_000, 0);
    let (whole, rest) = (parts / 10_000, parts % 10_000);
    write!(out, "{whole}.{rest:0>4}")
}

/// The quotient of two counts, in units of one over `parts`, rounded to the nearest. If `of` is 0 it is `of_none`. No product is cut.
pub(crate) fn part_of(count: u64, of: u64, parts: u64, of_none: u64) -> u128
    ensures of_none { of ≡ 0 → result ≡ of_none }
    ensures part { 0 < of → result ≡ (count * parts + of / 2) / of }
{
    if of == 0 {
        return u128::from(of_none);
    }
    let product = u128::from(count) * u128::from(parts);
    (product + u128::from(of / 2)) / u128::from(of)
}

/// Writes the mean of a sum over so many references in a column: six places before its point.
pub(crate) fn write_mean<W: Write>(sum: u64, references: u64, out: &mut W) -> io::Result<()> {
    let parts = part_of(sum, references, 10_000, 0);
    let (whole, rest) = (parts / 10_000, parts % 10_000);
    write!(out, "{whole:>6}.{rest:0>4}")
}

pub(crate) fn write_blanks<W: Write>(count: usize, out: &mut W) -> io::Result<()> {
    for _ in 0..count {
        out.write_all(b" ")?;
    }
    Ok(())
}
