//! A table of rows as text.

ghost use Rattle.std.specs.Prelude.{◌≡◌, OnOk, take};
ghost use Rattle.std.specs.List.{flat_map};
ghost use Rattle.std.specs.Io.KnownBytes.{Appends};
ghost use Rattle.hex.specs.Hex.{encode_lower};
ghost use Rattle.record_commands.specs.Tables.{
  head_text,
  head_values,
  last_text,
  last_value,
  number_values,
  numbers_text,
  row_text,
  row_values,
  table_text,
  values_text,
};

use crate::row::Row;
use process_text::Ending;
use run_records::digits_of;
use std::io;
use std::io::Write;

/// Writes a row a line below a head. Of a digest it has the first twelve digits.
pub(crate) fn write_table<O: Write>(rows: &[Row], out: &mut O) -> io::Result<()>
    ensures { OnOk result (Appends (O.contents out.old) (O.contents out.new) (table_text rows.now)) }
{
    write_head(out)?;
    write_lines(rows, out)
}

#[tactic(auto, unfolding(crate::specs::Tables::head_text))]
fn write_head<O: Write>(out: &mut O) -> io::Result<()>
    ensures { OnOk result (Appends (O.contents out.old) (O.contents out.new) head_text) }
{
    writeln!(out, "   times  first seed    bytes  digest        ending")
}

#[tactic(auto, using(crate::proofs::RowTexts::row_on))]
fn write_lines<O: Write>(rows: &[Row], out: &mut O) -> io::Result<()>
    ensures { OnOk result (Appends (O.contents out.old) (O.contents out.new) (flat_map row_text
        rows.now)) }
{
    'rows: for row in rows {
        write_row(row, out)?;
    }
    Ok(())
}

fn write_row<O: Write>(row: &Row, out: &mut O) -> io::Result<()>
    ensures { OnOk result (Appends (O.contents out.old) (O.contents out.new) (row_text row.now)) }
{
    write_numbers(row, out)?;
    write_digits(row, out)?;
    write_last(row, out)
}

#[tactic(auto, unfolding(crate::specs::Tables::numbers_text))]
fn write_numbers<O: Write>(row: &Row, out: &mut O) -> io::Result<()>
    ensures { OnOk result (Appends (O.contents out.old) (O.contents out.new) (numbers_text
        row.now)) }
{
    let (times, seed, length) = (row.times, row.seed, row.output.length);
    write!(out, "{times:>8}  {seed:>10} {length:>8}  ")
}

/// Writes the first twelve digits of a digest.
fn write_digits<O: Write>(row: &Row, out: &mut O) -> io::Result<()>
    ensures { OnOk result (Appends (O.contents out.old) (O.contents out.new) (take 12 (encode_lower
        row.now.output.digest))) }
{
    let digits = digits_of(&row.output.digest);
    out.write_all(&digits[..12])
}

#[tactic(auto, unfolding(crate::specs::Tables::last_text))]
fn write_last<O: Write>(row: &Row, out: &mut O) -> io::Result<()>
    ensures { OnOk result (Appends (O.contents out.old) (O.contents out.new) (last_text row.now)) }
{
    let ending = Ending(row.end);
    writeln!(out, "  {ending}")
}

/// Writes a row a line below a head, as values with commas between.
pub(crate) fn write_values<O: Write>(rows: &[Row], out: &mut O) -> io::Result<()>
    ensures { OnOk result (Appends (O.contents out.old) (O.contents out.new) (values_text
        rows.now)) }
{
    write_value_head(out)?;
    write_value_lines(rows, out)
}

#[tactic(auto, unfolding(crate::specs::Tables::head_values))]
fn write_value_head<O: Write>(out: &mut O) -> io::Result<()>
    ensures { OnOk result (Appends (O.contents out.old) (O.contents out.new) head_values) }
{
    writeln!(out, "times,first_seed,bytes,digest,ending")
}

#[tactic(auto, using(crate::proofs::RowTexts::values_on))]
fn write_value_lines<O: Write>(rows: &[Row], out: &mut O) -> io::Result<()>
    ensures { OnOk result (Appends (O.contents out.old) (O.contents out.new) (flat_map row_values
        rows.now)) }
{
    'rows: for row in rows {
        write_row_values(row, out)?;
    }
    Ok(())
}

fn write_row_values<O: Write>(row: &Row, out: &mut O) -> io::Result<()>
    ensures { OnOk result (Appends (O.contents out.old) (O.contents out.new) (row_values
        row.now)) }
{
    write_number_values(row, out)?;
    let digits = digits_of(&row.output.digest);
    out.write_all(digits.as_slice())?;
    write_last_value(row, out)
}

#[tactic(auto, unfolding(crate::specs::Tables::number_values))]
fn write_number_values<O: Write>(row: &Row, out: &mut O) -> io::Result<()>
    ensures { OnOk result (Appends (O.contents out.old) (O.contents out.new) (number_values
        row.now)) }
{
    let (times, seed, length) = (row.times, row.seed, row.output.length);
    write!(out, "{times},{seed},{length},")
}

#[tactic(auto, unfolding(crate::specs::Tables::last_value))]
fn write_last_value<O: Write>(row: &Row, out: &mut O) -> io::Result<()>
    ensures { OnOk result (Appends (O.contents out.old) (O.contents out.new) (last_value row.now)) }
{
    let ending = Ending(row.end);
    writeln!(out, ",{ending}")
}
