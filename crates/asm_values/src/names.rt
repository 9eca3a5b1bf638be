//! Looks a name up in a table: the first row with that name gives the value.

ghost use Rattle.std.specs.Prelude.{◌≡◌, map, find};
ghost use Rattle.std.specs.Option.{option_copied};
ghost use Rattle.std.specs.Str.{bytes_eq};
ghost use Rattle.asm_values.specs.Names.{named};

/// The first row of a table that has a name.
fn row_of<'a, 'b, T>(table: &'a [(&'b [u8], T)], name: &[u8]) -> Option<&'a (&'b [u8], T)>
    ensures { option_copied result ≡ find (λ entry. bytes_eq entry.0.now name.now) table.now }
{
    table.iter().find(|entry| entry.0 == name)
}

/// What a table has for a name.
#[tactic(auto, using(crate::proofs::NameLemmas::named_is_found))]
pub fn look_up<T: Copy>(table: &[(&[u8], T)], name: &[u8]) -> Option<T>
    ensures { result ≡ named (map (λ entry. (entry.0.now, entry.1)) table.now) name.now }
{
    let row = row_of(table, name)?;
    Some(row.1)
}
