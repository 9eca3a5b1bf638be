//! The name of the file of a slot: `PREFIX.K`.

use std::fmt;

/// The name of a slot's file: `PREFIX.K`, a prefix that all slots share, a point and the slot's number in decimal.
#[derive(Clone, Copy, Debug, PartialEq, Eq)]
pub struct FileName<'a> {
    pub prefix: &'a str,
    pub number: u32,
}

impl fmt::Display for FileName<'_> {
    ghost use Rattle.std.specs.Prelude.{Some};
    ghost use Rattle.file_slots.specs.FileNames.{file_name};

    ghost output = { λ name. Some (file_name name.prefix.now name.number) };

    fn fmt<W: fmt::Write>(&self, f: &mut fmt::Formatter<W>) -> fmt::Result {
        let (prefix, number) = (self.prefix, self.number);
        write!(f, "{prefix}.{number}")
    }
}
