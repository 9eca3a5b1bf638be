//! The name of a page on the machine: the numbers of its process and of its virtual page, printed `P/V`.

use std::fmt;

/// A page: a process by its number, and the number of one of its virtual pages.
#[derive(Clone, Copy, Debug, PartialEq, Eq, Hash)]
pub struct Key {
    pub process: u32,
    pub vpn: u32,
}

/// As `P/V`, both in decimal.
impl fmt::Display for Key {
    ghost use Rattle.std.specs.Prelude.{Some};
    ghost use Rattle.clock_policy.specs.Text.{key_text};

    ghost output = { λ k. Some (key_text k) };

    fn fmt<W: fmt::Write>(&self, f: &mut fmt::Formatter<W>) -> fmt::Result {
        let process = self.process;
        let vpn = self.vpn;
        write!(f, "{process}/{vpn}")
    }
}
