//! The registers by their names.

ghost use Rattle.std.specs.Prelude.{◌≡◌};
ghost use Rattle.asm_values.specs.Registers.{register_of};

use asm_values::register_number;
use rv_isa::Reg;

/// The register of a name.
pub(crate) fn read_register(name: &[u8]) -> Option<Reg>
    ensures { result ≡ register_of name.now }
{
    let number = register_number(name)?;
    Reg::new(number)
}
