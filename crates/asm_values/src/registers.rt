//! The numbers of the registers by their names: those of the ABI, and `x0` to `x31`.

ghost use Rattle.std.specs.Prelude.{◌≡◌, ◌<◌, IfSome};
ghost use Rattle.asm_values.specs.Registers.{register_of};

use crate::names::look_up;

/// The registers by their names in the ABI, then by their numbers.
const REGISTERS: [(&[u8], u8); 65] = [
    (b"zero", 0),
    (b"ra", 1),
    (b"sp", 2),
    (b"gp", 3),
    (b"tp", 4),
    (b"t0", 5),
    (b"t1", 6),
    (b"t2", 7),
    (b"s0", 8),
    (b"s1", 9),
    (b"a0", 10),
    (b"a1", 11),
    (b"a2", 12),
    (b"a3", 13),
    (b"a4", 14),
    (b"a5", 15),
    (b"a6", 16),
    (b"a7", 17),
    (b"s2", 18),
    (b"s3", 19),
    (b"s4", 20),
    (b"s5", 21),
    (b"s6", 22),
    (b"s7", 23),
    (b"s8", 24),
    (b"s9", 25),
    (b"s10", 26),
    (b"s11", 27),
    (b"t3", 28),
    (b"t4", 29),
    (b"t5", 30),
    (b"t6", 31),
    (b"fp", 8),
    (b"x0", 0),
    (b"x1", 1),
    (b"x2", 2),
    (b"x3", 3),
    (b"x4", 4),
    (b"x5", 5),
    (b"x6", 6),
    (b"x7", 7),
    (b"x8", 8),
    (b"x9", 9),
    (b"x10", 10),
    (b"x11", 11),
    (b"x12", 12),
    (b"x13", 13),
    (b"x14", 14),
    (b"x15", 15),
    (b"x16", 16),
    (b"x17", 17),
    (b"x18", 18),
    (b"x19", 19),
    (b"x20", 20),
    (b"x21", 21),
    (b"x22", 22),
    (b"x23", 23),
    (b"x24", 24),
    (b"x25", 25),
    (b"x26", 26),
    (b"x27", 27),
    (b"x28", 28),
    (b"x29", 29),
    (b"x30", 30),
    (b"x31", 31),
];

/// What the table has for a name.
#[tactic(auto, unfolding(crate::specs::Registers::register_of))]
fn number(name: &[u8]) -> Option<u8>
    ensures { result ≡ register_of name.now }
{
    look_up(&REGISTERS, name)
}

/// The number of the register of a name.
#[tactic(auto, using(crate::proofs::NameLemmas::registers_fit))]
pub fn register_number(name: &[u8]) -> Option<u8>
    ensures value { result ≡ register_of name.now }
    ensures fits { IfSome result (λ number. number < 32) }
{
    number(name)
}
