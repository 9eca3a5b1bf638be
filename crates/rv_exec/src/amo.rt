//! The word that each atomic memory operation stores.

ghost use Rattle.std.specs.Prelude.{◌≡◌};
ghost use Rattle.rv_exec.specs.Amo.{amo_result};

use rv_isa::AmoKind;

/// The word that an atomic memory operation stores, of the old word and its operand
/// (unprivileged manual, "Zaamo").
#[inline]
#[tactic(auto, unfolding(crate::specs::Amo::amo_result, crate::specs::Arithmetic::word_sum))]
pub fn amo_word(operation: AmoKind, old: u32, operand: u32) -> u32
    ensures { result ≡ amo_result operation old operand }
{
    match operation {
        AmoKind::Amoadd => old.wrapping_add(operand),
        AmoKind::Amoswap => operand,
        AmoKind::Amoxor => old ^ operand,
        AmoKind::Amoor => old | operand,
        AmoKind::Amoand => old & operand,
        AmoKind::Amomin => {
            if operand.cast_signed() < old.cast_signed() {
                operand
            } else {
                old
            }
        }
        AmoKind::Amomax => {
            if old.cast_signed() < operand.cast_signed() {
                operand
            } else {
                old
            }
        }
        AmoKind::Amominu => { if operand < old { operand } else { old } }
        AmoKind::Amomaxu => { if old < operand { operand } else { old } }
    }
}
