//! `li`: one `addi` if the number fits into it, else `lui` and `addi`.

ghost use Rattle.std.specs.Prelude.{◌≡◌, IfOk, IfErr};
ghost use Rattle.asm_lines.specs.Faults.{RefusesLine};
ghost use Rattle.asm_statements.specs.Instructions.{constant, load_immediate};

use crate::instructions::add_immediate;
use crate::part::CodePart;
use crate::ranges::immediate;
use crate::shapes::register_number;
use asm_lines::{FaultKind, LineRefusal, Operand};
use asm_values::word;
use rv_isa::{Insn, Reg, high_part, low_part};
use std::alloc::{AllocError, Global};

/// What puts a number into a register: one `addi` where it takes the number, else `lui` and `addi`.
#[tactic(auto, using(crate::proofs::RangeLemmas::within_same), unfolding(crate::specs::Instructions::constant))]
fn load<'a>(alloc: Global, rd: Reg, number: i64, word: u32) -> Result<Vec<CodePart<'a>>, AllocError>
    ensures { IfOk result (λ parts. parts.items ≡ constant rd number word) }
{
    if let Ok(immediate) = immediate(number) {
        let whole = add_immediate(rd, Reg::from_index(0), immediate);
        return Ok(vec![in alloc; CodePart::Fixed(whole)]?);
    }
    let upper = Insn::Lui {
        rd,
        immediate: high_part(word),
    };
    let lower = add_immediate(rd, rd, low_part(word));
    Ok(vec![in alloc; CodePart::Fixed(upper), CodePart::Fixed(lower)]?)
}

/// `li rd, n`.
#[tactic(auto, unfolding(crate::specs::Instructions::load_immediate))]
pub(crate) fn read_constant<'a>(
    alloc: Global,
    operands: &[Operand],
) -> Result<Vec<CodePart<'a>>, LineRefusal>
    ensures parts { IfOk result (λ parts. load_immediate operands.now ≡ Ok parts.items) }
    ensures refusal { IfErr result (RefusesLine (load_immediate operands.now)) }
{
    let (rd, number) = register_number(operands).ok_or(LineRefusal::Fault(FaultKind::Operand))?;
    let word = word(number).map_err(LineRefusal::Fault)?;
    Ok(load(alloc, rd, number, word)?)
}
