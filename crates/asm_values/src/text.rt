//! `.ascii` and `.space`: the bytes of a text after its escapes, and a number of zero bytes.

ghost use Rattle.std.specs.Prelude.{◌≡◌, IfOk, IfErr, map};
ghost use Rattle.asm_lines.specs.Faults.{RefusesLine};
ghost use Rattle.asm_values.specs.Directives as form;
ghost use Rattle.asm_values.specs.declared.datum.Datum.TheVariants.{Byte};

use crate::datum::Datum;
use crate::operands::{one_number, one_text};
use crate::ranges::zero_count;
use asm_lines::{FaultKind, LineRefusal, Operand};
use std::alloc::{AllocError, Global};

/// What a character means after a backslash.
#[tactic(auto, unfolding(crate::specs::Directives::escape))]
fn escape(character: u8) -> u8
    ensures { result ≡ form.escape character }
{
    match character {
        b'n' => b'\n',
        b't' => b'\t',
        b'0' => 0,
        _ => character,
    }
}

/// The characters of a text, a byte each.
fn characters<'a>(alloc: Global, text: &[u8]) -> Result<Vec<Datum<'a>>, AllocError>
    ensures { IfOk result (λ bytes. bytes.items ≡ map Byte (form.unescaped text.now)) }
{
    let mut bytes = Vec::new(alloc);
    let mut behind_backslash = false;
    for &character in text {
        if behind_backslash {
            bytes.push(Datum::Byte(escape(character)))?;
            behind_backslash = false;
        } else if character == b'\\' {
            behind_backslash = true;
        } else {
            bytes.push(Datum::Byte(character))?;
        }
    }
    Ok(bytes)
}

/// `.ascii "text"`.
#[tactic(auto, unfolding(crate::specs::Directives::ascii))]
pub fn ascii<'a>(alloc: Global, operands: &[Operand]) -> Result<Vec<Datum<'a>>, LineRefusal>
    ensures bytes { IfOk result (λ bytes. form.ascii operands.now ≡ Ok bytes.items) }
    ensures refusal { IfErr result (RefusesLine (form.ascii operands.now)) }
{
    let text = one_text(operands).ok_or(LineRefusal::Fault(FaultKind::Operand))?;
    Ok(characters(alloc, text.bytes())?)
}

/// `.space n`.
#[tactic(auto, unfolding(crate::specs::Directives::space))]
pub fn space<'a>(operands: &[Operand]) -> Result<Datum<'a>, FaultKind>
    ensures { result ≡ form.space operands.now }
{
    let number = one_number(operands).ok_or(FaultKind::Operand)?;
    Ok(Datum::Zeros(zero_count(number)?))
}
