//! The statement of a line.

ghost use Rattle.std.specs.Prelude.{◌≡◌, Some, IfOk, IfErr, ok_or};
ghost use Rattle.asm_lines.specs.Faults.{RefusesLine};
ghost use Rattle.asm_lines.specs.Forms.{SourceLine};
ghost use Rattle.asm_lines.specs.Lines.{unlabelled};
ghost use Rattle.asm_lines.specs.Readings.{statement_on, arguments_on};

use crate::fault::{FaultKind, LineRefusal};
use crate::front::Front;
use crate::operand::Operand;
use crate::operands::operands;
use crate::span::Span;
use crate::token::Token;
use crate::tokens::next_token;
use std::alloc::Global;

/// A statement's name and its operands, or no name where there is no statement.
pub fn statement<'a>(
    alloc: Global,
    text: &'a [u8],
) -> Result<(Option<Span<'a>>, Vec<Operand<'a>>), LineRefusal>
    ensures statement { IfOk result (λ read. statement_on text.now ≡
        Some (unlabelled read.0 read.1.items)) }
    ensures refusal { IfErr result (RefusesLine (ok_or (statement_on text.now) FaultKind.BadLine)) }
{
    match next_token(text) {
        Front::End => Ok((None, Vec::new(alloc))),
        Front::Token(token, rest) => {
            let Token::Name(name) = token else {
                return Err(LineRefusal::Fault(FaultKind::BadLine));
            };
            let operands = arguments(alloc, rest)?;
            Ok((Some(name), operands))
        }
        Front::Bad => Err(LineRefusal::Fault(FaultKind::BadLine)),
    }
}

/// What stands behind a statement's name: nothing, or operands.
fn arguments<'a>(alloc: Global, text: &'a [u8]) -> Result<Vec<Operand<'a>>, LineRefusal>
    ensures operands { IfOk result (λ operands. arguments_on text.now ≡ Some operands.items) }
    ensures refusal { IfErr result (RefusesLine (ok_or (arguments_on text.now) FaultKind.BadLine)) }
{
    if let Front::End = next_token(text) {
        return Ok(Vec::new(alloc));
    }
    operands(alloc, text)
}
