//! The operands of a statement.

ghost use Rattle.std.specs.Prelude.{◌≡◌, ◌∷◌, ◌<◌, ◌≤◌, [], None, Some, IfOk, IfErr, IfSome, MatchOption, length, ok_or};
ghost use Rattle.asm_lines.specs.Faults.{RefusesLine};
ghost use Rattle.asm_lines.specs.Lines.{Due, After};
ghost use Rattle.asm_lines.specs.Tokens.{tokens_of, followed};
ghost use Rattle.asm_lines.specs.Readings.{operands_on, operands_behind, base_on};
ghost use Rattle.asm_lines.specs.declared.token.Token.TheVariants as token;

use crate::fault::{FaultKind, LineRefusal};
use crate::front::Front;
use crate::operand::Operand;
use crate::span::Span;
use crate::token::Token;
use crate::tokens::next_token;
use std::alloc::Global;

/// One operand or more, parted by commas, to the end of the line.
#[tactic(auto, using(crate::proofs::OperandSteps::one_more))]
pub fn operands<'a>(alloc: Global, text: &'a [u8]) -> Result<Vec<Operand<'a>>, LineRefusal>
    ensures operands { IfOk result (λ operands. operands_on Due text.now ≡ Some operands.items) }
    ensures refusal { IfErr result (RefusesLine
        (ok_or (operands_on Due text.now) FaultKind.BadLine)) }
{
    let mut operands = Vec::new(alloc);
    let mut rest = text;
    loop {
        let Some((operand, behind)) = next_operand(rest) else {
            return Err(LineRefusal::Fault(FaultKind::BadLine));
        };
        if operands.push(operand).is_err() {
            return Err(LineRefusal::NoMemory);
        }
        match next_token(behind) {
            Front::End => return Ok(operands),
            Front::Token(Token::Comma, more) => rest = more,
            _ => return Err(LineRefusal::Fault(FaultKind::BadLine)),
        }
    }
}

/// The operand at the front of a text, and what follows it.
fn next_operand<'a>(text: &'a [u8]) -> Option<(Operand<'a>, &'a [u8])>
    ensures operand { MatchOption result (operands_on Due text.now ≡ None)
        (λ found. operands_on Due text.now ≡ operands_on (After found.0) found.1.now) }
    ensures shorter { IfSome result (λ found. length found.1.now < length text.now) }
{
    let Front::Token(token, rest) = next_token(text) else {
        return None;
    };
    match token {
        Token::Number(number) => number_operand(number, rest),
        Token::Name(name) => Some((Operand::Name(name), rest)),
        Token::Text(text) => Some((Operand::Text(text), rest)),
        Token::Open => {
            let (base, behind) = base(rest)?;
            Some((Operand::Indirect { base }, behind))
        }
        Token::Colon | Token::Comma | Token::Close => None,
    }
}

/// The operand that begins with a number, which stands before `text`.
#[tactic(auto, using(crate::proofs::OperandSteps::no_base))]
fn number_operand<'a>(number: i64, text: &'a [u8]) -> Option<(Operand<'a>, &'a [u8])>
    ensures operand { MatchOption result (operands_behind (token.Number number) text.now ≡ None)
        (λ found. operands_behind (token.Number number) text.now ≡ operands_on (After found.0) found.1.now) }
    ensures shorter { IfSome result (λ found. length found.1.now ≤ length text.now) }
{
    let Front::Token(Token::Open, rest) = next_token(text) else {
        return Some((Operand::Number(number), text));
    };
    let (base, behind) = base(rest)?;
    Some((
        Operand::Indexed {
            offset: number,
            base,
        },
        behind,
    ))
}

/// The name of a base whose opening bracket stands before `text`, and what follows the closing one.
fn base<'a>(text: &'a [u8]) -> Option<(Span<'a>, &'a [u8])>
    ensures base { MatchOption result (base_on text.now ≡ None)
        (λ found. tokens_of text.now ≡ followed (Some (token.Name found.0)) (followed (Some token.Close) (tokens_of found.1.now))) }
    ensures shorter { IfSome result (λ found. length found.1.now < length text.now) }
{
    let Front::Token(token, rest) = next_token(text) else {
        return None;
    };
    let Token::Name(name) = token else {
        return None;
    };
    let Front::Token(Token::Close, behind) = next_token(rest) else {
        return None;
    };
    Some((name, behind))
}
