//! From the text of a line to its form.

ghost use Rattle.std.specs.Prelude.{◌≡◌, ◌<◌, length, Some, None, Ok, IfOk, IfErr, IfSome, MatchOption};
ghost use Rattle.asm_lines.specs.Faults.{RefusesLine};
ghost use Rattle.asm_lines.specs.Forms.{line_value};
ghost use Rattle.asm_lines.specs.Lines.{line_form};
ghost use Rattle.asm_lines.specs.Tokens.{tokens_of, followed};
ghost use Rattle.asm_lines.specs.Readings.{label_on};
ghost use Rattle.asm_lines.specs.declared.token.Token.TheVariants as token;

use crate::fault::LineRefusal;
use crate::front::Front;
use crate::source_line::SourceLine;
use crate::span::Span;
use crate::statement::statement;
use crate::token::Token;
use crate::tokens::next_token;
use std::alloc::Global;

/// Reads a line to its form: labels with a colon behind each, then perhaps a statement's name, and operands parted by
/// commas. A line of no such form is a [`FaultKind::BadLine`](crate::FaultKind::BadLine).
#[tactic(auto, unfolding(crate::specs::Lines::line_form))]
pub fn scan_line<'a>(alloc: Global, text: &'a [u8]) -> Result<SourceLine<'a>, LineRefusal>
    ensures line { IfOk result (λ line. line_form text.now ≡ Ok (line_value line)) }
    ensures refusal { IfErr result (RefusesLine (line_form text.now)) }
{
    let mut labels = Vec::new(alloc);
    let mut rest = text;
    while let Some((name, behind)) = label(rest) {
        if labels.push(name).is_err() {
            return Err(LineRefusal::NoMemory);
        }
        rest = behind;
    }
    let (name, operands) = statement(alloc, rest)?;
    Ok(SourceLine {
        labels,
        name,
        operands,
    })
}

/// The label at the front of a text, and what follows its colon.
fn label<'a>(text: &'a [u8]) -> Option<(Span<'a>, &'a [u8])>
    ensures label { MatchOption result (label_on text.now ≡ None)
        (λ found. tokens_of text.now ≡ followed (Some (token.Name found.0)) (followed (Some token.Colon) (tokens_of found.1.now))) }
    ensures shorter { IfSome result (λ found. length found.1.now < length text.now) }
{
    let Front::Token(token, rest) = next_token(text) else {
        return None;
    };
    let Token::Name(name) = token else {
        return None;
    };
    let Front::Token(Token::Colon, behind) = next_token(rest) else {
        return None;
    };
    Some((name, behind))
}
